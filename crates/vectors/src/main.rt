// Goes through a table on standard input, and compares what is answered with what stands beside it.
//
// A line is a request in hex digits, the sign =>, and its answer; or the word rules, the bytes of rules, and what reading them tells.
// What follows a # is a comment.

#![tactic(auto)]

ghost use Rattle.std.specs.Prelude.{◌≡◌, None, if◌then◌else◌};
ghost use Rattle.std.specs.Char.{is_ascii_uppercase};
ghost use Rattle.hex.specs.Hex.{hex_digit_value};

use answer::{LENT, answer};
use anyhow::{Context, anyhow, bail, ensure};
use schema::nodes::Node;
use schema::reading::{NoRules, STACK, read_rules};
use schema::table::node_at;
use schema::writing::write_node;
use sequence::reading::read_number;
use std::alloc::Global;

fn main(rt: HostRuntime) -> anyhow::Result<()> {
    let heap = rt.alloc();
    let mut lent = vec![in heap; 0u64; LENT]?;
    tables::go_through(
        &rt,
        rt.stdin(),
        |asked| told(heap, asked, lent.as_mut_slice()),
    )
}

fn told(heap: Global, asked: &str, lent: &mut [u64]) -> anyhow::Result<String> {
    match asked.trim().strip_prefix("rules") {
        Some(rules) => rules_told(heap, bytes_of(heap, rules)?.as_slice(), lent),
        None => answer_told(heap, bytes_of(heap, asked)?.as_slice(), lent),
    }
}

// The bytes in hex digits, between which spaces may stand. The library takes none, and the line without them would be a copy.
fn bytes_of(heap: Global, digits: &str) -> anyhow::Result<Vec<u8>> {
    let mut bytes = Vec::new(heap);
    let mut high = None;
    for byte in digits.bytes().filter(|byte| *byte != b' ') {
        let Some(value) = digit(byte) else {
            bail!("not a hex digit");
        };
        match high.take() {
            None => high = Some(value),
            Some(high) => bytes.push(high << 4 | value)?,
        }
    }
    ensure!(high.is_none(), "half a byte");
    Ok(bytes)
}

// A digit's value. The library also takes capital letters, of which a table has none.
fn digit(byte: u8) -> Option<u8>
    ensures { result ≡ if is_ascii_uppercase byte then None else hex_digit_value byte }
{
    match byte {
        b'0'..=b'9' => Some(byte - b'0'),
        b'a'..=b'f' => Some(byte - b'a' + 10),
        _ => None,
    }
}

fn answer_told(heap: Global, bytes: &[u8], lent: &mut [u64]) -> anyhow::Result<String> {
    let answer = answer(bytes, lent)?;
    Ok(format!(in heap; "{answer}")?)
}

fn rules_told(heap: Global, bytes: &[u8], lent: &mut [u64]) -> anyhow::Result<String> {
    let (stack, table) = lent
        .split_at_mut_checked(STACK)
        .context("too little is lent")?;
    match read_rules(bytes, stack, table) {
        Ok(rules) if writes_back(heap, bytes, table, rules.nodes)? => {
            Ok(format!(in heap; "{} parts", rules.parts)?)
        }
        Ok(_) => Err(anyhow!("rules that are not written back")),
        Err(reason @ NoRules::TooLittleLent) => Err(reason.into()),
        Err(reason) => Ok(format!(in heap; "{reason}")?),
    }
}

// Whether the nodes of the table, written one after another, are the bytes that follow the number of rules.
fn writes_back(heap: Global, bytes: &[u8], table: &[u64], nodes: usize) -> anyhow::Result<bool> {
    let Ok(count) = read_number(bytes, 0) else {
        return Ok(false);
    };
    let mut out = vec![in heap; 0u8; bytes.len()]?;
    let end = (0..nodes).try_fold(count.next, |at, index| {
        let node: Node<'_> = node_at(bytes, table, index)?;
        write_node(out.as_mut_slice(), at, node)
    });
    Ok(end == Some(bytes.len()) && out.as_slice().get(count.next..) == bytes.get(count.next..))
}
