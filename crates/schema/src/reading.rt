// Rules read from lent bytes, over a stack of what is pending in lent numbers, with the place where there are none.
ghost use Rattle.std.specs.Prelude.{◌≡◌, length, Some};
ghost use Rattle.schema.specs.Verdict.{reason, Enough, RulesAt, RulesTold, ReadsBack};
ghost use Rattle.schema.specs.declared.reading.NoRules.TheVariants.{Wrong};
ghost use Rattle.schema.specs.declared.reading.TheConstants.{TABLE};

use crate::nodes::{Run, Sort};
use crate::reader::Reader;
use crate::stack::Stack;
use cbor::reading::Stop;
use sequence::reading::read_number;
use std::error::Error;
use std::fmt;

// Rules of more parts are not looked at.
pub const MOST_PARTS: usize = 8192;

// How many numbers the stack takes: two for each run, of which there is one more than parts, and room for one to come.
pub const STACK: usize = 16388;

// How many numbers the table takes: a row for each node, of which there are no more than parts.
pub const TABLE: usize = 32768;

// Rules that were read: how many nodes the table has, and how many parts they are.
#[derive(Clone, Copy, Debug, PartialEq, Eq)]
pub struct Rules {
    pub nodes: usize,
    pub parts: usize,
}

// Why bytes are no rules to look at.
#[derive(Clone, Copy, Debug, PartialEq, Eq)]
pub enum NoRules {
    TooLittleLent,
    TooLarge,
    Wrong(usize),
}

impl fmt::Display for NoRules {
    ghost output = { λ e. Some (reason e) };

    fn fmt<W: fmt::Write>(&self, f: &mut fmt::Formatter<W>) -> fmt::Result {
        match self {
            NoRules::TooLittleLent => write!(f, "too little is lent"),
            NoRules::TooLarge => write!(f, "too large"),
            NoRules::Wrong(place) => write!(f, "wrong at {place}"),
        }
    }
}

impl Error for NoRules {}

impl From<Stop> for NoRules {
    ghost from_gives = { λ s e. e ≡ Wrong s.place };

    fn from(stop: Stop) -> NoRules {
        NoRules::Wrong(stop.place)
    }
}

#[tactic(auto, using(crate::proofs::Progresses::begun, crate::proofs::Progresses::whole_pending), unfolding(crate::specs::Stacks::pending))]
fn read_all(
    bytes: &[u8],
    stack: &mut [u64; STACK],
    table: &mut [u64; TABLE],
) -> Result<Rules, NoRules>
    ensures rules { RulesAt bytes.now table.new result }
    ensures room { length table.new ≡ TABLE }
{
    let rules = read_number(bytes, 0)?;
    let (runs, _) = stack.as_chunks_mut::<2>();
    let mut stack = Stack { runs, depth: 0 };
    stack.push(Run {
        sort: Sort::ARule,
        count: rules.argument,
    });
    let mut reader = Reader {
        bytes,
        table,
        at: rules.next,
        parts: 0,
        nodes: 0,
    };
    while let Some(sort) = stack.pop() {
        stack.push(reader.advance(sort)?);
    }
    if reader.at < bytes.len() {
        return Err(NoRules::Wrong(reader.at));
    }
    Ok(Rules {
        nodes: reader.nodes,
        parts: reader.parts,
    })
}

// The rules that some bytes are, as a table of their nodes, or why they are none to look at.
pub fn read_rules(bytes: &[u8], stack: &mut [u64], table: &mut [u64]) -> Result<Rules, NoRules>
    ensures told { RulesTold (Enough (length stack.old) (length table.old)) bytes.now table.new result }
    ensures back { ReadsBack (Enough (length stack.old) (length table.old)) bytes.now table.new result }
{
    let (Some(stack), Some(table)) = (
        stack.first_chunk_mut::<STACK>(),
        table.first_chunk_mut::<TABLE>(),
    ) else {
        return Err(NoRules::TooLittleLent);
    };
    read_all(bytes, stack, table)
}
