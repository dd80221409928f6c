// The table of rules in lent numbers: a row for each node, in the order of their bytes.
ghost use Rattle.std.specs.Prelude.{◌≡◌, ◌+◌, ◌*◌, ◌≤◌, length, take, drop};
ghost use Rattle.schema.specs.Entries.{form_tokens};
ghost use Rattle.schema.specs.declared.table.TheConstants.{ROW};
ghost use Rattle.schema.specs.Table.{row_at, RowOf, RowWritten, EntryAt, Seen};

use crate::entries::{Entry, Form};
use crate::kinds::NodeKind;
use crate::nodes::Node;

// How many numbers a row takes: the opcode, its form, and two numbers, or where a string stands and how long it is.
pub const ROW: usize = 4;

// What the second number of a row, which is lent memory, says of the third and the fourth.
const BARE: u64 = 0;

const NUMBER: u64 = 1;

const NUMBERS: u64 = 2;

const STRING: u64 = 3;

// The row of an entry whose numbers and string end at `next`.
#[tactic(auto, using(crate::proofs::Rows::string_row))]
fn row_of(entry: Entry<'_>, next: usize) -> [u64; ROW]
    ensures { RowOf entry.entry next result }
{
    match entry.form {
        Form::Bare => [entry.opcode, BARE, 0, 0],
        Form::Number(number) => [entry.opcode, NUMBER, number, 0],
        Form::Numbers(first, second) => [entry.opcode, NUMBERS, first, second],
        Form::String(content) => {
            let from = next.saturating_sub(content.len());
            [entry.opcode, STRING, from as u64, content.len() as u64]
        }
    }
}

pub(crate) fn write_row(table: &mut [u64], index: usize, node: Node<'_>, next: usize)
    requires { ROW * index + ROW ≤ length table.old }
    ensures { RowWritten table.old index node.entry next table.new }
{
    let [opcode, form, first, second] = row_of(Entry::from(node), next);
    // One by one: copied from the array, a row is written to memory twice.
    table[ROW * index] = opcode;
    table[ROW * index + 1] = form;
    table[ROW * index + 2] = first;
    table[ROW * index + 3] = second;
}

// As much of a part as there is.
fn part(bytes: &[u8], from: usize, size: usize) -> &[u8]
    ensures { result.now ≡ take size (drop from bytes.now) }
{
    let rest = bytes.get(from..).unwrap_or(&[]);
    rest.get(..size).unwrap_or(rest)
}

// The entry of a row; a string is a part of the bytes.
fn entry_of(bytes: &[u8], row: [u64; ROW]) -> Entry<'_>
    ensures { form_tokens result.opcode result.form ≡ row_at bytes.now row 0 }
{
    let [opcode, form, first, second] = row;
    let form = match form {
        BARE => Form::Bare,
        NUMBER => Form::Number(first),
        NUMBERS => Form::Numbers(first, second),
        _ => Form::String(part(bytes, first as usize, second as usize)),
    };
    Entry { opcode, form }
}

#[tactic(auto, using(crate::proofs::Rows::row_read))]
fn entry_at<'a>(bytes: &'a [u8], table: &[u64], index: usize) -> Option<Entry<'a>>
    ensures { EntryAt bytes.now table.now index result }
{
    let (rows, _) = table.as_chunks::<ROW>();
    Some(entry_of(bytes, *rows.get(index)?))
}

// The node at a row of a table, as what it is wanted as; a literal or a key is a part of the bytes of the rules.
pub fn node_at<'a, K: NodeKind<'a>>(bytes: &'a [u8], table: &[u64], index: usize) -> Option<K>
    ensures { Seen K.node bytes.now table.now index result }
{
    K::of_entry(entry_at(bytes, table, index)?)
}
