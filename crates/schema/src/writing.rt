// The nodes of rules written into lent bytes. Rules are how many there are, and then their nodes, each parent before its children.
ghost use Rattle.std.specs.Prelude.{◌≡◌};
ghost use Rattle.cbor.specs.Writing.{Writes};
ghost use Rattle.sequence.specs.Token.{spell};
ghost use Rattle.schema.specs.Nodes.{own_tokens};
ghost use Rattle.schema.specs.Entries.{form_tokens};

use crate::entries::{Entry, Form};
use crate::nodes::Node;
use sequence::writing::Token::{Bytes, Number};
use sequence::writing::write_tokens;

fn write_entry(out: &mut [u8], at: usize, entry: Entry<'_>) -> Option<usize>
    ensures { Writes out.old at (spell (form_tokens entry.entry.opcode entry.entry.form)) out.new result }
{
    let Entry { opcode, form } = entry;
    match form {
        Form::Bare => write_tokens(out, at, &[Number(opcode)]),
        Form::Number(argument) => write_tokens(out, at, &[Number(opcode), Number(argument)]),
        Form::Numbers(first, second) => {
            write_tokens(out, at, &[Number(opcode), Number(first), Number(second)])
        }
        Form::String(content) => write_tokens(out, at, &[Number(opcode), Bytes(content)]),
    }
}

// What is a node's own, at a place, or None and nothing changed where there is no room for it.
pub fn write_node(out: &mut [u8], at: usize, node: Node<'_>) -> Option<usize>
    ensures { Writes out.old at (spell (own_tokens node.entry)) out.new result }
{
    write_entry(out, at, Entry::from(node))
}
