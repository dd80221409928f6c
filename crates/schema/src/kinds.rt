// What a row of the table may be seen as: a schema, a group, a field, or a node of any kind.
ghost use Rattle.schema.specs.Entries.{NodeOf};
ghost use Rattle.schema.specs.declared.nodes.Node.{Node};
ghost use Rattle.schema.specs.declared.nodes.Node.TheVariants.{OfSchema, OfGroup, OfField};

use crate::entries::{Entry, Form};
use crate::nodes::{Field, Group, Node, Schema};

// No TryFrom<Entry>: it has no place for the ghost `node`, by which `node_at` says what it gives of any kind.
pub trait NodeKind<'a>: Sized {
    ghost node: { Self → Node };

    fn of_entry(entry: Entry<'a>) -> Option<Self>
        ensures { NodeOf node entry.entry result };
}

impl<'a> NodeKind<'a> for Schema<'a> {
    ghost node = { OfSchema };

    fn of_entry(entry: Entry<'a>) -> Option<Schema<'a>> {
        match (entry.opcode, entry.form) {
            (0, Form::Bare) => Some(Schema::Any),
            (1, Form::Numbers(low, high)) => Some(Schema::Unsigned(low, high)),
            (2, Form::Numbers(low, high)) => Some(Schema::Negative(low, high)),
            (3, Form::Numbers(low, high)) => Some(Schema::ByteLength(low, high)),
            (4, Form::Numbers(low, high)) => Some(Schema::TextLength(low, high)),
            (5, Form::String(item)) => Some(Schema::Literal(item)),
            (6, Form::Bare) => Some(Schema::Choice),
            (7, Form::Bare) => Some(Schema::Array),
            (8, Form::Number(count)) => Some(Schema::Map(count)),
            (9, Form::Number(number)) => Some(Schema::Tag(number)),
            (10, Form::Number(number)) => Some(Schema::Rule(number)),
            _ => None,
        }
    }
}

impl<'a> NodeKind<'a> for Group {
    ghost node = { OfGroup };

    fn of_entry(entry: Entry<'a>) -> Option<Group> {
        match (entry.opcode, entry.form) {
            (0, Form::Bare) => Some(Group::Empty),
            (1, Form::Bare) => Some(Group::One),
            (2, Form::Bare) => Some(Group::Sequence),
            (3, Form::Bare) => Some(Group::FirstOf),
            (4, Form::Numbers(low, high)) => Some(Group::Repeat(low, high)),
            _ => None,
        }
    }
}

impl<'a> NodeKind<'a> for Field<'a> {
    ghost node = { OfField };

    fn of_entry(entry: Entry<'a>) -> Option<Field<'a>> {
        match (entry.opcode, entry.form) {
            (0, Form::String(key)) => Some(Field::Required(key)),
            (1, Form::String(key)) => Some(Field::Optional(key)),
            (2, Form::Bare) => Some(Field::Others),
            _ => None,
        }
    }
}

// The first kind that has a node which is written like that.
impl<'a> NodeKind<'a> for Node<'a> {
    ghost node = { λ x. x };

    fn of_entry(entry: Entry<'a>) -> Option<Node<'a>> {
        // Tried: `or_else`. No proof is made of a closure that captures the entry and gives what holds its bytes.
        if let Some(schema) = Schema::of_entry(entry) {
            Some(Node::OfSchema(schema))
        } else if let Some(group) = Group::of_entry(entry) {
            Some(Node::OfGroup(group))
        } else {
            Field::of_entry(entry).map(Node::OfField)
        }
    }
}
