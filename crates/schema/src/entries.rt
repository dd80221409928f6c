// Nodes as they are written: an opcode, and what stands after it.
ghost use Rattle.schema.specs.Entries.{EntryOf};
ghost use Rattle.schema.specs.declared.nodes.Node.TheVariants.{OfSchema, OfGroup, OfField};

use crate::nodes::{Field, Group, Node, Schema};

// What stands after an opcode.
#[derive(Clone, Copy, Debug, PartialEq, Eq)]
pub enum Form<'a> {
    Bare,
    Number(u64),
    Numbers(u64, u64),
    String(&'a [u8]),
}

// An opcode stays a number: the same one is written for a schema, a group and a field.
#[derive(Clone, Copy, Debug, PartialEq, Eq)]
pub struct Entry<'a> {
    pub(crate) opcode: u64,
    pub(crate) form: Form<'a>,
}

impl<'a> From<Schema<'a>> for Entry<'a> {
    ghost from_gives = { λ x e. EntryOf (OfSchema x) e };

    fn from(schema: Schema<'a>) -> Entry<'a> {
        let (opcode, form) = match schema {
            Schema::Any => (0, Form::Bare),
            Schema::Unsigned(low, high) => (1, Form::Numbers(low, high)),
            Schema::Negative(low, high) => (2, Form::Numbers(low, high)),
            Schema::ByteLength(low, high) => (3, Form::Numbers(low, high)),
            Schema::TextLength(low, high) => (4, Form::Numbers(low, high)),
            Schema::Literal(item) => (5, Form::String(item)),
            Schema::Choice => (6, Form::Bare),
            Schema::Array => (7, Form::Bare),
            Schema::Map(count) => (8, Form::Number(count)),
            Schema::Tag(number) => (9, Form::Number(number)),
            Schema::Rule(number) => (10, Form::Number(number)),
        };
        Entry { opcode, form }
    }
}

impl<'a> From<Group> for Entry<'a> {
    ghost from_gives = { λ x e. EntryOf (OfGroup x) e };

    fn from(group: Group) -> Entry<'a> {
        let (opcode, form) = match group {
            Group::Empty => (0, Form::Bare),
            Group::One => (1, Form::Bare),
            Group::Sequence => (2, Form::Bare),
            Group::FirstOf => (3, Form::Bare),
            Group::Repeat(low, high) => (4, Form::Numbers(low, high)),
        };
        Entry { opcode, form }
    }
}

impl<'a> From<Field<'a>> for Entry<'a> {
    ghost from_gives = { λ x e. EntryOf (OfField x) e };

    fn from(field: Field<'a>) -> Entry<'a> {
        let (opcode, form) = match field {
            Field::Required(key) => (0, Form::String(key)),
            Field::Optional(key) => (1, Form::String(key)),
            Field::Others => (2, Form::Bare),
        };
        Entry { opcode, form }
    }
}

impl<'a> From<Node<'a>> for Entry<'a> {
    ghost from_gives = { EntryOf };

    fn from(node: Node<'a>) -> Entry<'a> {
        match node {
            Node::OfSchema(schema) => Entry::from(schema),
            Node::OfGroup(group) => Entry::from(group),
            Node::OfField(field) => Entry::from(field),
        }
    }
}
