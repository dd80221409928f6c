// A node where one of a sort is wanted, and what is in it: other nodes, and the bytes of a string.
ghost use Rattle.std.specs.Prelude.{◌≡◌, ◌+◌, min};
ghost use Rattle.schema.specs.Nodes.{sort_of, inner_of_schema, inner_of_group, inner_of_field, inner_of_node, run_of, string_in, rule_part};
ghost use Rattle.schema.specs.Reading.{NodeAt};

use crate::nodes::{Field, Group, Node, Run, Schema, Sort, read_field, read_group, read_schema};
use cbor::reading::Stop;
use sequence::reading::Parsed;

pub(crate) fn read_node<'a>(
    bytes: &'a [u8],
    at: usize,
    sort: Sort,
) -> Result<Parsed<Node<'a>>, Stop>
    ensures { NodeAt (sort_of sort) bytes.now at result }
{
    match sort {
        Sort::ARule | Sort::ASchema => read_schema(bytes, at),
        Sort::AGroup => read_group(bytes, at),
        Sort::AField => read_field(bytes, at),
    }
}

impl Schema<'_> {
    fn inner(self) -> Run
        ensures { run_of result ≡ inner_of_schema self.entry }
    {
        let (sort, count) = match self {
            Schema::Choice => (Sort::ASchema, 2),
            Schema::Array => (Sort::AGroup, 1),
            Schema::Map(count) => (Sort::AField, count),
            Schema::Tag(_) => (Sort::ASchema, 1),
            // No Option: a map of no fields gives an empty run anyway.
            Schema::Any
            | Schema::Unsigned(_, _)
            | Schema::Negative(_, _)
            | Schema::ByteLength(_, _)
            | Schema::TextLength(_, _)
            | Schema::Literal(_)
            | Schema::Rule(_) => (Sort::ASchema, 0),
        };
        Run { sort, count }
    }
}

impl Group {
    fn inner(self) -> Run
        ensures { run_of result ≡ inner_of_group self }
    {
        let (sort, count) = match self {
            Group::Empty => (Sort::ASchema, 0),
            Group::One => (Sort::ASchema, 1),
            Group::Sequence | Group::FirstOf => (Sort::AGroup, 2),
            Group::Repeat(_, _) => (Sort::AGroup, 1),
        };
        Run { sort, count }
    }
}

impl Field<'_> {
    fn inner(self) -> Run
        ensures { run_of result ≡ inner_of_field self.entry }
    {
        let count = match self {
            Field::Required(_) | Field::Optional(_) => 1,
            Field::Others => 2,
        };
        Run {
            sort: Sort::ASchema,
            count,
        }
    }
}

impl Node<'_> {
    pub(crate) fn inner(self) -> Run
        ensures { run_of result ≡ inner_of_node self.entry }
    {
        match self {
            Node::OfSchema(schema) => schema.inner(),
            Node::OfGroup(group) => group.inner(),
            Node::OfField(field) => field.inner(),
        }
    }

    // How many bytes its literal or key has.
    fn string_size(self) -> usize
        ensures { result ≡ string_in self.entry }
    {
        match self {
            Node::OfSchema(Schema::Literal(item)) => item.len(),
            Node::OfField(Field::Required(key) | Field::Optional(key)) => key.len(),
            _ => 0,
        }
    }

    // How many parts it counts for where it is wanted as this sort, or more than enough.
    pub(crate) fn parts(self, sort: Sort) -> usize
        ensures { result ≡ min (rule_part sort + (1 + string_in self.entry)) 18446744073709551615 }
    {
        let own = match sort {
            Sort::ARule => 2usize,
            _ => 1,
        };
        own.saturating_add(self.string_size())
    }
}
