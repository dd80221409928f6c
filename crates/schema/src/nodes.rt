// The nodes of rules, each schema, group and field by itself, read from lent bytes.
ghost use Rattle.sequence.specs.Reading.{Reads};
ghost use Rattle.schema.specs.Grammar.{a_schema, a_group, a_field};
ghost use Rattle.schema.specs.Reading.{RangedAt, MadeAt, NodeAt};
ghost use Rattle.schema.specs.declared.nodes.Node.TheVariants.{OfSchema, OfGroup, OfField};

use cbor::reading::Stop;
use sequence::reading::{Parsed, Reader};

#[derive(Clone, Copy, Debug, PartialEq, Eq)]
pub enum Schema<'a> {
    Any,
    Unsigned(u64, u64),
    Negative(u64, u64),
    ByteLength(u64, u64),
    TextLength(u64, u64),
    Literal(&'a [u8]),
    Choice,
    Array,
    Map(u64),
    Tag(u64),
    Rule(u64),
}

#[derive(Clone, Copy, Debug, PartialEq, Eq)]
pub enum Group {
    Empty,
    One,
    Sequence,
    FirstOf,
    Repeat(u64, u64),
}

#[derive(Clone, Copy, Debug, PartialEq, Eq)]
pub enum Field<'a> {
    Required(&'a [u8]),
    Optional(&'a [u8]),
    Others,
}

#[derive(Clone, Copy, Debug, PartialEq, Eq)]
pub enum Node<'a> {
    OfSchema(Schema<'a>),
    OfGroup(Group),
    OfField(Field<'a>),
}

// What a node may be wanted as.
#[derive(Clone, Copy, Debug, PartialEq, Eq)]
pub enum Sort {
    ARule = 0,
    ASchema = 1,
    AGroup = 2,
    AField = 3,
}

// So many nodes of a sort.
#[derive(Clone, Copy, Debug, PartialEq, Eq)]
pub struct Run {
    pub sort: Sort,
    pub count: u64,
}

// A schema made of the two numbers that stand next.
// Tried: any `T`, for groups too. No generic call is covered that is passed a function whose result names a lifetime and whose arguments do not.
fn read_ranged<'a, F: FnOnce(u64, u64) -> Schema<'a>>(
    reader: &mut Reader<'a>,
    make: F,
) -> Result<Schema<'a>, Stop>
    requires { F.IsAlwaysCallable make }
    ensures { Reads (RangedAt (F.post make)) reader.old reader.new result }
{
    let low = reader.number()?;
    let high = reader.number()?;
    Ok(make(low, high))
}

fn next_schema<'a>(reader: &mut Reader<'a>) -> Result<Schema<'a>, Stop>
    ensures { Reads (MadeAt OfSchema a_schema) reader.old reader.new result }
{
    // Here the number that was read becomes its enum.
    match reader.opcode(10)? {
        0 => Ok(Schema::Any),
        1 => read_ranged(reader, Schema::Unsigned),
        2 => read_ranged(reader, Schema::Negative),
        3 => read_ranged(reader, Schema::ByteLength),
        4 => read_ranged(reader, Schema::TextLength),
        5 => Ok(Schema::Literal(reader.string()?)),
        6 => Ok(Schema::Choice),
        7 => Ok(Schema::Array),
        8 => Ok(Schema::Map(reader.number()?)),
        9 => Ok(Schema::Tag(reader.number()?)),
        _ => Ok(Schema::Rule(reader.number()?)),
    }
}

pub fn read_schema<'a>(bytes: &'a [u8], at: usize) -> Result<Parsed<Node<'a>>, Stop>
    ensures { NodeAt a_schema bytes.now at result }
{
    let mut reader = Reader { bytes, at };
    let value = Node::OfSchema(next_schema(&mut reader)?);
    Ok(Parsed {
        value,
        next: reader.at,
    })
}

fn next_group(reader: &mut Reader<'_>) -> Result<Group, Stop>
    ensures { Reads (MadeAt OfGroup a_group) reader.old reader.new result }
{
    // Here the number that was read becomes its enum.
    match reader.opcode(4)? {
        0 => Ok(Group::Empty),
        1 => Ok(Group::One),
        2 => Ok(Group::Sequence),
        3 => Ok(Group::FirstOf),
        _ => {
            let low = reader.number()?;
            let high = reader.number()?;
            Ok(Group::Repeat(low, high))
        }
    }
}

pub fn read_group<'a>(bytes: &'a [u8], at: usize) -> Result<Parsed<Node<'a>>, Stop>
    ensures { NodeAt a_group bytes.now at result }
{
    let mut reader = Reader { bytes, at };
    let value = Node::OfGroup(next_group(&mut reader)?);
    Ok(Parsed {
        value,
        next: reader.at,
    })
}

fn next_field<'a>(reader: &mut Reader<'a>) -> Result<Field<'a>, Stop>
    ensures { Reads (MadeAt OfField a_field) reader.old reader.new result }
{
    // Here the number that was read becomes its enum.
    match reader.opcode(2)? {
        0 => Ok(Field::Required(reader.string()?)),
        1 => Ok(Field::Optional(reader.string()?)),
        _ => Ok(Field::Others),
    }
}

pub fn read_field<'a>(bytes: &'a [u8], at: usize) -> Result<Parsed<Node<'a>>, Stop>
    ensures { NodeAt a_field bytes.now at result }
{
    let mut reader = Reader { bytes, at };
    let value = Node::OfField(next_field(&mut reader)?);
    Ok(Parsed {
        value,
        next: reader.at,
    })
}
