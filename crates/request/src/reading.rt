// Requests read from lent bytes as parts of them, with the place where there is none.
ghost use Rattle.std.specs.Prelude.{◌≡◌, ℕ, ◌≤◌};
ghost use Rattle.sequence.specs.Reading.{Reads};
ghost use Rattle.request.specs.Reading.{step_number, kind_number, KindAt, StepAt, CountedPathAt, RequestFrom, RequestAt, ReadsBack, Reaches, RulesIn};

use cbor::reading::Stop;
use sequence::reading::{Parsed, Reader};

// A step into an item: an array's element by its number from 0, the value at a key, what a tag is on.
#[derive(Clone, Copy, Debug, PartialEq, Eq)]
pub enum Step<'a> {
    Index(u64),
    Key(&'a [u8]),
    Content,
}

// So many steps, in the bytes that they are written in.
#[derive(Clone, Copy, Debug, PartialEq, Eq)]
pub struct Path<'a> {
    pub count: u64,
    pub steps: &'a [u8],
}

#[derive(Clone, Copy, Debug, PartialEq, Eq)]
pub enum Request<'a> {
    Check(&'a [u8]),
    Find(Path<'a>, &'a [u8]),
    // the bytes of rules, which of them, the item
    Fit(&'a [u8], u64, &'a [u8]),
}

// The kinds of steps, by the numbers that they are written with, by `as`.
#[derive(Clone, Copy, Debug, PartialEq, Eq)]
pub(crate) enum StepKind {
    Index = 0,
    Key = 1,
    Content = 2,
}

// The kinds of requests, by the numbers that they are written with, by `as`.
#[derive(Clone, Copy, Debug, PartialEq, Eq)]
pub(crate) enum Kind {
    Check = 0,
    Find = 1,
    Fit = 2,
}

// How far the first request in some bytes reaches: it takes so many; all of them begin one, which has at least so many; or from a place on
// they begin none.
#[derive(Clone, Copy, Debug, PartialEq, Eq)]
pub enum Extent {
    Complete(usize),
    Incomplete(usize),
    Wrong(usize),
}

// The three kinds of something, each by its number. No TryFrom: no number above 2 is read, so that its error would never be met.
trait Numbered: Sized {
    ghost number_of: { Self → ℕ };

    fn of_number(number: u64) -> Self
        requires { number ≤ 2 }
        ensures { number_of result ≡ number };
}

impl Numbered for StepKind {
    ghost number_of = { step_number };

    fn of_number(number: u64) -> StepKind {
        match number {
            0 => StepKind::Index,
            1 => StepKind::Key,
            2 => StepKind::Content,
            _ => unreachable(),
        }
    }
}

impl Numbered for Kind {
    ghost number_of = { kind_number };

    fn of_number(number: u64) -> Kind {
        match number {
            0 => Kind::Check,
            1 => Kind::Find,
            2 => Kind::Fit,
            _ => unreachable(),
        }
    }
}

fn read_kind<K: Numbered>(reader: &mut Reader<'_>) -> Result<K, Stop>
    ensures { Reads (KindAt K.number_of) reader.old reader.new result }
{
    Ok(K::of_number(reader.opcode(2)?))
}

fn next_step<'a>(reader: &mut Reader<'a>) -> Result<Step<'a>, Stop>
    ensures { Reads StepAt reader.old reader.new result }
{
    match read_kind::<StepKind>(reader)? {
        StepKind::Index => Ok(Step::Index(reader.number()?)),
        StepKind::Key => Ok(Step::Key(reader.string()?)),
        StepKind::Content => Ok(Step::Content),
    }
}

// The step that stands at a place.
pub fn read_step(bytes: &[u8], at: usize) -> Result<Parsed<Step<'_>>, Stop>
    ensures { StepAt bytes.now at result }
{
    let mut reader = Reader { bytes, at };
    let value = next_step(&mut reader)?;
    Ok(Parsed {
        value,
        next: reader.at,
    })
}

// A path: how many steps, and the steps.
fn read_path<'a>(reader: &mut Reader<'a>) -> Result<Path<'a>, Stop>
    ensures { Reads CountedPathAt reader.old reader.new result }
{
    let count = reader.number()?;
    let from = reader.at;
    for _ in 0..count {
        next_step(reader)?;
    }
    let steps = &reader.bytes[from..reader.at];
    Ok(Path { count, steps })
}

fn next_request<'a>(reader: &mut Reader<'a>) -> Result<Request<'a>, Stop>
    ensures { Reads RequestFrom reader.old reader.new result }
{
    match read_kind::<Kind>(reader)? {
        Kind::Check => Ok(Request::Check(reader.string()?)),
        Kind::Find => {
            let path = read_path(reader)?;
            let item = reader.string()?;
            Ok(Request::Find(path, item))
        }
        Kind::Fit => {
            let rules = reader.string()?;
            let which = reader.number()?;
            let item = reader.string()?;
            Ok(Request::Fit(rules, which, item))
        }
    }
}

// The request that stands at the beginning of some bytes, or where they cease to begin one. Rules are not looked into.
pub fn read_request(bytes: &[u8]) -> Result<Parsed<Request<'_>>, Stop>
    ensures right { RequestAt bytes.now result }
    ensures back { ReadsBack bytes.now result }
{
    let mut reader = Reader { bytes, at: 0 };
    let value = next_request(&mut reader)?;
    Ok(Parsed {
        value,
        next: reader.at,
    })
}

pub fn extent_of(bytes: &[u8]) -> Extent
    ensures { Reaches bytes.now result }
{
    match read_request(bytes) {
        Ok(request) => Extent::Complete(request.next),
        Err(stop) if stop.place < bytes.len() => Extent::Wrong(stop.place),
        Err(stop) => Extent::Incomplete(stop.least),
    }
}

// The rules of a request to fit, as soon as all of them are there.
pub fn rules_in(bytes: &[u8]) -> Option<&[u8]>
    ensures { RulesIn bytes.now result }
{
    let mut reader = Reader { bytes, at: 0 };
    match read_kind::<Kind>(&mut reader).ok()? {
        Kind::Fit => reader.string().ok(),
        Kind::Check | Kind::Find => None,
    }
}
