// Tokens read from lent bytes, with the place where there is none.
ghost use Rattle.std.specs.Prelude.{◌≡◌, OnErr};
ghost use Rattle.sequence.specs.Token.{num, opcode, number};
ghost use Rattle.sequence.specs.Reading.{NumberAt, StringAt, TokenRead, Reads};

use cbor::Major;
use cbor::reading::{Head, Stop, bytes_end, read_head};

// What was read, and where what follows it stands.
#[derive(Clone, Copy, Debug, PartialEq, Eq)]
pub struct Parsed<T> {
    pub value: T,
    pub next: usize,
}

// One of a few: a number up to and with `last`, in one byte.
pub fn read_opcode(bytes: &[u8], at: usize, last: u8) -> Result<Head, Stop>
    ensures { NumberAt (opcode last) bytes.now at result }
{
    match bytes.get(at) {
        Some(&opcode) if opcode <= last.min(23) => Ok(Head {
            argument: u64::from(opcode),
            next: at + 1,
        }),
        _ => Err(Stop {
            place: at,
            least: at,
        }),
    }
}

pub fn read_number(bytes: &[u8], at: usize) -> Result<Head, Stop>
    ensures { NumberAt number bytes.now at result }
{
    read_head(bytes, at, Major::Unsigned)
}

#[inline(always)]
pub fn read_string(bytes: &[u8], at: usize) -> Result<Parsed<&[u8]>, Stop>
    ensures { StringAt bytes.now at result }
{
    let head = read_head(bytes, at, Major::Bytes)?;
    let Some(next) = bytes_end(bytes, head.next, head.argument) else {
        return Err(Stop {
            place: bytes.len(),
            least: head.next.saturating_add(head.argument as usize),
        });
    };
    Ok(Parsed {
        value: &bytes[head.next..next],
        next,
    })
}

// Lent bytes, and the place in them where what is read next stands.
#[derive(Drop)]
pub struct Reader<'a> {
    pub bytes: &'a [u8],
    pub at: usize,
}

// That a stop leaves it where it was is a clause of each and no part of Reads: who reads several may stop further on.
impl<'a> Reader<'a> {
    #[inline(always)]
    pub fn opcode(&mut self, last: u8) -> Result<u64, Stop>
        ensures told { Reads (TokenRead (opcode last) num) self.old self.new result }
        ensures kept { OnErr result (self.new ≡ self.old) }
    {
        let opcode = read_opcode(self.bytes, self.at, last)?;
        self.at = opcode.next;
        Ok(opcode.argument)
    }

    #[inline(always)]
    pub fn number(&mut self) -> Result<u64, Stop>
        ensures told { Reads (TokenRead number num) self.old self.new result }
        ensures kept { OnErr result (self.new ≡ self.old) }
    {
        let number = read_number(self.bytes, self.at)?;
        self.at = number.next;
        Ok(number.argument)
    }

    #[inline(always)]
    pub fn string(&mut self) -> Result<&'a [u8], Stop>
        ensures told { Reads StringAt self.old self.new result }
        ensures kept { OnErr result (self.new ≡ self.old) }
    {
        let string = read_string(self.bytes, self.at)?;
        self.at = string.next;
        Ok(string.value)
    }
}
