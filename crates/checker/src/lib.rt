// Whether bytes are one item, the beginning of some, or exactly from which byte on they begin none.

#![tactic(auto)]

ghost use Rattle.std.specs.Prelude.{◌≡◌, Some};
ghost use Rattle.checker.specs.Checked.{Checked, line, reason};
ghost use Rattle.checker.specs.Ends.{verdict_of};

use input::Input;
use items::skipping::DEPTH;
use std::error::Error;
use std::fmt;
use walking::walk;

mod heads;
mod input;
mod keys;
mod walking;

// How many numbers a map takes of what is lent: where its last key starts and ends.
pub const FRAME: usize = 2;

// How many numbers are lent for all the maps that may be in one another.
pub const LENT: usize = FRAME * DEPTH as usize;

pub use cbor::TOO_MANY_BYTES;

#[derive(Clone, Copy, Debug, PartialEq, Eq)]
pub enum Verdict {
    Complete,
    Prefix,
    Wrong(usize),
}

// The line of a verdict, without its line feed.
impl fmt::Display for Verdict {
    ghost output = { λ v. Some (line v) };

    fn fmt<W: fmt::Write>(&self, f: &mut fmt::Formatter<W>) -> fmt::Result {
        match self {
            Verdict::Complete => write!(f, "complete"),
            Verdict::Prefix => write!(f, "prefix"),
            Verdict::Wrong(place) => write!(f, "wrong at {place}"),
        }
    }
}

#[derive(Clone, Copy, Debug, PartialEq, Eq)]
pub enum NotChecked {
    TooLittleLent,
    TooManyBytes,
}

impl fmt::Display for NotChecked {
    ghost output = { λ e. Some (reason e) };

    fn fmt<W: fmt::Write>(&self, f: &mut fmt::Formatter<W>) -> fmt::Result {
        match self {
            NotChecked::TooLittleLent => write!(f, "fewer than {LENT} numbers are lent"),
            NotChecked::TooManyBytes => write!(f, "{TOO_MANY_BYTES} bytes or more"),
        }
    }
}

impl Error for NotChecked {}

// Why a walk over an item ends before the item does: all bytes that are there begin one, or none begins with this byte.
// Not an Option of the place: two named cases tell which of both it is.
#[derive(Clone, Copy, Debug, PartialEq, Eq)]
enum Stop {
    Cut,
    Wrong(usize),
}

impl From<Stop> for Verdict {
    ghost from_gives = { λ stop v. v ≡ verdict_of stop };

    fn from(stop: Stop) -> Verdict {
        match stop {
            Stop::Cut => Verdict::Prefix,
            Stop::Wrong(place) => Verdict::Wrong(place),
        }
    }
}

pub fn check(bytes: &[u8], lent: &mut [u64]) -> Result<Verdict, NotChecked>
    ensures { Checked bytes.now lent.old result }
{
    let Some(lent) = lent.get_mut(..LENT) else {
        return Err(NotChecked::TooLittleLent);
    };
    if bytes.len() >= TOO_MANY_BYTES {
        return Err(NotChecked::TooManyBytes);
    }
    let input = Input { bytes };
    let (frames, _) = lent.as_chunks_mut::<FRAME>();
    match walk(input, 0, 0, frames) {
        Ok(end) if end < bytes.len() => Ok(Verdict::Wrong(end)),
        Ok(_) => Ok(Verdict::Complete),
        Err(stop) => Ok(stop.into()),
    }
}
