// The keys of a map, each after the last.
ghost use Rattle.std.proofs.Props.{props};
ghost use Rattle.std.specs.Prelude.{◌≤◌, length, IfOk};
ghost use Rattle.checker.specs.Keys.{AfterLast, Kept, KeyTold, KeyWithin, Misplaced, OddOf, OddWith, Refused};

use crate::{FRAME, Stop};
use items::comparing::{Comparison, compare};
use reach::measure;

// From which byte to which one a key stands.
#[derive(Clone, Copy, Debug, PartialEq, Eq)]
pub(crate) struct KeySpan {
    pub(crate) start: usize,
    pub(crate) end: usize,
}

// The last key, as a map keeps it in its frame. No key ends at 0.
// Two numbers and no local: the last keys of all maps are kept in the memory that is lent for them, and the stack stays small.
pub(crate) fn last_key(own: [u64; FRAME]) -> Option<KeySpan>
    ensures { Kept own result }
{
    let [start, end] = own;
    (end > 0).then_some(KeySpan {
        start: start as usize,
        end: end as usize,
    })
}

// The first place at which a key is at odds with as much of the last one as it can pass.
fn odd_place(reached: &[u8], key: &[u8]) -> Option<usize>
    ensures { OddOf reached.now key.now result }
{
    match compare(reached, key) {
        Comparison::Before(index) if index < reached.len() => None,
        Comparison::After(index) => (index < key.len()).then_some(index),
        Comparison::Before(_) | Comparison::Same => reached.len().checked_sub(1),
    }
}

// A key that is to come after the last one of its map, if there is one, and where it stands, so deep.
#[derive(Clone, Copy)]
pub(crate) struct NextKey<'a> {
    pub(crate) bytes: &'a [u8],
    pub(crate) last: Option<KeySpan>,
    pub(crate) depth: u8,
    pub(crate) at: usize,
    ghost last_within: { KeyWithin bytes.now last } by { Prim.hlevel props },
    ghost at_in_bounds: { at ≤ length bytes.now },
}

impl NextKey<'_> {
    // Whether the whole key comes after the last one.
    fn comes_after(self, end: usize) -> bool
        requires { (self.at ≤ end) × (end ≤ length self.bytes.now) }
        ensures { AfterLast self.entry.bytes.now self.entry.last self.entry.at end result }
    {
        let Some(last) = self.last else {
            return true;
        };
        let order = compare(&self.bytes[last.start..last.end], &self.bytes[self.at..end]);
        // Not by the order of slices, which takes two thirds more time where keys have a long beginning in common.
        matches!(order, Comparison::Before(_))
    }

    // The first place at which it is at odds with the last one.
    fn odd(self) -> Option<usize>
        ensures { OddWith self.entry.bytes.now self.entry.depth self.entry.last self.entry.at result }
    {
        let start = self.last?.start;
        let reach = measure(self.bytes, start, self.depth)?.reach;
        let index = odd_place(&self.bytes[start..start + reach], &self.bytes[self.at..])?;
        Some(self.at + index)
    }

    // Why a key that stops is refused: the earlier of its own stop and where it is at odds with the last one.
    fn stop(self, stop: Stop) -> Stop
        ensures { Refused self.entry.bytes.now self.entry.depth self.entry.last self.entry.at stop result }
    {
        let Some(odd) = self.odd() else {
            return stop;
        };
        match stop {
            Stop::Cut => Stop::Wrong(odd),
            Stop::Wrong(own) => Stop::Wrong(own.min(odd)),
        }
    }

    // Where a whole key that does not come after the last one is refused.
    fn misplaced(self) -> usize
        ensures { Misplaced self.entry.bytes.now self.entry.depth self.entry.last self.entry.at result }
    {
        match self.odd() {
            Some(odd) => odd,
            // never so: a whole key that does not come after the last one is somewhere at odds with it
            None => self.at,
        }
    }

    // Where it ends if it comes after the last one, by what is told of it whatever the last one is.
    pub(crate) fn end(self, told: Result<usize, Stop>) -> Result<usize, Stop>
        requires { IfOk told (λ end. (self.at ≤ end) × (end ≤ length self.bytes.now)) }
        ensures { KeyTold self.entry.bytes.now self.entry.depth self.entry.last self.entry.at told result }
    {
        match told {
            Ok(end) if self.comes_after(end) => Ok(end),
            Ok(_) => Err(Stop::Wrong(self.misplaced())),
            Err(stop) => Err(self.stop(stop)),
        }
    }
}
