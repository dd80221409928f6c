// The walk over an item: where it ends, or why it stops before.
//
// Places stay plain: public functions take any place and hand back plain ends, so a place with its fact in its type would be made and taken
// apart at each call. Nor are place and frames one struct: the place moves on, and the frames are handed on by &mut.
// That a u8 counts the frames stands in three clauses: a struct with that fact would be made anew around each &mut that is handed on.
ghost use Rattle.std.specs.Prelude.{◌≡◌, ◌-◌, ◌<◌, ◌≤◌, [], length, drop, if◌then◌else◌, nat_eq};
ghost use Rattle.prefixes.specs.Walks.{walk_text, walk_many, walk_pairs, walk as told};
ghost use Rattle.checker.specs.Ends.{Ends};

use crate::heads::head_of;
use crate::input::Input;
use crate::keys::{NextKey, last_key};
use crate::{FRAME, Stop};
use cbor::Major;
use cbor::reading::bytes_end;
use items::text::first_wrong;

fn text_end(bytes: &[u8], at: usize, size: u64) -> Result<usize, Stop>
    requires { at ≤ length bytes.now }
    ensures { Ends bytes.now at result (walk_text size size (drop at bytes.now)) }
{
    match first_wrong(&bytes[at..], size) {
        Some(index) => Err(Stop::Wrong(at + index)),
        None => bytes_end(bytes, at, size).ok_or(Stop::Cut),
    }
}

// How many have to come after what a tag is on: 248 come after the largest tag already.
fn demand_in(number: u64, demand: u64) -> u64
    ensures { result ≡ (if nat_eq number 18446744073709551615 then demand - 248 else 0) }
{
    if number == u64::MAX {
        demand.saturating_sub(248)
    } else {
        0
    }
}

// An item, of which so many more keys have to come after it. There is a frame for each array, map or tag that may still be gone into.
#[cycle(walking)]
pub(crate) fn walk(
    input: Input<'_>,
    at: usize,
    demand: u64,
    frames: &mut [[u64; FRAME]],
) -> Result<usize, Stop>
    requires { length frames.old < 256 }
    ensures { Ends input.entry.bytes.now at result (told (length frames.old) demand (drop at input.entry.bytes.now)) }
{
    let head = head_of(input.bytes, at, frames.len() as u8, demand)?;
    match head.major {
        Major::Bytes => bytes_end(input.bytes, head.next, head.argument).ok_or(Stop::Cut),
        Major::Text => text_end(input.bytes, head.next, head.argument),
        Major::Array => walk_items(input, head.next, head.argument, &mut frames[1..]),
        Major::Map => walk_entries(input, head.next, head.argument, frames),
        Major::Tag => walk(
            input,
            head.next,
            demand_in(head.argument, demand),
            &mut frames[1..],
        ),
        Major::Unsigned | Major::Negative | Major::Simple => Ok(head.next),
    }
}

// So many items, one after the other.
#[cycle(walking)]
fn walk_items(
    input: Input<'_>,
    at: usize,
    count: u64,
    frames: &mut [[u64; FRAME]],
) -> Result<usize, Stop>
    requires at_in_bounds { at ≤ length input.bytes.now }
    requires few { length frames.old < 256 }
    ensures { Ends input.entry.bytes.now at result (walk_many (told (length frames.old) 0) count (drop at input.entry.bytes.now)) }
{
    let mut next = at;
    for _ in 0..count {
        next = walk(input, next, 0, frames)?;
    }
    Ok(next)
}

// So many entries, one after the other, each key after the last.
#[cycle(walking)]
fn walk_entries(
    input: Input<'_>,
    at: usize,
    count: u64,
    frames: &mut [[u64; FRAME]],
) -> Result<usize, Stop>
    requires at_in_bounds { at ≤ length input.bytes.now }
    requires some { 0 < length frames.old }
    requires few { length frames.old < 256 }
    ensures { Ends input.entry.bytes.now at result (walk_pairs (told (length frames.old - 1)) count [] (drop at input.entry.bytes.now)) }
{
    let (own, inner) = frames.split_first_mut().unwrap();
    *own = [0, 0];
    let mut next = at;
    for left in (0..count).rev() {
        let key = NextKey {
            bytes: input.bytes,
            last: last_key(*own),
            depth: inner.len() as u8,
            at: next,
        };
        let walked = walk(input, next, left, inner);
        let end = key.end(walked)?;
        *own = [next as u64, end as u64];
        next = walk(input, end, 0, inner)?;
    }
    Ok(next)
}
