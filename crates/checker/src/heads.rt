// The head of an item, by how deep it stands and how many keys have to come after it. Places stay plain, as in walking.rt.
ghost use Rattle.std.specs.Prelude.{◌≡◌, ℕ, ◌<◌, true, length, drop, slice_index, IfOk};
ghost use Rattle.prefixes.specs.Walks.{first_for, walk_head};
ghost use Rattle.reach.specs.Measured.{Deep};
ghost use Rattle.checker.specs.Ends.{stop_within, Headed};

use crate::Stop;
use cbor::Major;
use cbor::reading::{Stop as ReaderStop, read_head};
use items::skipping::ItemHead;

// Whether an item may begin so.
fn may_begin(first: u8, depth: u8, demand: u64) -> bool
    ensures { result ≡ first_for depth demand first }
{
    if first & 31 > 27 {
        return false;
    }
    if first < 0x80 {
        return true;
    }
    if first < 0xe0 {
        return depth > 0;
    }
    first <= 0xf8 && u64::from(first - 0xe0) + demand.min(256) <= 247
}

// The head of a simple value from 32 on, whose first byte is there.
fn long_simple(bytes: &[u8], at: usize, demand: u64) -> Result<ItemHead, Stop>
    requires at_in_bounds { at < length bytes.now }
    requires at_value { slice_index bytes.now at ≡ 248 }
    ensures deep { IfOk result (λ head. (depth : ℕ) → Deep depth head.major) }
    ensures told { (depth : ℕ) → first_for depth demand 248 ≡ true → Headed bytes.now at result (walk_head depth demand (drop at bytes.now)) }
{
    let place = at + 1;
    let Some(&value) = bytes.get(place) else {
        return Err(Stop::Cut);
    };
    if value < 32 || u64::from(255 - value) < demand {
        return Err(Stop::Wrong(place));
    }
    Ok(ItemHead {
        major: Major::Simple,
        argument: u64::from(value),
        next: at + 2,
    })
}

// A reader that stops at a byte finds it wrong, and one that stops where there is none misses it.
fn stop_within(bytes: &[u8], stop: ReaderStop) -> Stop
    ensures { result ≡ stop_within (length bytes.now) stop.place }
{
    if stop.place < bytes.len() {
        Stop::Wrong(stop.place)
    } else {
        Stop::Cut
    }
}

// Read anew and not by items' head_at: its None doesn't tell where a head is wrong, or that it is cut.
pub(crate) fn head_of(bytes: &[u8], at: usize, depth: u8, demand: u64) -> Result<ItemHead, Stop>
    ensures told { Headed bytes.now at result (walk_head depth demand (drop at bytes.now)) }
    ensures deep { IfOk result (λ head. Deep depth head.major) }
{
    let Some(&first) = bytes.get(at) else {
        return Err(Stop::Cut);
    };
    if !may_begin(first, depth, demand) {
        return Err(Stop::Wrong(at));
    }
    if first == 0xf8 {
        return long_simple(bytes, at, demand);
    }
    let major = Major::of_head(first);
    let head = read_head(bytes, at, major).map_err(|stop| stop_within(bytes, stop))?;
    Ok(ItemHead {
        major,
        argument: head.argument,
        next: head.next,
    })
}
