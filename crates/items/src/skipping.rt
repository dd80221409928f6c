// Heads and items of bytes that are known to begin with a valid item.
// Public functions take any place and hand back plain ends: a place with its bound in its type would be made and taken apart at each call.
ghost use Rattle.std.specs.Prelude.{◌≤◌, length};
ghost use Rattle.items.specs.Skipping.{HeadTold, PartTold, Skips, SkipsItems};

use cbor::Major;
use cbor::reading::{bytes_end, read_head};

// A head of any major type, and where what follows it stands; its number is an argument, as a Head's is.
#[derive(Clone, Copy, Debug, PartialEq, Eq)]
pub struct ItemHead {
    pub major: Major,
    pub argument: u64,
    pub next: usize,
}

// Arrays, maps and tags in one another that are gone into.
pub const DEPTH: u8 = 32;

// The head that stands at a place, if there is one in its shortest form.
pub fn head_at(bytes: &[u8], at: usize) -> Option<ItemHead>
    ensures { HeadTold bytes.now at result }
{
    let major = Major::of_head(*bytes.get(at)?);
    let head = read_head(bytes, at, major).ok()?;
    Some(ItemHead {
        major,
        argument: head.argument,
        next: head.next,
    })
}

// Where the valid item ends that stands at a place; without one there, what its heads say or None.
#[cycle(skipping)]
pub fn skip(bytes: &[u8], at: usize, depth: u8) -> Option<usize>
    ensures { Skips depth bytes.now at result }
{
    let head = head_at(bytes, at)?;
    match head.major {
        Major::Unsigned | Major::Negative | Major::Simple => Some(head.next),
        Major::Bytes | Major::Text => bytes_end(bytes, head.next, head.argument),
        Major::Array => skip_items(bytes, head.next, head.argument, depth),
        Major::Map => skip_items(bytes, head.next, head.argument.saturating_mul(2), depth),
        Major::Tag => skip_items(bytes, head.next, 1, depth),
    }
}

// Where so many of them end that are in an item.
#[cycle(skipping)]
fn skip_items(bytes: &[u8], at: usize, count: u64, depth: u8) -> Option<usize>
    requires { at ≤ length bytes.now }
    ensures { SkipsItems depth count bytes.now at result }
{
    let inner = depth.checked_sub(1)?;
    let mut next = at;
    for _ in 0..count {
        next = skip(bytes, next, inner)?;
    }
    Some(next)
}

// The part of the bytes that is the valid item at a place.
pub fn item_at(bytes: &[u8], at: usize) -> Option<&[u8]>
    ensures { PartTold bytes.now at result }
{
    let end = skip(bytes, at, DEPTH)?;
    Some(&bytes[at..end])
}
