// How far items reach that are known to be valid, and how many come after them.
// Public functions take any place and hand back plain ends: a place with its bound in its type would be made and taken apart at each call.

#![tactic(auto)]

ghost use Rattle.std.specs.Prelude.{◌≡◌, suc, ◌+◌, ◌-◌, ◌<◌, ◌≤◌, [], length, drop, if◌then◌else◌, nat_eq, slice_index};
ghost use Rattle.cbor.specs.declared.Major.TheVariants.{Tag};
ghost use Rattle.cbor.specs.Utf8.{tails};
ghost use Rattle.prefixes.specs.Words.{joined, last_up, reach_of_head};
ghost use Rattle.prefixes.specs.Shapes.{place_of};
ghost use Rattle.prefixes.specs.Texts.{top_of_first};
ghost use Rattle.prefixes.specs.Walks.{walk_bytes, walk_text, walk_many, walk_pairs, reach_of_key, capped, walk};
ghost use Rattle.reach.specs.Measured.{DoneSo, Extends, CharExtends, walk_char, ExtendsIn, BodyMeasured, uncounted, Measured};

use cbor::Major;
use cbor::reading::bytes_end;
use items::skipping::{ItemHead, head_at};
use items::text::{TAIL, char_size, second_of};

// Where an item ends, how far it reaches and how many valid items come after it in the order of bytes, counted up to u64::MAX.
// It reaches up to and with its last byte that can be larger, counted from 1, or 0 if none can.
#[derive(Clone, Copy, Debug, PartialEq, Eq)]
pub struct Measurement {
    pub end: usize,
    pub reach: usize,
    pub after: u64,
}

// Where a part of an item ends, and how far it reaches. No Measurement: how many come after a part is not asked.
#[derive(Clone, Copy, Debug, PartialEq, Eq)]
struct Extent {
    end: usize,
    reach: usize,
}

// The reach of a part and what follows it: the later place wins.
// A reach is a length: of bytes that can't be raised it is 0, which needs no Option.
fn join(first: usize, size: usize, second: usize) -> usize
    requires { size + second < 18446744073709551616 }
    ensures { result ≡ joined first size second }
{
    if second == 0 { first } else { size + second }
}

// The last of some bytes that isn't ff, counted from 1.
fn last_up(bytes: &[u8]) -> usize
    ensures { (result ≡ last_up bytes.now) × (result ≤ length bytes.now) }
{
    bytes
        .iter()
        .rposition(|byte| *byte != 0xff)
        .map_or(0, |index| index + 1)
}

// No head begins with a larger byte than f8.
fn head_reach(head: &[u8]) -> usize
    ensures { (result ≡ reach_of_head head.now) × (result ≤ length head.now) }
{
    let Some((first, rest)) = head.split_first() else {
        return 0;
    };
    join(usize::from(*first < 0xf8), 1, last_up(rest))
}

fn measure_bytes(bytes: &[u8], at: usize, size: u64) -> Option<Extent>
    requires { at ≤ length bytes.now }
    ensures { Extends bytes.now at result (walk_bytes size (drop at bytes.now)) }
{
    let end = bytes_end(bytes, at, size)?;
    Some(Extent {
        end,
        reach: last_up(&bytes[at..end]),
    })
}

// The largest first byte of a character, with so many bytes of the text left: items' char_size the other way round.
fn first_top(left: u64) -> u8
    ensures { result ≡ top_of_first left }
{
    match left {
        0 | 1 => 0x7f,
        2 => 0xdf,
        3 => 0xef,
        _ => 0xf4,
    }
}

// How far a character reaches, in a text with so many bytes left.
fn char_reach(bytes: &[u8], at: usize, end: usize, left: u64) -> usize
    requires at_in_bounds { (at < length bytes.now) × (end ≤ length bytes.now) }
    requires end_value { end ≡ at + suc (length (tails (slice_index bytes.now at))) }
    ensures { (at + result ≤ end) × DoneSo bytes.now at end result (walk_char left (drop at bytes.now)) }
{
    let first = bytes[at];
    let mut reach = usize::from(first < first_top(left));
    let mut range = second_of(first);
    for (index, byte) in bytes[at + 1..end].iter().enumerate() {
        reach = join(reach, index + 1, usize::from(*byte < range.high));
        range = TAIL;
    }
    reach
}

fn measure_char(bytes: &[u8], at: usize, left: u64) -> Option<Extent>
    ensures { CharExtends bytes.now at left result }
{
    let size = char_size(*bytes.get(at)?) as u64;
    if size > left {
        return None;
    }
    let end = bytes_end(bytes, at, size)?;
    Some(Extent {
        end,
        reach: char_reach(bytes, at, end, left),
    })
}

fn measure_text(bytes: &[u8], at: usize, size: u64) -> Option<Extent>
    requires { at ≤ length bytes.now }
    ensures { Extends bytes.now at result (walk_text size size (drop at bytes.now)) }
{
    let mut end = at;
    let mut reach = 0;
    let mut left = size;
    // how many bytes a character takes is known only once it is measured, so no iterator over them steps so
    while left > 0 {
        let char = measure_char(bytes, end, left)?;
        reach = join(reach, end - at, char.reach);
        left -= (char.end - end) as u64;
        end = char.end;
    }
    Some(Extent { end, reach })
}

// More come after such an item than are counted.
fn endless(extent: Extent) -> Measurement
    ensures { result ≡ uncounted extent }
{
    Measurement {
        end: extent.end,
        reach: extent.reach,
        after: u64::MAX,
    }
}

// How many simple values come after one, by its place among the 248 that there are; nothing else comes after them.
fn after_simple(value: u64) -> u64
    ensures { result ≡ 247 - place_of value }
{
    let place = if value < 24 { value } else { value - 8 };
    247u64.saturating_sub(place)
}

// After the last tag there are the tag on what comes after its content, and the simple values.
fn after_tag(number: u64, after_content: u64) -> u64
    ensures { result ≡ (if nat_eq number 18446744073709551615 then capped after_content else 18446744073709551615) }
{
    if number == u64::MAX {
        after_content.saturating_add(248)
    } else {
        u64::MAX
    }
}

// A key can be larger only if one more comes after it than have to follow it.
fn key_reach(key: Measurement, left: u64) -> usize
    ensures { result ≡ reach_of_key left (key.reach, key.after) }
{
    if key.after > left { key.reach } else { 0 }
}

#[cycle(measuring)]
fn measure_elements(bytes: &[u8], at: usize, count: u64, depth: u8) -> Option<Extent>
    requires { at ≤ length bytes.now }
    ensures { ExtendsIn depth bytes.now at result (walk_many (walk (depth - 1) 0) count (drop at bytes.now)) }
{
    let inner = depth.checked_sub(1)?;
    let mut end = at;
    let mut reach = 0;
    for _ in 0..count {
        let element = measure(bytes, end, inner)?;
        reach = join(reach, end - at, element.reach);
        end = element.end;
    }
    Some(Extent { end, reach })
}

#[cycle(measuring)]
fn measure_entries(bytes: &[u8], at: usize, count: u64, depth: u8) -> Option<Extent>
    requires { at ≤ length bytes.now }
    ensures { ExtendsIn depth bytes.now at result (walk_pairs (walk (depth - 1)) count [] (drop at bytes.now)) }
{
    let inner = depth.checked_sub(1)?;
    let mut end = at;
    let mut reach = 0;
    for left in (0..count).rev() {
        let key = measure(bytes, end, inner)?;
        let value = measure(bytes, key.end, inner)?;
        let entry = join(key_reach(key, left), key.end - end, value.reach);
        reach = join(reach, end - at, entry);
        end = value.end;
    }
    Some(Extent { end, reach })
}

#[cycle(measuring)]
fn measure_tag(bytes: &[u8], at: usize, number: u64, depth: u8) -> Option<Measurement>
    ensures { BodyMeasured depth bytes.now Tag number at result }
{
    let content = measure(bytes, at, depth.checked_sub(1)?)?;
    Some(Measurement {
        after: after_tag(number, content.after),
        ..content
    })
}

// What comes after a head, and how many come after the whole item.
#[cycle(measuring)]
fn measure_body(bytes: &[u8], head: ItemHead, depth: u8) -> Option<Measurement>
    requires { head.next ≤ length bytes.now }
    ensures { BodyMeasured depth bytes.now head.major head.argument head.next result }
{
    let at = head.next;
    match head.major {
        Major::Unsigned | Major::Negative => Some(endless(Extent { end: at, reach: 0 })),
        Major::Bytes => measure_bytes(bytes, at, head.argument).map(endless),
        Major::Text => measure_text(bytes, at, head.argument).map(endless),
        Major::Array => measure_elements(bytes, at, head.argument, depth).map(endless),
        Major::Map => measure_entries(bytes, at, head.argument, depth).map(endless),
        Major::Tag => measure_tag(bytes, at, head.argument, depth),
        Major::Simple => Some(Measurement {
            end: at,
            reach: 0,
            after: after_simple(head.argument),
        }),
    }
}

// The measurement of the valid item that stands at a place; without one there, what its heads say or None.
#[cycle(measuring)]
pub fn measure(bytes: &[u8], at: usize, depth: u8) -> Option<Measurement>
    ensures { Measured depth bytes.now at result }
{
    let head = head_at(bytes, at)?;
    let body = measure_body(bytes, head, depth)?;
    let own = head_reach(&bytes[at..head.next]);
    Some(Measurement {
        reach: join(own, head.next - at, body.reach),
        ..body
    })
}
