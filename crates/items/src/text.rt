// Texts of an announced length, of which some bytes are there.
// That a place is among the bytes stands in a clause: the loop that hands it on goes over plain places, so a type for it would be made and taken apart at each turn.
ghost use Rattle.std.specs.Prelude.{◌≡◌, suc, ◌<◌, ◌≤◌, ℕ, length, slice_index, MatchOption};
ghost use Rattle.cbor.specs.Utf8.{tails, second, first_in};
ghost use Rattle.items.specs.Text.{ByteIn, ByteTold, TailsTold, CharTold, PlainTo, FirstWrong};

// From which number to which one a byte of a character is.
// No RangeInclusive, which also says whether it was gone through, so that each use would have to show that it wasn't.
#[derive(Clone, Copy, Debug, PartialEq, Eq)]
pub struct ByteRange {
    pub low: u8,
    pub high: u8,
}

// Each byte after a character's second one.
pub const TAIL: ByteRange = ByteRange {
    low: 0x80,
    high: 0xbf,
};

// The range of a character's second byte, by its first one.
pub fn second_of(first: u8) -> ByteRange
    ensures { (result.low, result.high) ≡ second first }
{
    let (low, high) = match first {
        0xe0 => (0xa0, 0xbf),
        0xed => (0x80, 0x9f),
        0xf0 => (0x90, 0xbf),
        0xf4 => (0x80, 0x8f),
        _ => return TAIL,
    };
    ByteRange { low, high }
}

// How many bytes a character has, by its first one.
pub fn char_size(first: u8) -> usize
    ensures { result ≡ suc (length (tails first)) }
{
    match first {
        0..=0x7f => 1,
        0x80..=0xdf => 2,
        0xe0..=0xef => 3,
        _ => 4,
    }
}

// Whether a byte in a range stands at a place.
fn has_byte_in(bytes: &[u8], at: usize, range: ByteRange) -> bool
    ensures { ByteIn (range.low, range.high) bytes.now at result }
{
    bytes
        .get(at)
        .is_some_and(|byte| range.low <= *byte && *byte <= range.high)
}

// The place after a byte in a range, or its own place where none stands there.
fn byte_end(bytes: &[u8], at: usize, range: ByteRange) -> Result<usize, usize>
    requires { at ≤ length bytes.now }
    ensures { ByteTold (range.low, range.high) bytes.now at result }
{
    if !has_byte_in(bytes, at, range) {
        return Err(at);
    }
    Ok(at + 1)
}

// Where the bytes after a character's first one end, or the place of the first that is missing or wrong.
// Both are places: the match goes on at the one and tells the other, and a type for each would be taken apart there at once.
// An arm for each size, and no loop: texts are long, and each character would pay for the loop's count.
fn tails_end(bytes: &[u8], at: usize, first: u8) -> Result<usize, usize>
    requires { at ≤ length bytes.now }
    ensures { TailsTold (tails first) bytes.now at result }
{
    match first {
        0..=0x7f => Ok(at),
        0x80..=0xdf => byte_end(bytes, at, TAIL),
        0xe0..=0xef => {
            let third = byte_end(bytes, at, second_of(first))?;
            byte_end(bytes, third, TAIL)
        }
        _ => {
            let third = byte_end(bytes, at, second_of(first))?;
            let fourth = byte_end(bytes, third, TAIL)?;
            byte_end(bytes, fourth, TAIL)
        }
    }
}

// Whether a character may begin so, with so many bytes of the text left.
fn has_room(first: u8, left: u64) -> bool
    ensures { result ≡ first_in left first }
{
    match first {
        0..=0x7f => left >= 1,
        0xc2..=0xdf => left >= 2,
        0xe0..=0xef => left >= 3,
        0xf0..=0xf4 => left >= 4,
        _ => false,
    }
}

// Where the character ends that stands at a place, or where what stands there ceases to be the beginning of one: places both, as above.
fn char_end(bytes: &[u8], at: usize, left: u64) -> Result<usize, usize>
    requires { at < length bytes.now }
    ensures { CharTold left bytes.now at result }
{
    let first = bytes[at];
    if !has_room(first, left) {
        return Err(at);
    }
    tails_end(bytes, at + 1, first)
}

// The index of the first byte that is not below 128.
fn not_plain(bytes: &[u8]) -> Option<usize>
    ensures { MatchOption result ((k : ℕ) → k < length bytes.now → slice_index bytes.now k < 128) (λ i. (i < length bytes.now) × ((k : ℕ) → k < i → slice_index bytes.now k < 128)) }
{
    bytes.iter().position(|byte| !byte.is_ascii())
}

// Where the bytes below 128 end that stand from one place up to another, each a character.
// A place and no count, which the loop would have to add for each character.
fn plain_end(bytes: &[u8], from: usize, to: usize) -> usize
    requires from_le_to { from ≤ to }
    requires to_in_bounds { to ≤ length bytes.now }
    ensures { PlainTo bytes.now from to result }
{
    match not_plain(&bytes[from..to]) {
        Some(index) => from + index,
        None => to,
    }
}

// The first byte with which no UTF-8 of an announced length goes on, of those that are there.
pub fn first_wrong(bytes: &[u8], size: u64) -> Option<usize>
    ensures { FirstWrong size bytes.now result }
{
    let end = size.min(bytes.len() as u64) as usize;
    let mut at = plain_end(bytes, 0, end);
    // where a character ends is known only once it is read, so no iterator over the bytes steps by characters
    while at < end {
        match char_end(bytes, at, size - at as u64) {
            Ok(next) => at = plain_end(bytes, next, end),
            Err(place) => return (place < bytes.len()).then_some(place),
        }
    }
    None
}
