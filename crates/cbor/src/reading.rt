// Heads read from lent bytes, with the place where there is none.
// Bytes, and a place in them: what is told of items are places, which are compared and kept. A reader that moves on is for who reads one thing after another.
ghost use Rattle.std.specs.Prelude.{◌≡◌, ◌+◌, ◌/◌, ◌%◌, ◌<◌, ◌≤◌, length, take, drop, slice_index};
ghost use Rattle.cbor.specs.Encoding.{of_bytes, major_number};
ghost use Rattle.cbor.specs.Reading.{HeadAt, FormOf, IsWidth, BytesEnd};

use crate::Major;

// The argument of a head, and where what follows the head stands. A struct by a name of its own: its number is an argument, in the RFC's word.
#[derive(Clone, Copy, Debug, PartialEq, Eq)]
pub struct Head {
    pub argument: u64,
    pub next: usize,
}

// Where bytes cease to be the beginning of what is read, or how many there are if all of them begin it; and at least
// how many there have to be if it begins with all of them.
#[derive(Clone, Copy, Debug, PartialEq, Eq)]
pub struct Stop {
    pub place: usize,
    pub least: usize,
}

// How an argument stands after the first byte: in `width` bytes, of which the first `front` show by at least `least`
// that the form is the shortest.
#[derive(Clone, Copy, Debug, PartialEq, Eq)]
struct Form {
    front: usize,
    width: usize,
    least: u64,
}

fn form_of(low: u8) -> Option<Form>
    ensures { FormOf low result }
{
    let (front, width, least) = match low {
        24 => (1, 1, 24),
        25 => (1, 2, 1),
        26 => (2, 4, 1),
        27 => (4, 8, 1),
        _ => return None,
    };
    Some(Form {
        front,
        width,
        least,
    })
}

// The number in 1, 2, 4 or 8 bytes.
fn number(bytes: &[u8]) -> u64
    requires { IsWidth (length bytes.now) }
    ensures { result ≡ of_bytes bytes.now }
{
    // By the length, and no patterns of slices: they become a jump by a table in `long_head`, which is slow where sizes are mixed.
    match bytes.len() {
        1 => u64::from(bytes[0]),
        2 => u64::from(u16::from_be_bytes([bytes[0], bytes[1]])),
        4 => u64::from(u32::from_be_bytes([bytes[0], bytes[1], bytes[2], bytes[3]])),
        _ => u64::from_be_bytes([
            bytes[0], bytes[1], bytes[2], bytes[3], bytes[4], bytes[5], bytes[6], bytes[7],
        ]),
    }
}

// A head whose argument stands after its first byte.
fn long_head(bytes: &[u8], at: usize, major: Major) -> Result<Head, Stop>
    requires at_in_bounds { at < length bytes.now }
    requires same_major { slice_index bytes.now at / 32 ≡ major_number major }
    requires long_form { 24 ≤ slice_index bytes.now at % 32 }
    ensures { HeadAt (major_number major) bytes.now at result }
{
    let Some(form) = form_of(bytes[at] & 31) else {
        return Err(Stop {
            place: at,
            least: at,
        });
    };
    let rest = &bytes[at + 1..];
    let cut = Stop {
        place: bytes.len(),
        least: (at + 1).saturating_add(form.width),
    };
    let Some(front) = rest.get(..form.front) else {
        return Err(cut);
    };
    if number(front) < form.least {
        return Err(Stop {
            place: at + form.front,
            least: at,
        });
    }
    let Some(argument) = rest.get(..form.width) else {
        return Err(cut);
    };
    Ok(Head {
        argument: number(argument),
        next: at + 1 + form.width,
    })
}

// The head of a major type that stands at a place, in its shortest form.
pub fn read_head(bytes: &[u8], at: usize, major: Major) -> Result<Head, Stop>
    ensures { HeadAt (major_number major) bytes.now at result }
{
    let first = match bytes.get(at) {
        Some(&first) if Major::of_head(first) == major => first,
        _ => {
            return Err(Stop {
                place: at,
                least: at,
            });
        }
    };
    let low = first & 31;
    if low < 24 {
        return Ok(Head {
            argument: u64::from(low),
            next: at + 1,
        });
    }
    long_head(bytes, at, major)
}

// Where so many bytes from a place on end, if they are there.
pub fn bytes_end(bytes: &[u8], at: usize, size: u64) -> Option<usize>
    ensures { BytesEnd size bytes.now at result }
{
    let left = bytes.len().checked_sub(at)?;
    if size > left as u64 {
        return None;
    }
    Some(at + size as usize)
}
