// Heads and strings written into lent bytes.
ghost use Rattle.std.specs.Prelude.{◌≡◌, ℕ, length};
ghost use Rattle.cbor.specs.Encoding.{head, major_number};
ghost use Rattle.cbor.specs.Writing.{Writes};

use crate::Major;
use crate::reading::bytes_end;

// How many bytes a head with this argument has.
pub fn head_size(argument: u64) -> usize
    ensures { (m : ℕ) → result ≡ length (head m argument) }
{
    match argument {
        0..=23 => 1,
        24..=255 => 2,
        256..=65535 => 3,
        65536..=4294967295 => 5,
        _ => 9,
    }
}

// A string at a place, or None and nothing changed where there is no room for it.
pub fn write_bytes(out: &mut [u8], at: usize, content: &[u8]) -> Option<usize>
    ensures { Writes out.old at content.now out.new result }
{
    let next = bytes_end(out, at, content.len() as u64)?;
    out[at..next].copy_from_slice(content);
    Some(next)
}

// A head at a place, or None and nothing changed where there is no room for it.
pub fn write_head(out: &mut [u8], at: usize, major: Major, argument: u64) -> Option<usize>
    ensures { Writes out.old at (head (major_number major) argument) out.new result }
{
    let high = u8::from(major) << 5;
    match argument {
        0..=23 => write_bytes(out, at, &[high + argument as u8]),
        24..=255 => write_bytes(out, at, &[high + 24, argument as u8]),
        256..=65535 => {
            let [a, b] = (argument as u16).to_be_bytes();
            write_bytes(out, at, &[high + 25, a, b])
        }
        65536..=4294967295 => {
            let [a, b, c, d] = (argument as u32).to_be_bytes();
            write_bytes(out, at, &[high + 26, a, b, c, d])
        }
        _ => {
            let [a, b, c, d, e, f, g, h] = argument.to_be_bytes();
            write_bytes(out, at, &[high + 27, a, b, c, d, e, f, g, h])
        }
    }
}
