// CBOR (RFC 8949) in its core deterministic encoding: one way only to write each item.

#![tactic(auto)]

ghost use Rattle.std.specs.Prelude.{◌≡◌, ◌/◌};
ghost use Rattle.cbor.specs.Encoding.{major_number};

pub mod reading;
pub mod writing;

// 2^60. No item of so many bytes or more is looked at.
pub const TOO_MANY_BYTES: usize = 1152921504606846976;

// The eight major types, by their numbers.
#[derive(Clone, Copy, Debug, PartialEq, Eq)]
pub enum Major {
    Unsigned,
    Negative,
    Bytes,
    Text,
    Array,
    Map,
    Tag,
    Simple,
}

impl Major {
    // The major type of a head, which has it in the high three bits of its first byte.
    pub fn of_head(first: u8) -> Major
        ensures { major_number result ≡ first / 32 }
    {
        match first >> 5 {
            0 => Major::Unsigned,
            1 => Major::Negative,
            2 => Major::Bytes,
            3 => Major::Text,
            4 => Major::Array,
            5 => Major::Map,
            6 => Major::Tag,
            _ => Major::Simple,
        }
    }
}

impl From<Major> for u8 {
    ghost from_gives = { λ major number. number ≡ major_number major };

    fn from(major: Major) -> u8 {
        major as u8
    }
}
