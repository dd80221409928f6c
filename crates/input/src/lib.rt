// The bytes of an input that are read and not yet taken, in one buffer.

#![tactic(auto)]

mod moves;
mod reads;

use std::marker::Model;

// What is held is one piece of memory, so no more is held at a time than this.
pub const BUFFER: usize = 80 * 1024 * 1024;

// So many bytes are made ready to be read into at first. std writes a 0 to each, one by one, so all of
// BUFFER would take a tenth of a second, and most inputs need little of it.
const FIRST: usize = 256 * 1024;

// bytes[start..end] is read and not yet taken. All the memory of `bytes` is obtained as it is made,
// and its length is how much of that has been made ready to be read into.
// Two places beside a Vec, since std's BufReader holds no least number of bytes, and what a VecDeque holds is in two pieces.
#[derive(Drop)]
pub struct Window {
    bytes: Vec<u8>,
    start: usize,
    end: usize,
}

// Clauses see what is read and not yet taken.
impl Model for Window {
    ghost use Rattle.std.specs.Prelude.{ℕ, List};

    ghost Value = { List ℕ };

    ghost use Rattle.input.specs.Unread.{unread, IsWithin};

    ghost view = { unread };

    ghost invariant = { IsWithin };
}

// What filling a window came to.
#[derive(Clone, Copy, Debug, PartialEq, Eq)]
pub enum Filled {
    // As many bytes are held as were wanted, or more.
    Enough,
    // The input has ended.
    Ended,
    // More were wanted than the buffer takes, or it is full: nothing was read. No error of the input, which was not asked.
    NoRoom,
}
