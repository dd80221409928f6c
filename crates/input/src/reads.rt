// How a window is filled.
ghost use Rattle.std.specs.Prelude.{◌≡◌, ◌+◌, ◌<◌, ◌≤◌, length, take, IfOk, vec_len, vec_capacity, MatchResult};
ghost use Rattle.input.specs.Fills.{Room, Fills};
ghost use Rattle.input.specs.Size.{most};
ghost use Rattle.input.specs.Unread.{Grown};

use super::{BUFFER, FIRST, Filled, Window};
use std::io;
use std::io::{ErrorKind, Read};

impl Window {
    // Reads at least once, and until `least` bytes are held.
    pub fn fill<R: Read>(&mut self, reader: &mut R, least: usize) -> io::Result<Filled>
        ensures grown { Grown self.old self.new }
        ensures came { MatchResult result (Fills least self.old self.new) (λ _. Room least self.old) }
    {
        if least > BUFFER || self.len() >= BUFFER {
            return Ok(Filled::NoRoom);
        }
        // An input need not end and a loop has to: so many rounds, which no input reaches.
        for _ in 0..u64::MAX {
            match self.read_more(reader) {
                Ok(0) => return Ok(Filled::Ended),
                Ok(_) if self.len() >= least => return Ok(Filled::Enough),
                Ok(_) => {}
                Err(e) if e.kind() == ErrorKind::Interrupted => {}
                Err(e) => return Err(e),
            }
        }
        Err(io::Error::from(ErrorKind::TimedOut))
    }

    // Moves what is held to the front, and reads once behind it.
    fn read_more<R: Read>(&mut self, reader: &mut R) -> io::Result<usize>
        requires { length self.old < most }
        ensures grown { Grown self.old self.new }
        ensures len { MatchResult result (λ n. length self.new ≡ length self.old + n) (λ _. length self.new ≡ length self.old) }
    {
        if self.start > 0 {
            self.bytes.copy_within(self.start..self.end, 0);
            self.end -= self.start;
            self.start = 0;
        }
        make_room(&mut self.bytes, self.end);
        let n = read_behind(reader, &mut self.bytes, self.end)?;
        self.end += n;
        Ok(n)
    }
}

// Makes room for a byte or more from `end` on: makes twice as many ready, in the memory that is there, so that `resize` does not fail.
fn make_room(bytes: &mut Vec<u8>, end: usize)
    requires within { end ≤ vec_len bytes.old }
    requires less { end < most }
    requires bounded { vec_len bytes.old ≤ most }
    requires reserved { most ≤ vec_capacity bytes.old }
    ensures front { take end bytes.new.items ≡ take end bytes.old.items }
    ensures room { end < vec_len bytes.new }
    ensures bounded { vec_len bytes.new ≤ most }
    ensures reserved { most ≤ vec_capacity bytes.new }
{
    if end == bytes.len() {
        let longer = (2 * end).max(FIRST).min(BUFFER);
        bytes.resize(longer, 0).unwrap();
    }
}

// One read into `bytes` from `end` on. There is room for it, so 0 says that the input has ended.
fn read_behind<R: Read>(reader: &mut R, bytes: &mut Vec<u8>, end: usize) -> io::Result<usize>
    requires { end < vec_len bytes.old }
    ensures front { take end bytes.new.items ≡ take end bytes.old.items }
    ensures len { vec_len bytes.new ≡ vec_len bytes.old }
    ensures capacity { vec_capacity bytes.new ≡ vec_capacity bytes.old }
    ensures within { IfOk result (λ n. end + n ≤ vec_len bytes.old) }
{
    reader.read(&mut bytes[end..])
}
