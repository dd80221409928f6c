// What a window holds, and how what is taken leaves it.
ghost use Rattle.std.specs.Prelude.{◌≡◌, ◌≤◌, ◌↔◌, [], length, drop, IfOk, IsTrue};
ghost use Rattle.input.specs.Size.{most};

use super::{BUFFER, Window};
use std::alloc::{AllocError, Global};

impl Window {
    pub fn new(heap: Global) -> Result<Window, AllocError>
        ensures { IfOk result (λ w. w ≡ []) }
    {
        let bytes = Vec::with_capacity(heap, BUFFER)?;
        Ok(Window {
            bytes,
            start: 0,
            end: 0,
        })
    }

    // The bytes that are read and not yet taken.
    pub fn held(&self) -> &[u8]
        ensures held { result.now ≡ self.now }
        ensures bounded { length self.now ≤ most }
    {
        &self.bytes[self.start..self.end]
    }

    pub fn len(&self) -> usize
        ensures held { result ≡ length self.now }
        ensures bounded { result ≤ most }
    {
        self.end - self.start
    }

    pub fn is_empty(&self) -> bool
        ensures { IsTrue result ↔ (self.now ≡ []) }
    {
        self.len() == 0
    }

    // Takes the first `n` bytes, or all if there are fewer.
    pub fn skip(&mut self, n: usize)
        ensures { self.new ≡ drop n self.old }
    {
        self.start += n.min(self.len());
    }
}
