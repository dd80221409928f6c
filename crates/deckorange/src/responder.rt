// Where the requests are answered.
ghost use Rattle.std.specs.Prelude.{◌≡◌, ◌≤◌, [], length, drop, IfOk, vec_len, OnOk};
ghost use Rattle.answer.specs.declared.TheConstants.{LENT};
ghost use Rattle.deckorange.specs.Tail.{Tail};

use crate::fault::{Fault, written};
use answer::{LENT, answer};
use input::{Filled, Window};
use request::answers::{Answer, Refusal};
use request::reading::{Extent, extent_of};
use std::alloc::{AllocError, Global};
use std::io;
use std::io::{BufWriter, ErrorKind, Read, Stdout, Write};

// What is left of what is held, past the complete requests.
#[derive(Clone, Copy, Debug, PartialEq, Eq)]
enum Pause {
    // It is the beginning of a request, which has at least so many bytes.
    Wants(usize),
    // It is no request, and nothing says where the next one starts.
    Wrong,
    // The last one that was answered was no request.
    Refused,
}

// All the memory that answering takes.
#[derive(Drop)]
pub struct Responder {
    window: Window,
    lent: Vec<u64>,
    out: BufWriter<Stdout>,
    ghost enough: { vec_len lent ≡ LENT },
}

impl Responder {
    pub fn new(heap: Global, stdout: Stdout) -> Result<Responder, Fault>
        ensures { IfOk result (λ d. d.window ≡ []) }
    {
        let window = Window::new(heap)?;
        let lent = vec![in heap; 0; LENT]?;
        Ok(Responder {
            window,
            lent,
            out: BufWriter::new(heap, stdout).map_err(|_| Fault::Memory(AllocError))?,
        })
    }

    // Answers all that `reader` gives. `name` is what a fault calls it.
    pub fn answer_all<R: Read>(&mut self, name: String, reader: &mut R) -> Result<(), Fault> {
        // An input need not end and a loop has to: so many rounds, which no input reaches.
        for _ in 0..u64::MAX {
            let least = match self.answer_held()? {
                Pause::Wants(least) => least,
                Pause::Wrong => return self.answer_rest(),
                Pause::Refused => return self.flush(),
            };
            // No line waits while more is read, and none is lost where that fails.
            self.flush()?;
            match self.window.fill(reader, least) {
                Ok(Filled::Enough) => {}
                Ok(Filled::Ended) => return self.answer_rest(),
                Ok(Filled::NoRoom) => return Err(Fault::TooLarge),
                // No `map_err`: its closure would take `name` in each round.
                Err(reason) => return Err(Fault::Input { name, reason }),
            }
        }
        let reason = io::Error::from(ErrorKind::TimedOut);
        Err(Fault::Input { name, reason })
    }

    // Answers each complete request that is held, up to the first that is not.
    fn answer_held(&mut self) -> Result<Pause, Fault>
        ensures { OnOk result (Tail self.old.window self.new.window) }
    {
        loop {
            match extent_of(self.window.held()) {
                Extent::Complete(n) => {
                    if let Answer::Refused(Refusal::NotARequest, _) = self.answer_next(n)? {
                        return Ok(Pause::Refused);
                    }
                }
                Extent::Incomplete(least) => return Ok(Pause::Wants(least)),
                Extent::Wrong(_) => return Ok(Pause::Wrong),
            }
        }
    }

    // Answers the request in the first `n` bytes that are held, and lets go of them. It is refused as none where its rules are wrong.
    fn answer_next(&mut self, n: usize) -> Result<Answer, Fault>
        requires { n ≤ length self.old.window }
        ensures { OnOk result (self.new.window ≡ drop n self.old.window) }
    {
        let answer = write_answer(
            &self.window.held()[..n],
            self.lent.as_mut_slice(),
            &mut self.out,
        )?;
        self.window.skip(n);
        Ok(answer)
    }

    // Answers all that is held as one request, which it is not: it is cut off or wrong.
    fn answer_rest(&mut self) -> Result<(), Fault> {
        if !self.window.is_empty() {
            write_answer(self.window.held(), self.lent.as_mut_slice(), &mut self.out)?;
        }
        self.flush()
    }

    fn flush(&mut self) -> Result<(), Fault>
        ensures { self.new.window ≡ self.old.window }
    {
        written(self.out.flush())
    }
}

// Writes the line of the answer to the request that the bytes begin with.
fn write_answer(
    bytes: &[u8],
    lent: &mut [u64],
    out: &mut BufWriter<Stdout>,
) -> Result<Answer, Fault>
    requires { length lent.old ≡ LENT }
{
    let answer = answer(bytes, lent).unwrap();
    written(writeln!(out, "{answer}"))?;
    Ok(answer)
}
