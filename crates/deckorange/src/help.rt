// What `--help` prints.
use crate::fault::{Fault, written};
use input::BUFFER;

// It fits on a screen of 80 by 24.
pub fn print_help(rt: &HostRuntime) -> Result<(), Fault> {
    written(print!(rt;
        "\
usage: deckorange [FILE]
       deckorange --help

Answers the requests in FILE, or those on standard input if there is no FILE:
a line of numbers for each request, in their order.

  0 6 0   a request, of a kind that is not offered yet
  0 1 P   no request: the byte at P, counted from 0 at the request's start, is
          the first with which the bytes begin none, or they end at P

Nothing behind a line that begins 0 1 is answered.

A request is answered from a buffer of {BUFFER} bytes. A larger request
ends the run.

The exit status is 0 if all was answered, also if an answer is a refusal. It
is 1 if the arguments are wrong, FILE cannot be opened or read, the answers
cannot be written, a request is larger than the buffer, or there is too little
memory. A line on standard error then says which.
"
    ))
}
