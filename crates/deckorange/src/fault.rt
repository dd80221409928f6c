// Why a run ended before its input.
ghost use Rattle.std.specs.Prelude.{◌≡◌, is_ok};

use input::BUFFER;
use std::alloc::AllocError;
use std::io;
use thiserror::Error;

#[derive(Debug, Drop, Error)]
pub enum Fault {
    #[error("the arguments cannot be read: {0}")]
    Arguments(io::Error),
    #[error("more than one argument; see deckorange --help")]
    TooManyArguments,
    #[error("unknown option {0}; see deckorange --help")]
    UnknownOption(String),
    #[error("{name}: {reason}")]
    Input { name: String, reason: io::Error },
    #[error("standard output: {0}")]
    Output(io::Error),
    #[error("a request is larger than the buffer of {size} bytes", size = BUFFER)]
    TooLarge,
    #[error("not enough memory")]
    Memory(#[from] AllocError),
}

// What a write to standard output came to. A function of its own, since its contract says that no failed write counts as written.
pub fn written(res: io::Result<()>) -> Result<(), Fault>
    ensures { is_ok result ≡ is_ok res }
{
    res.map_err(Fault::Output)
}
