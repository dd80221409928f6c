// What the arguments ask for.
ghost use Rattle.deckorange.specs.Commands.{CommandOf};

use crate::fault::Fault;
use std::env::Args;

#[derive(Drop)]
pub enum Command {
    Help,
    AnswerInput,
    AnswerFile(String),
}

// The first of the arguments is the program's own name.
pub fn parse(mut args: Args) -> Result<Command, Fault> {
    let _program = args.next();
    let Some(word) = args.next() else {
        return Ok(Command::AnswerInput);
    };
    if args.next().is_some() {
        return Err(Fault::TooManyArguments);
    }
    command_of(word)
}

fn command_of(word: String) -> Result<Command, Fault>
    ensures { CommandOf word result }
{
    if word.as_str() == "--help" {
        return Ok(Command::Help);
    }
    if word.as_str().starts_with('-') {
        return Err(Fault::UnknownOption(word));
    }
    Ok(Command::AnswerFile(word))
}
