// Answers a file of binary requests, a line of text for each.

#![tactic(auto)]

mod command;
mod fault;
mod help;
mod responder;

use command::Command;
use fault::Fault;
use responder::Responder;
use std::env;
use std::fs::File;
use std::process::ExitCode;

fn main(rt: HostRuntime) -> ExitCode {
    // An `Err` that main returns would be printed once more.
    match run(&rt) {
        Ok(()) => ExitCode::SUCCESS,
        Err(fault) => {
            let _ = eprintln!(rt; "deckorange: {fault}");
            ExitCode::FAILURE
        }
    }
}

fn run(rt: &HostRuntime) -> Result<(), Fault> {
    let heap = rt.alloc();
    let args = env::args(rt).map_err(Fault::Arguments)?;
    match command::parse(args)? {
        Command::Help => help::print_help(rt),
        Command::AnswerInput => {
            let name = String::from_str(heap, "standard input")?;
            Responder::new(heap, rt.stdout())?.answer_all(name, &mut rt.stdin())
        }
        Command::AnswerFile(name) => match File::open(rt, name.as_str()) {
            Ok(mut file) => Responder::new(heap, rt.stdout())?.answer_all(name, &mut file),
            // No `map_err`: its closure would take `name`, which the other arm takes.
            Err(reason) => Err(Fault::Input { name, reason }),
        },
    }
}
