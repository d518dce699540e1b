//! The program: it carries out the words of its command line over standard input and output, and ends with the status.
//!
//! All that it does is `run` of `qc_drill`. What is made here is what `run` is lent: a site in memory or in a folder,
//! and the two streams (docs/RULES.md, "The program"). `program` says by which causes it ends, over any sites and
//! streams. Nothing is written to standard error.
#![tactic(auto)]

ghost use Rattle.std.specs.Prelude.{◌≡◌, ◌⊎◌, OnErr, Err};

mod program;
mod real;
mod sites;
#[cfg(test)]
mod tests;

use crate::program::{carry_out, exit_code};
use crate::real::Real;
use qc_protocol::Status;
use qc_realsite::{RealSink, RealSource};
use std::env;
use std::io::ErrorKind;
use std::process::ExitCode;

// The words of the command line behind the program's name. A word that is no text is no command.
fn words_of<R: env::Env + AllocGlobal>(rt: &R) -> Result<Vec<String>, Status>
    ensures refused { OnErr result ((result ≡ Err Status.BadWords) ⊎ (result ≡ Err Status.NoMemory)) }
{
    match env::args(rt) {
        Ok(args) => args
            .skip(1)
            .collect(rt.alloc())
            .map_err(|_| Status::NoMemory),
        Err(error) => match error.kind() {
            ErrorKind::OutOfMemory => Err(Status::NoMemory),
            _ => Err(Status::BadWords),
        },
    }
}

fn main(rt: HostRuntime) -> ExitCode {
    let words = match words_of(&rt) {
        Ok(words) => words,
        Err(status) => return exit_code(status),
    };
    let mut source = RealSource::over(rt.stdin());
    let mut sink = RealSink::over(rt.stdout());
    carry_out(
        rt.alloc(),
        words,
        &mut Real::over(&rt),
        &mut source,
        &mut sink,
    )
}
