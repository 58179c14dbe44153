//! `rnc-merge`: modules of the RELAX NG compact syntax in, one flat schema or one named refusal
//! out.
#![tactic(auto)]

mod inputs;
mod jobs;

use crate::inputs::System;
use crate::jobs::perform;
use rn_merge::{Output, ProgramFault, fault_line, plan, status, write_output};
use std::alloc::{AllocError, Global};
use std::env;
use std::io::ErrorKind;
use std::process::ExitCode;

fn main(rt: HostRuntime) -> ExitCode {
    match run(&rt) {
        Ok(()) => ExitCode::SUCCESS,
        Err(fault) => report(&rt, &fault),
    }
}

/// Does what the arguments ask for.
fn run(rt: &HostRuntime) -> Result<(), ProgramFault> {
    let words = words(rt)?;
    let job = plan(rt.alloc(), words.as_slice())?;
    perform(
        rt.alloc(),
        &System { rt },
        job,
        &mut Output::new(rt.stdout()),
    )
}

/// The arguments after the program's name.
fn words(rt: &HostRuntime) -> Result<Vec<String>, ProgramFault> {
    match env::args(rt) {
        Ok(given) => {
            let mut words = Vec::with_capacity(rt.alloc(), given.len())?;
            words.extend(given.skip(1))?;
            Ok(words)
        }
        Err(error) if error.kind() == ErrorKind::OutOfMemory => Err(ProgramFault::Memory),
        Err(_) => Err(ProgramFault::Usage),
    }
}

/// Writes the line of a fault, and answers its status. Where the line can't be built it is
/// `Memory`.
fn report(rt: &HostRuntime, fault: &ProgramFault) -> ExitCode {
    let mut errors = Output::new(rt.stderr());
    match line(rt.alloc(), fault) {
        Ok(line) => {
            let _ = write_output(&mut errors, line.as_bytes());
            ExitCode::from(status(fault))
        }
        Err(_) => {
            let _ = write_output(&mut errors, b"Memory\n");
            ExitCode::from(status(&ProgramFault::Memory))
        }
    }
}

/// The line of a fault with its line end.
fn line(alloc: Global, fault: &ProgramFault) -> Result<String, AllocError> {
    let mut line = fault_line(alloc, fault)?;
    line.push_str("\n")?;
    Ok(line)
}
