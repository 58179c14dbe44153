//! `rnc-flat`: files of the RELAX NG compact syntax in, one flat schema out.
#![tactic(auto)]

mod standard;
mod system;
mod system_outputs;

use crate::standard::Standard;
use crate::system::System;
use crate::system_outputs::SystemOutputs;
use rn_flat::{
    ColourChoice, Colours, Ending, FlatFault, Format, Job, STANDARD_OUTPUT, Words, WriteFault,
    ending_status, fault_lines, perform, read_words, status, unwritten_fault,
};
use rn_merge::{Output, write_output};
use std::env;
use std::io::{ErrorKind, IsTerminal};
use std::process::ExitCode;

/// The status after a pipe was closed that standard output is: what a shell shows where a signal says so.
const CLOSED: u8 = 141;

/// How messages are written before the words say how.
const PLAIN: Format = Format::Lines(Colours::Plain);

fn main(rt: HostRuntime) -> ExitCode {
    let words = match words(&rt) {
        Ok(words) => words,
        Err(fault) => return report(&rt, &fault, PLAIN),
    };
    match read_words(rt.alloc(), words.as_slice()) {
        Ok(Words::Shown(text)) => show(&rt, text.as_str()),
        Ok(Words::Job(job)) => run(&rt, &job),
        Err(fault) => report(&rt, &fault, PLAIN),
    }
}

/// Does the job.
fn run(rt: &HostRuntime, job: &Job) -> ExitCode {
    let format = format_of(rt, job);
    let mut out = Standard::new(rt);
    let done = perform(
        rt.alloc(),
        &System { rt },
        job,
        format,
        &mut SystemOutputs { rt },
        &mut out,
    );
    match (done, out.reason()) {
        (Ok(ending), _) => end(rt, &ending),
        (Err(_), Some(reason)) => unwritten(rt, reason, format),
        (Err(fault), None) => report(rt, &fault, format),
    }
}

/// How messages are written.
fn format_of(rt: &HostRuntime, job: &Job) -> Format {
    if job.is_json {
        Format::Json
    } else {
        Format::Lines(colours(rt, job.colour))
    }
}

/// The words behind the program's name.
fn words(rt: &HostRuntime) -> Result<Vec<String>, FlatFault> {
    match env::args(rt) {
        Ok(words) => Ok(words.skip(1).collect(rt.alloc())?),
        Err(error) if error.kind() == ErrorKind::OutOfMemory => Err(FlatFault::Memory),
        Err(_) => Err(FlatFault::Usage(String::from_str(
            rt.alloc(),
            "error: a word is not UTF-8\n\nFor more information, try '--help'.\n",
        )?)),
    }
}

/// Writes a text that is asked for.
fn show(rt: &HostRuntime, text: &str) -> ExitCode {
    let mut out = Standard::new(rt);
    match write_output(&mut out, text.as_bytes()) {
        Ok(()) => ExitCode::SUCCESS,
        Err(_) => unwritten(rt, out.reason().unwrap_or(WriteFault::Refused), PLAIN),
    }
}

/// Says that standard output can't be written; where the reader of a pipe has closed it, nothing is said.
fn unwritten(rt: &HostRuntime, reason: WriteFault, format: Format) -> ExitCode {
    if reason == WriteFault::Closed {
        return ExitCode::from(CLOSED);
    }
    let fault = unwritten_fault(rt.alloc(), STANDARD_OUTPUT, Some(reason), format);
    report(rt, &fault, format)
}

/// Whether messages are in colours.
fn colours(rt: &HostRuntime, choice: ColourChoice) -> Colours {
    let are_shown = match choice {
        ColourChoice::Always => true,
        ColourChoice::Never => false,
        ColourChoice::Auto => wants_colours(rt),
    };
    if are_shown {
        Colours::Terminal
    } else {
        Colours::Plain
    }
}

/// Writes what is told at the end, and answers the status.
fn end(rt: &HostRuntime, ending: &Ending) -> ExitCode {
    if let Ending::Found(lines) = ending {
        let _ = write_output(&mut Output::new(rt.stderr()), lines.as_bytes());
    }
    ExitCode::from(ending_status(ending))
}

/// Whether colours are wanted by the environment: NO_COLOR refuses them, CLICOLOR_FORCE asks for them, and else a terminal
/// has them that isn't dumb.
fn wants_colours(rt: &HostRuntime) -> bool {
    if env::var(rt, "NO_COLOR").is_ok_and(|value| !value.is_empty()) {
        return false;
    }
    if env::var(rt, "CLICOLOR_FORCE").is_ok_and(|value| !value.is_empty()
        && value.as_str() != "0")
    {
        return true;
    }
    rt.stderr().is_terminal() && !env::var(rt, "TERM").is_ok_and(|value| value.as_str() == "dumb")
}

/// Writes the lines of a fault, and answers its status.
fn report(rt: &HostRuntime, fault: &FlatFault, format: Format) -> ExitCode {
    let lines = fault_lines(fault, format);
    let _ = write_output(&mut Output::new(rt.stderr()), lines.as_bytes());
    ExitCode::from(status(fault))
}
