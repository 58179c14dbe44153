// What the arguments of the program ask for.
ghost use Rattle.std.specs.Prelude.{◌≡◌, List, IfOk, map, string_bytes};
ghost use Rattle.rn_merge.specs.Words.{AreFiles, NamesFiles};

use crate::run::RunFault;
use crate::text_faults::Place;
use clap::error::ErrorKind;
use clap::{Arg, ArgAction, ArgMatches, Command};
use rn_assemble::Refusal;
use rn_modset::{AddFault, BundleFault, parse_decimal};
use std::alloc::{AllocError, AllocFailed, Global};
use thiserror::Error;

/// The argument for standard input.
pub const STANDARD_INPUT: &str = "-";

/// One file or more, the last argument of a command.
const FILES: &str = "FILE..";

/// The commands, each with its arguments in order.
const COMMANDS: [(&str, &[&str]); 6] = [
    ("pack", &["NAME", "REV", "FILE"]),
    ("withdraw", &["NAME", "REV"]),
    ("join", &[FILES]),
    ("list", &[FILES]),
    ("print", &[FILES]),
    ("check", &["FILE"]),
];

/// What the program is to do. A file is a path, or `-` for standard input.
#[derive(Debug, Drop, PartialEq, Eq)]
pub enum Job {
    /// Write the bundle of one module text.
    Pack {
        /// The module's name, of which nothing is tested yet.
        name: String,
        /// The revision in which the module has this text.
        revision: u64,
        /// The file with the text.
        file: String,
    },
    /// Write the bundle of one withdrawal.
    Withdraw {
        /// The module's name, of which nothing is tested yet.
        name: String,
        /// The revision that withdraws the module.
        revision: u64,
    },
    /// Write the bundle of the union of bundles.
    Join {
        /// The files with the bundles, one or more.
        files: Vec<String>,
    },
    /// Write a line for each contribution of the union of bundles.
    List {
        /// The files with the bundles, one or more.
        files: Vec<String>,
    },
    /// Write the schema of the union of bundles.
    Print {
        /// The files with the bundles, one or more; standard input alone where there are no arguments.
        files: Vec<String>,
    },
    /// Test one module text.
    Check {
        /// The file with the text.
        file: String,
    },
}

/// Why the program did not do its work. Files count from 0.
#[derive(Debug, Drop, PartialEq, Eq, Error)]
pub enum ProgramFault {
    /// The arguments have the form of no command.
    #[error("usage")]
    Usage,
    /// The argument for the revision is no decimal number below 2^64 without sign and leading zeros.
    #[error("usage: REV")]
    Rev,
    /// `-` is given more than once.
    #[error("usage: -")]
    Dash,
    /// The file of this number can't be read.
    #[error("read {0}")]
    Read(usize),
    /// The file of this number has more bytes than an input may have (`MAX_INPUT`).
    #[error("large {0}")]
    Large(usize),
    /// The output can't be written.
    #[error("write")]
    Write,
    /// A request for memory was refused.
    #[error("out of memory")]
    Memory,
    /// The file of this number is no bundle.
    #[error("bundle {0}: {1}")]
    Bundle(usize, BundleFault),
    /// A contribution, or a union, is past its limits.
    #[error("{0}")]
    Add(AddFault),
    /// The set has no schema.
    #[error("{0}")]
    Refused(Refusal),
    /// The text that was checked has a fault.
    #[error("{0}")]
    Check(Place),
}

impl From<AllocError> for ProgramFault {
    ghost use Rattle.std.specs.Prelude.{◌≡◌};
    ghost use Rattle.rn_merge.specs.declared.words.ProgramFault.TheVariants.{Memory};

    ghost from_gives = { λ _ fault. fault ≡ Memory };

    fn from(_: AllocError) -> Self {
        ProgramFault::Memory
    }
}

impl<T: Drop> From<AllocFailed<T>> for ProgramFault {
    ghost use Rattle.std.specs.Prelude.{◌≡◌};
    ghost use Rattle.rn_merge.specs.declared.words.ProgramFault.TheVariants.{Memory};

    ghost from_gives = { λ _ fault. fault ≡ Memory };

    fn from(_: AllocFailed<T>) -> Self {
        ProgramFault::Memory
    }
}

impl From<clap::Error> for ProgramFault {
    ghost use Rattle.std.specs.Prelude.{◌≡◌};
    ghost use Rattle.clap.specs.Words.{kind_of};
    ghost use Rattle.rn_merge.specs.inside.Outcomes.{parse_fault};

    ghost from_gives = { λ error fault. fault ≡ parse_fault (kind_of error) };

    fn from(error: clap::Error) -> Self {
        match error.kind() {
            ErrorKind::OutOfMemory => ProgramFault::Memory,
            _ => ProgramFault::Usage,
        }
    }
}

impl From<RunFault> for ProgramFault {
    ghost use Rattle.std.specs.Prelude.{◌≡◌};
    ghost use Rattle.rn_merge.specs.ProgramFaults.{run_fault};

    ghost from_gives = { λ fault r. r ≡ run_fault fault };

    fn from(fault: RunFault) -> Self {
        match fault {
            RunFault::Bundle { index, fault } => ProgramFault::Bundle(index, fault),
            RunFault::Full => ProgramFault::Add(AddFault::Full),
            RunFault::Memory => ProgramFault::Memory,
            RunFault::Write => ProgramFault::Write,
        }
    }
}

/// What the arguments after the program's name ask for; none ask for the schema of standard input.
/// No file is read. `Usage` where the arguments have the form of no command, then `Rev` where a
/// revision is not a decimal number of 64 bits without sign and leading zeros, then `Dash` where
/// standard input is named twice.
pub fn plan(alloc: Global, words: &[String]) -> Result<Job, ProgramFault>
    ensures { IfOk result NamesFiles }
{
    if words.is_empty() {
        let files = copies(alloc, [STANDARD_INPUT].as_slice())?;
        return Ok(Job::Print { files });
    }
    if !is_command(words[0].as_str()) {
        return Err(ProgramFault::Usage);
    }
    let matches = program(alloc)?.try_get_matches_from(words)?;
    match matches.subcommand() {
        Some((command, words)) => command_job(alloc, command, words),
        None => Err(ProgramFault::Usage),
    }
}

/// Whether there is a command of this name. For any other name clap would look for one that is like
/// it, and may answer the same where memory for that is refused.
fn is_command(word: &str) -> bool {
    COMMANDS.iter().any(|command| command.0 == word)
}

/// The commands and their arguments.
fn program<'a>(alloc: Global) -> Result<Command<'a>, AllocError> {
    let mut program = Command::new(alloc, "rnc-merge")
        .no_binary_name(true)
        .subcommand_required(true);
    for (name, words) in COMMANDS {
        program = program.subcommand(command(alloc, name, words)?)?;
    }
    Ok(program)
}

/// A command with these arguments.
fn command<'a>(alloc: Global, name: &'a str, words: &[&'a str]) -> Result<Command<'a>, AllocError> {
    let mut command = Command::new(alloc, name);
    for word in words {
        command = command.arg(argument(alloc, word))?;
    }
    Ok(command)
}

/// The argument of a command that is called `word`; `FILE..` takes one or more.
fn argument<'a>(alloc: Global, word: &'a str) -> Arg<'a> {
    let argument = Arg::new(alloc, word).required(true);
    if word == FILES {
        argument.num_args(1..).action(ArgAction::Append)
    } else {
        argument.action(ArgAction::Set)
    }
}

/// What a command asks for with its arguments.
fn command_job(alloc: Global, command: &str, words: &ArgMatches<'_>) -> Result<Job, ProgramFault>
    ensures { IfOk result NamesFiles }
{
    match command {
        "pack" => Ok(Job::Pack {
            name: word(alloc, words, "NAME")?,
            revision: revision(words)?,
            file: word(alloc, words, "FILE")?,
        }),
        "withdraw" => Ok(Job::Withdraw {
            name: word(alloc, words, "NAME")?,
            revision: revision(words)?,
        }),
        "join" => Ok(Job::Join {
            files: files(alloc, words)?,
        }),
        "list" => Ok(Job::List {
            files: files(alloc, words)?,
        }),
        "print" => Ok(Job::Print {
            files: files(alloc, words)?,
        }),
        "check" => Ok(Job::Check {
            file: word(alloc, words, "FILE")?,
        }),
        _ => Err(ProgramFault::Usage),
    }
}

/// The argument of this name.
fn word(alloc: Global, words: &ArgMatches<'_>, place: &str) -> Result<String, ProgramFault> {
    match words.get_str(place) {
        Some(word) => Ok(String::from_str(alloc, word)?),
        None => Err(ProgramFault::Usage),
    }
}

/// The argument `REV` as a number: its decimal digits without sign and leading zeros, below 2^64.
fn revision(words: &ArgMatches<'_>) -> Result<u64, ProgramFault> {
    match words.get_str("REV") {
        Some(word) => parse_decimal(word.as_bytes()).ok_or(ProgramFault::Rev),
        None => Err(ProgramFault::Usage),
    }
}

/// The arguments `FILE..`, of which one at most is standard input.
fn files(alloc: Global, words: &ArgMatches<'_>) -> Result<Vec<String>, ProgramFault>
    ensures { IfOk result (λ files. AreFiles (map string_bytes files.items)) }
{
    let Some(files) = words.get_strs(FILES) else {
        return Err(ProgramFault::Usage);
    };
    if files.is_empty() {
        return Err(ProgramFault::Usage);
    }
    if files.iter().filter(|file| **file == STANDARD_INPUT).count() > 1 {
        return Err(ProgramFault::Dash);
    }
    Ok(copies(alloc, files)?)
}

/// Copies of the arguments.
pub fn copies(alloc: Global, words: &[&str]) -> Result<Vec<String>, AllocError>
    ensures { IfOk result
        (λ copies. map string_bytes copies.items ≡ map (λ word. word.now) words.now) }
{
    let mut copies = Vec::new(alloc);
    for word in words {
        copies.push(String::from_str(alloc, word)?)?;
    }
    Ok(copies)
}
