// What the words of a call ask for.

use crate::asked_tasks::asked_task;
use crate::flat_fault::FlatFault;
use clap::error::ErrorKind;
use clap::{Arg, ArgAction, ArgMatches, Command};
use rn_files::{Map, STANDARD_INPUT};
use rn_merge::copies;
use std::alloc::{AllocError, Global};

/// The word for standard output: that for standard input.
pub(crate) const STANDARD_OUTPUT: &str = STANDARD_INPUT;

/// The version that is answered. A program that is built without a proof says so behind it.
const VERSION: &str = "1.0";

/// What is said above the options.
const ABOUT: &str =
    "Reads RELAX NG schemas, in the compact or the XML syntax, with all files that they\ninclude or refer to, and prints one flat schema in one canonical spelling.";

/// What is said below the options.
const AFTER: &str =
    "A FILE of - is standard input. Status: 0 done; 1 the schema is refused, or differs from\nthe file of --check; 2 these words can't be understood; 3 a file, the output or memory.";

/// When messages may be in colours.
static COLOURS: [&str; 3] = ["auto", "always", "never"];

/// How messages may be written.
static FORMATS: [&str; 2] = ["text", "json"];

/// How a schema is spelled.
#[derive(Clone, Copy, Debug, PartialEq, Eq)]
pub enum Syntax {
    /// In the compact syntax.
    Compact,
    /// In the XML syntax.
    Xml,
}

/// What is made of the files.
#[derive(Clone, Copy, Debug, PartialEq, Eq)]
pub enum Product {
    /// The flat schema, in one of its syntaxes.
    Schema(Syntax),
    /// The bundle of the modules, which rnc-merge reads.
    Bundle,
    /// A line for each module, with its file.
    List,
    /// The files and what they include or place by `external`, as a Graphviz text; nothing is lifted.
    Graph,
    /// A line for each definition that the start doesn't reach.
    Unused,
    /// A line for each definition that the schema is made of, with the name that it has there.
    Origins,
}

/// What is done with the files.
#[derive(Debug, Drop, PartialEq, Eq)]
pub enum Task {
    /// A product is written to standard output, or to a file: whole, or not at all.
    Write {
        /// What is written.
        product: Product,
        /// The path of the file; `None` for standard output.
        output: Option<String>,
    },
    /// The schema is compared with a file, and nothing is written.
    Check {
        /// The path of the file.
        file: String,
        /// The syntax of the schema that the file is to hold.
        syntax: Syntax,
    },
    /// Faults are looked for in files that may be parts of a schema, and nothing is written.
    Lint,
}

/// When messages are shown in colours.
#[derive(Clone, Copy, Debug, PartialEq, Eq)]
pub enum ColourChoice {
    /// On a terminal that has colours.
    Auto,
    /// Always.
    Always,
    /// Never.
    Never,
}

/// What the program is to do.
#[derive(Debug, Drop)]
pub struct Job {
    /// The files that are asked for, by their paths; `-` is standard input, which is read once at most.
    pub files: Vec<String>,
    /// The root folder, if one is given.
    pub root: Option<String>,
    /// Where URIs lie, by words.
    pub maps: Vec<Map>,
    /// The catalogs that say where other URIs lie, by their paths.
    pub catalogs: Vec<String>,
    /// The path of the file that standard input is read in place of, if one is given.
    pub input: Option<String>,
    /// What is done with the files.
    pub task: Task,
    /// Whether messages are objects of JSON.
    pub is_json: bool,
    /// When messages are shown in colours.
    pub colour: ColourChoice,
}

/// What the words are.
#[derive(Debug, Drop)]
pub enum Words {
    /// Files are asked for.
    Job(Job),
    /// A text is asked for: the help, or the version.
    Shown(String),
}

/// What the words behind the program's name ask for. No file is read. `Usage` where an option is unknown, lacks its
/// value, is given twice or contradicts another, where no file is named or one has no name, where a map is not
/// `PREFIX=FOLDER`, where standard input would be read twice, where it is named and not read, or where a file for the
/// compact syntax ends in `.rng`.
pub fn read_words(alloc: Global, words: &[String]) -> Result<Words, FlatFault> {
    match program(alloc)?.try_get_matches_from(words) {
        Ok(matches) => asked_words(alloc, &matches),
        Err(error) => match error.kind() {
            ErrorKind::OutOfMemory => Err(FlatFault::Memory),
            ErrorKind::DisplayHelp | ErrorKind::DisplayVersion => Ok(Words::Shown(format!(in alloc;
                "{error}"
            )?)),
            _ => Err(FlatFault::Usage(format!(in alloc; "{error}")?)),
        },
    }
}

/// The options and their words.
fn program<'a>(alloc: Global) -> Result<Command<'a>, AllocError> {
    let program = Command::new(alloc, "rnc-flat")
        .no_binary_name(true)
        .version(VERSION)
        .about(ABOUT)
        .after_help(AFTER)
        .arg(files(alloc))?
        .arg(valued_option(
            alloc,
            "output",
            "FILE",
            "Write to FILE, whole or not at all",
        )
        .short('o'))?
        .arg(valued_option(
            alloc,
            "check",
            "FILE",
            "Write nothing, and say whether FILE is the schema",
        ))?
        .arg(flag(
            alloc,
            "bundle",
            "Write the modules as a bundle for rnc-merge",
        ))?
        .arg(flag(alloc, "list", "Write each module with its file"))?;
    let program = program
        .arg(flag(alloc, "rng", "Write the schema in the XML syntax"))?
        .arg(flag(
            alloc,
            "graph",
            "Write what includes what, as a Graphviz text",
        ))?
        .arg(map_option(alloc))?
        .arg(catalog_option(alloc))?
        .arg(valued_option(
            alloc,
            "root",
            "FOLDER",
            "Name the modules by their paths below FOLDER",
        ))?;
    checking_options(alloc, program)
}

/// The program with the options that look into schemas.
fn checking_options<'a>(alloc: Global, program: Command<'a>) -> Result<Command<'a>, AllocError> {
    let program = program
        .arg(flag(
            alloc,
            "unused",
            "Write where the definitions are that the start doesn't reach",
        ))?
        .arg(flag(
            alloc,
            "origins",
            "Write where the definitions of each name of the schema are",
        ))?
        .arg(flag(
            alloc,
            "lint",
            "Write nothing, and tell all faults of files that may be parts of a schema",
        ))?
        .arg(valued_option(
            alloc,
            "stdin-name",
            "NAME",
            "Read standard input in place of the file NAME",
        ))?;
    with_message_options(alloc, program)
}

/// The program with the options that say how messages are written.
fn with_message_options<'a>(
    alloc: Global,
    program: Command<'a>,
) -> Result<Command<'a>, AllocError> {
    program
        .arg(chosen_option(
            alloc,
            "color",
            COLOURS.as_slice(),
            "When messages are in colours",
        ))?
        .arg(chosen_option(
            alloc,
            "format",
            FORMATS.as_slice(),
            "How messages are written",
        ))
}

/// The files, one or more.
fn files<'a>(alloc: Global) -> Arg<'a> {
    Arg::new(alloc, "FILE")
        .required(true)
        .num_args(1..)
        .action(ArgAction::Append)
        .help("The schemas, whose definitions are combined")
}

/// An option with a value, given once at most.
fn valued_option<'a>(alloc: Global, name: &'a str, value: &'a str, help: &'a str) -> Arg<'a> {
    Arg::new(alloc, name)
        .long(name)
        .value_name(value)
        .action(ArgAction::Set)
        .help(help)
}

/// An option with one of these values, given once at most.
fn chosen_option<'a>(
    alloc: Global,
    name: &'a str,
    values: &'a [&'a str],
    help: &'a str,
) -> Arg<'a> {
    valued_option(alloc, name, "WORD", help).value_parser(values)
}

/// An option without a value.
fn flag<'a>(alloc: Global, name: &'a str, help: &'a str) -> Arg<'a> {
    Arg::new(alloc, name)
        .long(name)
        .action(ArgAction::SetTrue)
        .help(help)
}

/// The option that says where the files of a URI are.
fn map_option<'a>(alloc: Global) -> Arg<'a> {
    Arg::new(alloc, "map")
        .long("map")
        .value_name("PREFIX=FOLDER")
        .action(ArgAction::Append)
        .help("Look in FOLDER for what a URI that begins with PREFIX refers to")
}

/// The option that names a catalog.
fn catalog_option<'a>(alloc: Global) -> Arg<'a> {
    Arg::new(alloc, "catalog")
        .long("catalog")
        .value_name("FILE")
        .action(ArgAction::Append)
        .help("Look in the XML catalog FILE for where a URI leads")
}

/// What the words ask for, which are understood one by one.
fn asked_words(alloc: Global, words: &ArgMatches<'_>) -> Result<Words, FlatFault> {
    let files = copies(alloc, words.get_strs("FILE").unwrap_or(&[]))?;
    let maps = maps(alloc, words.get_strs("map").unwrap_or(&[]))?;
    let catalogs = copies(alloc, words.get_strs("catalog").unwrap_or(&[]))?;
    let task = asked_task(alloc, words)?;
    let root = copy(alloc, words.get_str("root"))?;
    let input = asked_input(alloc, words, files.as_slice())?;
    if files.iter().any(|file| file.is_empty()) {
        return usage(alloc, "a FILE needs a name");
    }
    if is_named_twice(files.as_slice(), &task) {
        return usage(alloc, "standard input can't be read twice");
    }
    Ok(Words::Job(Job {
        files,
        root,
        maps,
        catalogs,
        input,
        task,
        is_json: words.get_str("format") == Some("json"),
        colour: colour_choice(words),
    }))
}

/// The path that is given for standard input, which is read then.
fn asked_input(
    alloc: Global,
    words: &ArgMatches<'_>,
    files: &[String],
) -> Result<Option<String>, FlatFault> {
    let input = words.get_str("stdin-name");
    if input == Some("") {
        return usage(alloc, "--stdin-name needs the name of a file");
    }
    if input.is_some() && !files.iter().any(|file| file.as_str() == STANDARD_INPUT) {
        return usage(alloc, "--stdin-name needs - among the files");
    }
    Ok(copy(alloc, input)?)
}

/// Whether standard input is to be read more than once.
fn is_named_twice(files: &[String], task: &Task) -> bool {
    let named = files
        .iter()
        .filter(|file| file.as_str() == STANDARD_INPUT)
        .count();
    match task {
        Task::Check { file, .. } if file.as_str() == STANDARD_INPUT => named > 0,
        _ => named > 1,
    }
}

/// When messages are shown in colours.
fn colour_choice(words: &ArgMatches<'_>) -> ColourChoice {
    match words.get_str("color") {
        Some("always") => ColourChoice::Always,
        Some("never") => ColourChoice::Never,
        _ => ColourChoice::Auto,
    }
}

/// The maps of these words. A word ends its prefix at the last `=`, so that a prefix may have one.
fn maps(alloc: Global, words: &[&str]) -> Result<Vec<Map>, FlatFault> {
    let mut maps = Vec::new(alloc);
    for word in words {
        match word.rsplit_once('=') {
            Some((prefix, folder)) if !prefix.is_empty() && !folder.is_empty() => {
                let map = Map::below(alloc, prefix, folder)?;
                maps.push(map)?;
            }
            _ => return usage(alloc, "the value of --map must be PREFIX=FOLDER"),
        }
    }
    Ok(maps)
}

/// A copy of a word that is given.
pub(crate) fn copy(alloc: Global, word: Option<&str>) -> Result<Option<String>, AllocError> {
    match word {
        Some(word) => Ok(Some(String::from_str(alloc, word)?)),
        None => Ok(None),
    }
}

/// Two options can't be given together.
pub(crate) fn contradiction<T>(alloc: Global, one: &str, other: &str) -> Result<T, FlatFault> {
    usage(
        alloc,
        format!(in alloc; "--{one} can't be given with --{other}")?.as_str(),
    )
}

/// What is wrong with the words, and where to look.
pub(crate) fn usage<T>(alloc: Global, wrong: &str) -> Result<T, FlatFault> {
    Err(FlatFault::Usage(format!(in alloc;
        "error: {wrong}\n\nFor more information, try '--help'.\n"
    )?))
}
