// What is to be done, by the options of a call.
use crate::flat_fault::FlatFault;
use crate::words::{Product, STANDARD_OUTPUT, Syntax, Task, contradiction, copy, usage};
use clap::ArgMatches;
use std::alloc::Global;

/// What an option asks for that can't be given with another one of its kind.
#[derive(Clone, Copy, PartialEq, Eq)]
enum Wanted {
    Check,
    Lint,
    Product(Product),
}

/// The options of which one at most can be given.
const TASK_OPTIONS: [(&str, Wanted); 7] = [
    ("check", Wanted::Check),
    ("lint", Wanted::Lint),
    ("bundle", Wanted::Product(Product::Bundle)),
    ("list", Wanted::Product(Product::List)),
    ("graph", Wanted::Product(Product::Graph)),
    ("unused", Wanted::Product(Product::Unused)),
    ("origins", Wanted::Product(Product::Origins)),
];

/// What is done. `Usage` where options contradict each other, or a file for the compact syntax ends in `.rng`.
pub fn asked_task(alloc: Global, words: &ArgMatches<'_>) -> Result<Task, FlatFault> {
    let syntax = if words.get_flag("rng") {
        Syntax::Xml
    } else {
        Syntax::Compact
    };
    let mut wanted = TASK_OPTIONS
        .iter()
        .filter(|(name, _)| is_given(words, name));
    let (first, second) = (wanted.next(), wanted.next());
    if let (Some((one, _)), Some((other, _))) = (first, second) {
        return contradiction(alloc, one, other);
    }
    match first {
        Some((name, wanted)) if *wanted != Wanted::Check && syntax == Syntax::Xml => {
            contradiction(alloc, "rng", name)
        }
        Some((name, wanted)) => wanted_task(alloc, words, name, *wanted, syntax),
        None => write_task(alloc, words, Product::Schema(syntax)),
    }
}

/// Whether one of these options is given.
fn is_given(words: &ArgMatches<'_>, name: &str) -> bool {
    if name == "check" {
        words.get_str(name).is_some()
    } else {
        words.get_flag(name)
    }
}

/// What an option of this name asks for.
fn wanted_task(
    alloc: Global,
    words: &ArgMatches<'_>,
    name: &str,
    wanted: Wanted,
    syntax: Syntax,
) -> Result<Task, FlatFault> {
    match wanted {
        Wanted::Product(product) => write_task(alloc, words, product),
        Wanted::Check | Wanted::Lint if words.get_str("output").is_some() => {
            contradiction(alloc, name, "output")
        }
        Wanted::Lint => Ok(Task::Lint),
        Wanted::Check => {
            let file = words.get_str("check").unwrap_or(STANDARD_OUTPUT);
            check_name(alloc, file, syntax)?;
            let file = String::from_str(alloc, file)?;
            Ok(Task::Check { file, syntax })
        }
    }
}

/// A product is written, to a file or to standard output.
fn write_task(alloc: Global, words: &ArgMatches<'_>, product: Product) -> Result<Task, FlatFault> {
    let output = copy(alloc, words.get_str("output"))?;
    if let (Some(file), false) = (&output, product == Product::Schema(Syntax::Xml)) {
        check_name(alloc, file.as_str(), Syntax::Compact)?;
    }
    Ok(Task::Write {
        product,
        output: output.filter(|file| file.as_str() != STANDARD_OUTPUT),
    })
}

/// Refuses the name of a file in the XML syntax for one that is not.
fn check_name(alloc: Global, file: &str, syntax: Syntax) -> Result<(), FlatFault> {
    if syntax == Syntax::Compact && file.ends_with(".rng") {
        return usage(
            alloc,
            "a file that ends in .rng holds the XML syntax, which --rng writes",
        );
    }
    Ok(())
}
