// The lines and statuses of the program. No line has a line end.
ghost use Rattle.std.specs.Prelude.{◌≡◌, ◌++◌, ◌∷◌, IfOk, OnOk, string_bytes};
ghost use Rattle.rn_modset.specs.Contributions.{member};
ghost use Rattle.rn_merge.specs.Lines.{identifier, key_field, refusal_name, refusal_fields, refusal_line, list_line, add_line, bundle_line, place_line, fault_line, status};
ghost use Rattle.rn_merge.specs.inside.Fields.{spaced_fields};

use crate::text_faults::Place;
use crate::words::ProgramFault;
use rn_assemble::{Key, Refusal};
use rn_modset::{AddFault, BundleFault, Contribution, hex_digest};
use rn_text::{is_keyword, write_literal};
use std::alloc::{AllocError, Global};

/// The line of a refusal, without its line feed: its name and its fields, each after one space. A
/// key is `start` or a definition's name, with a backslash if it is a keyword; the name that an
/// include wants is a literal, and holds XML characters alone.
pub fn refusal_line(alloc: Global, refusal: &Refusal) -> Result<String, AllocError>
    ensures { IfOk result (λ line. string_bytes line ≡ refusal_line refusal.now) }
{
    let mut line = String::from_str(alloc, refusal_name(refusal))?;
    push_fields(&mut line, refusal)?;
    Ok(line)
}

/// The name of a refusal.
fn refusal_name(refusal: &Refusal) -> &'static str
    ensures { result.now ≡ refusal_name refusal.now }
{
    match refusal {
        Refusal::Conflict { .. } => "Conflict",
        Refusal::Encoding { .. } => "Encoding",
        Refusal::Lexical { .. } => "Lexical",
        Refusal::Deep { .. } => "Deep",
        Refusal::Syntax { .. } => "Syntax",
        Refusal::Prefix { .. } => "Prefix",
        Refusal::Builtin { .. } => "Builtin",
        Refusal::ContextValue { .. } => "ContextValue",
        Refusal::Except { .. } => "Except",
        Refusal::Missing { .. } => "Missing",
        Refusal::Cycle { .. } => "Cycle",
        Refusal::Instances => "Instances",
        Refusal::Override { .. } => "Override",
        Refusal::PlainTwice { .. } => "PlainTwice",
        Refusal::MixedMethods { .. } => "MixedMethods",
        Refusal::NoStart => "NoStart",
        Refusal::Undefined { .. } => "Undefined",
        Refusal::Recursive { .. } => "Recursive",
        Refusal::NameClass { .. } => "NameClass",
        Refusal::OutputTooLarge => "OutputTooLarge",
        Refusal::OutputTooDeep => "OutputTooDeep",
        Refusal::Memory => "Memory",
    }
}

/// Appends the fields of a refusal, each after one space.
fn push_fields(line: &mut String, refusal: &Refusal) -> Result<(), AllocError>
    ensures { OnOk result
        (string_bytes line.new ≡ string_bytes line.old
        ++ spaced_fields (refusal_fields refusal.now)) }
{
    match refusal {
        Refusal::Conflict { module, revision } => {
            push_word(line, module.as_str())?;
            write!(line, " {revision}")
        }
        Refusal::Encoding { module }
        | Refusal::Lexical { module }
        | Refusal::Deep { module }
        | Refusal::Syntax { module }
        | Refusal::Prefix { module }
        | Refusal::Builtin { module }
        | Refusal::ContextValue { module }
        | Refusal::Except { module }
        | Refusal::Cycle { module } => push_word(line, module.as_str()),
        Refusal::Missing { module, wanted } => {
            push_word(line, module.as_str())?;
            line.push_str(" ")?;
            write_literal(line, wanted.as_str())
        }
        Refusal::Override { module, key } => {
            push_word(line, module.as_str())?;
            push_key(line, key)
        }
        Refusal::PlainTwice { key } | Refusal::MixedMethods { key } | Refusal::NameClass { key } =>
            push_key(line, key),
        Refusal::Undefined { name } | Refusal::Recursive { name } => push_identifier(
            line,
            name.as_str(),
        ),
        Refusal::Instances
        | Refusal::NoStart
        | Refusal::OutputTooLarge
        | Refusal::OutputTooDeep
        | Refusal::Memory => Ok(()),
    }
}

fn push_word(line: &mut String, word: &str) -> Result<(), AllocError>
    ensures { OnOk result (string_bytes line.new ≡ string_bytes line.old ++ 32 ∷ word.now) }
{
    line.push_str(" ")?;
    line.push_str(word)
}

fn push_key(line: &mut String, key: &Key) -> Result<(), AllocError>
    ensures { OnOk result (string_bytes line.new
        ≡ string_bytes line.old ++ 32 ∷ key_field key.now) }
{
    match key {
        Key::Start => push_word(line, "start"),
        Key::Define(name) => push_identifier(line, name.as_str()),
    }
}

/// A definition's name (RELAX NG Compact Syntax, appendix A, identifier).
fn push_identifier(line: &mut String, name: &str) -> Result<(), AllocError>
    ensures { OnOk result
        (string_bytes line.new ≡ string_bytes line.old ++ 32 ∷ identifier name.now) }
{
    if is_keyword(name) {
        line.push_str(" \\")?;
        line.push_str(name)
    } else {
        push_word(line, name)
    }
}

/// The line of `list` for a contribution, without its line feed: name, revision, and the text's
/// length in bytes with its digest, or that it is withdrawn.
pub fn list_line(alloc: Global, contribution: &Contribution) -> Result<String, AllocError>
    ensures { IfOk result (λ line. string_bytes line ≡ list_line (member contribution.now)) }
{
    let name = contribution.name.as_str();
    let revision = contribution.revision;
    match &contribution.text {
        Some(text) => {
            let len = text.len();
            let digest = hex_digest(alloc, text.as_slice())?;
            format!(in alloc; "{name} {revision} {len} {digest}")
        }
        None => format!(in alloc; "{name} {revision} withdrawn"),
    }
}

/// The line of a fault on standard error, without its line feed. Out of memory inside any fault is
/// the line `Memory`.
pub fn fault_line(alloc: Global, fault: &ProgramFault) -> Result<String, AllocError>
    ensures { IfOk result (λ line. string_bytes line ≡ fault_line fault.now) }
{
    match fault {
        ProgramFault::Usage => String::from_str(alloc, "usage"),
        ProgramFault::Rev => String::from_str(alloc, "usage: REV"),
        ProgramFault::Dash => String::from_str(alloc, "usage: -"),
        ProgramFault::Read(file) => format!(in alloc; "read {file}"),
        ProgramFault::Large(file) => format!(in alloc; "large {file}"),
        ProgramFault::Write => String::from_str(alloc, "write"),
        ProgramFault::Memory => String::from_str(alloc, "Memory"),
        ProgramFault::Bundle(file, fault) => bundle_line(alloc, *file, fault),
        ProgramFault::Add(fault) => String::from_str(alloc, add_fault_name(fault)),
        ProgramFault::Refused(refusal) => refusal_line(alloc, refusal),
        ProgramFault::Check(place) => place_line(alloc, place),
    }
}

fn bundle_line(alloc: Global, file: usize, fault: &BundleFault) -> Result<String, AllocError>
    ensures { IfOk result (λ line. string_bytes line ≡ bundle_line file fault.now) }
{
    match fault {
        BundleFault::Magic => format!(in alloc; "bundle {file} Magic"),
        BundleFault::Header { entry } => format!(in alloc; "bundle {file} Header {entry}"),
        BundleFault::Order { entry } => format!(in alloc; "bundle {file} Order {entry}"),
        BundleFault::Digest { entry } => format!(in alloc; "bundle {file} Digest {entry}"),
        BundleFault::Truncated => format!(in alloc; "bundle {file} Truncated"),
        BundleFault::Trailing => format!(in alloc; "bundle {file} Trailing"),
        BundleFault::Memory => String::from_str(alloc, "Memory"),
    }
}

fn add_fault_name(fault: &AddFault) -> &'static str
    ensures { result.now ≡ add_line fault.now }
{
    match fault {
        AddFault::BadName => "BadName",
        AddFault::TooLong => "TooLong",
        AddFault::Full => "Full",
        AddFault::Memory => "Memory",
    }
}

fn place_line(alloc: Global, place: &Place) -> Result<String, AllocError>
    ensures { IfOk result (λ line. string_bytes line ≡ place_line place.now) }
{
    match place.kind_and_place() {
        Some((kind, at)) => {
            let name = kind.name();
            format!(in alloc; "{name} {at}")
        }
        None => String::from_str(alloc, "Memory"),
    }
}

/// The status with which the program ends after a fault: 1 where the input is refused, 2 for its
/// arguments, 3 for files and memory.
pub fn status(fault: &ProgramFault) -> u8
    ensures { result ≡ status fault.now }
{
    match fault {
        ProgramFault::Usage | ProgramFault::Rev | ProgramFault::Dash => 2,
        ProgramFault::Read(_)
        | ProgramFault::Large(_)
        | ProgramFault::Write
        | ProgramFault::Memory
        | ProgramFault::Bundle(_, BundleFault::Memory)
        | ProgramFault::Add(AddFault::Memory)
        | ProgramFault::Refused(Refusal::Memory)
        | ProgramFault::Check(Place::Memory) => 3,
        ProgramFault::Bundle(_, _)
        | ProgramFault::Add(_)
        | ProgramFault::Refused(_)
        | ProgramFault::Check(_) => 1,
    }
}
