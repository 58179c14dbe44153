// What tests are given: texts, contributions, sets and name classes. These are no tests, and end none: they answer `None` or an error of memory.
ghost use Rattle.std.specs.Prelude.{IsTrue};

use rn_modset::{Contribution, ModuleSet};
use rn_pattern::{NameClass, Node, Patterns, SmallString};
use std::alloc::{AllocError, Global};
use std::rc::RcStr;

/// The digest of the text `abc` (FIPS 180-2, appendix B.1).
pub const DIGEST: &str = "ba7816bf8f01cfea414140de5dae2223b00361a396177a9cb410ff61f20015ad";

/// The bundle of the text `abc`, the module `t` of revision 7.
pub const ONE: &str =
    "rncset 1\nmodule t 7 3 ba7816bf8f01cfea414140de5dae2223b00361a396177a9cb410ff61f20015ad\nabc\nend 1\n";

/// A module that includes another one twice.
pub const MAIN: &str = "include \"lib\" include \"lib\" start = element r { y }";

/// The set of the module `MAIN` and of that which it includes.
pub const TWICE_INCLUDED: &str =
    "@main\ninclude \"lib\" include \"lib\" start = element r { y }\n@lib\ny |= text";

/// A text that so often holds a piece between a front and an end.
pub fn repeated(
    alloc: Global,
    front: &str,
    piece: &str,
    count: usize,
    end: &str,
) -> Result<String, AllocError> {
    let mut text = String::from_str(alloc, front)?;
    for _ in 0..count {
        text.push_str(piece)?;
    }
    text.push_str(end)?;
    Ok(text)
}

/// The rows of a table, which a text parts, each cut at its arrow into what is given and what is wanted. `None` where a row has no
/// arrow, or memory is wanting.
pub fn rows<'a>(
    alloc: Global,
    table: &'a str,
    between: &str,
    arrow: &str,
) -> Option<Vec<(&'a str, &'a str)>> {
    let mut rows = Vec::new(alloc);
    for row in table.split(between) {
        rows.push(row.split_once(arrow)?).ok()?;
    }
    Some(rows)
}

/// A name of a namespace.
pub fn name(alloc: Global, uri: &str, local: &str) -> Result<NameClass, AllocError> {
    let uri = RcStr::from_str(alloc, uri)?;
    Ok(NameClass::Name(uri, SmallString::from_str(alloc, local)?))
}

/// The contribution of a module's text.
pub fn module(
    alloc: Global,
    name: &str,
    revision: u64,
    text: &[u8],
) -> Result<Contribution, AllocError> {
    let name = String::from_str(alloc, name)?;
    let text = Some(Vec::from_slice(alloc, text)?);
    Ok(Contribution {
        name,
        revision,
        text,
    })
}

/// The withdrawal of a module.
fn withdrawal(alloc: Global, name: &str, revision: u64) -> Result<Contribution, AllocError> {
    Ok(Contribution {
        name: String::from_str(alloc, name)?,
        revision,
        text: None,
    })
}

/// The contribution whose first line is `NAME REVISION` or `NAME REVISION withdrawn`, where the revision may be left out for 1;
/// its text stands below. `None` where the revision is no number, or memory is wanting.
pub fn contribution(alloc: Global, written: &str) -> Option<Contribution> {
    let (head, text) = written.split_once('\n').unwrap_or((written, ""));
    let (name, behind) = head.split_once(' ').unwrap_or((head, "1"));
    let (revision, kind) = behind.split_once(' ').unwrap_or((behind, ""));
    let revision = revision.parse::<u64>().ok()?;
    if kind == "withdrawn" {
        withdrawal(alloc, name, revision).ok()
    } else {
        module(alloc, name, revision, text.as_bytes()).ok()
    }
}

/// The set whose contributions stand in the text, each from a line on that begins with `@`. A text that doesn't begin so is the
/// module `a`, and `@` alone is the empty set. `None` where a contribution can't be read or is refused.
pub fn written_set(alloc: Global, text: &str) -> Option<ModuleSet> {
    match text.strip_prefix('@') {
        Some("") => Some(ModuleSet::new(alloc)),
        Some(written) => set_of_several(alloc, written),
        None => set_of_text(alloc, text),
    }
}

/// The set of one module `a` of revision 1.
fn set_of_text(alloc: Global, text: &str) -> Option<ModuleSet> {
    let mut set = ModuleSet::new(alloc);
    let module = module(alloc, "a", 1, text.as_bytes()).ok()?;
    set.add(module).ok()?;
    Some(set)
}

/// The set of contributions, each but the first behind an `@` at the beginning of a line.
fn set_of_several(alloc: Global, written: &str) -> Option<ModuleSet> {
    let mut set = ModuleSet::new(alloc);
    for one in written.split("\n@") {
        let contribution = contribution(alloc, one)?;
        set.add(contribution).ok()?;
    }
    Some(set)
}

/// The line of a contribution that a set holds.
fn held_line(alloc: Global, contribution: &Contribution) -> Result<String, AllocError> {
    let name = contribution.name.as_str();
    let revision = contribution.revision;
    let kind = match contribution.text {
        Some(_) => "",
        None => " withdrawn",
    };
    format!(in alloc; "{name} {revision}{kind}\n")
}

/// The contributions that a set holds, a line each.
pub fn held(alloc: Global, set: &ModuleSet) -> Result<String, AllocError> {
    let mut lines = String::new(alloc);
    for contribution in set.iter() {
        lines.push_str(held_line(alloc, contribution)?.as_str())?;
    }
    Ok(lines)
}

/// How many bytes the request that is the first mark asks for, as nothing else does: the requests after it are those that are
/// refused.
pub const BEGIN: usize = 7_654_321;

/// How many bytes the request that is the second mark asks for: the requests after it are granted again.
pub const END: usize = 7_654_322;

/// What a test prints of a call between the marks: whether it was refused.
pub fn answer_word(is_refused: bool) -> &'static str {
    if is_refused { "refused" } else { "answered" }
}

/// Makes a mark.
pub fn mark(alloc: Global, bytes: usize) {
    let room: Result<Vec<u8>, AllocError> = Vec::with_capacity(alloc, bytes);
    drop(room);
}

/// Whether the pattern of an id is this reference.
pub fn is_reference<P: Patterns>(store: &P, id: P::Id, wanted: &str) -> bool
    requires { IsTrue (P.knows store.now id) }
{
    match store.node(id) {
        Node::Ref(name) => name.as_str() == wanted,
        _ => false,
    }
}
