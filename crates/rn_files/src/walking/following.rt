// Reading files, and what they refer to.
ghost use Rattle.std.specs.Prelude.{◌≡◌, ◌<◌, ◌≤◌, All, IfOk, IsNone, is_some, string_bytes, vec_len};
ghost use Rattle.rn_modset.specs.Limits.{max_text};
ghost use Rattle.rn_files.specs.inside.Following.{EntriesGrow, IsFollowed, IsReadBy};
ghost use Rattle.rn_outline.specs.Links.{is_link};

use super::links::{found_at, tried_place};
use super::meant_uris::meant_uri;
use super::walk::{Followed, FoundBy, FoundFile, MAX_SOURCES, Walk};
use crate::mapping::locations::locate;
use crate::opening::bounds::{Ways, may_be_read};
use crate::opening::file_texts::{FileText, MAX_TEXT, text_of};
use crate::opening::files::{FileFault, Files, Kinds, STANDARD_INPUT};
use crate::references::escapes::file_uri;
use crate::source_faults::{FaultPlace, LinkFault, Tried};
use crate::sources::XmlSource;
use rn_outline::{FilePart, FilePartKind, Outline};
use std::alloc::{AllocError, Global};

/// The literal of a part that names another file, and the byte where it begins.
pub fn link_of(part: &FilePart) -> Option<(&str, usize)>
    ensures { is_some result ≡ is_link part.now }
{
    match &part.kind {
        FilePartKind::External {
            literal,
            literal_at,
            ..
        } => Some((literal.as_str(), literal_at.from)),
        FilePartKind::Include {
            literal,
            literal_at,
            ..
        } => Some((literal.as_str(), literal_at.from)),
        _ => None,
    }
}

/// The URI of a file or a folder as it was asked for, from the current folder.
pub fn word_uri(alloc: Global, current: &str, word: &str) -> Result<String, AllocError> {
    let mut path = String::new(alloc);
    if !word.starts_with('/') {
        path.push_str(current)?;
        path.push_str("/")?;
    }
    path.push_str(word)?;
    file_uri(alloc, path.as_str())
}

/// The file that is asked for by a word, which may be read.
fn word_file<F: Files>(
    alloc: Global,
    files: &F,
    ways: &Ways<'_>,
    word: &str,
) -> Result<FoundFile, LinkFault> {
    let path = files.real_path(alloc, word, Kinds::Any)?;
    let found = FoundFile {
        spelled: path.clone()?,
        path,
        shown: String::from_str(alloc, word)?,
        uri: word_uri(alloc, ways.current, word)?,
        by: FoundBy::Path,
    };
    if !may_be_read(alloc, files, ways, &found, found.path.as_str())? {
        return Err(LinkFault::Outside);
    }
    Ok(found)
}

/// The path of the file that standard input is read in place of: the real path, where there is such a file.
fn input_path<F: Files>(
    alloc: Global,
    files: &F,
    named: &str,
    uri: &str,
) -> Result<String, LinkFault> {
    match files.real_path(alloc, named, Kinds::Any) {
        Ok(real) => Ok(real),
        Err(FileFault::Memory) => Err(LinkFault::Memory),
        Err(_) => Ok(locate(alloc, &[], uri)?.path),
    }
}

/// Standard input, in place of the file at the path that is given for it.
fn input_file<F: Files>(alloc: Global, files: &F, ways: &Ways<'_>) -> Result<FoundFile, LinkFault> {
    let shown = String::from_str(alloc, ways.input.unwrap_or(STANDARD_INPUT))?;
    let uri = word_uri(alloc, ways.current, shown.as_str())?;
    let (spelled, by) = match ways.input {
        Some(named) => (
            input_path(alloc, files, named, uri.as_str())?,
            FoundBy::Path,
        ),
        None => (shown.clone()?, FoundBy::Input),
    };
    Ok(FoundFile {
        path: String::from_str(alloc, STANDARD_INPUT)?,
        spelled,
        shown,
        uri,
        by,
    })
}

/// Enters the file that is asked for by a word. Standard input is refused in place of a file that was named before.
fn enter_word<F: Files>(
    alloc: Global,
    files: &F,
    ways: &Ways<'_>,
    walk: &mut Walk,
    word: &str,
    place: FaultPlace,
) -> Result<usize, LinkFault> {
    if word != STANDARD_INPUT {
        return walk.enter(word_file(alloc, files, ways, word)?, place);
    }
    let input = input_file(alloc, files, ways)?;
    if walk.numbers.get(input.spelled.as_str()).is_some() {
        return Err(LinkFault::Twice);
    }
    walk.enter(input, place)
}

/// Enters the files that are asked for, and answers their numbers, each once. After one too many no further one is
/// looked for.
pub fn enter_words<F: Files>(
    alloc: Global,
    files: &F,
    ways: &Ways<'_>,
    walk: &mut Walk,
    words: &[String],
) -> Result<Vec<usize>, AllocError> {
    let mut roots: Vec<usize> = Vec::new(alloc);
    for (number, word) in words.iter().enumerate() {
        if walk.is_full {
            break;
        }
        let place = FaultPlace::Word(number);
        let entered = enter_word(alloc, files, ways, walk, word.as_str(), place);
        if let Some(root) = walk.note_link(place, Tried::nothing(alloc), entered)? {
            if !roots.contains(&root) {
                roots.push(root)?;
            }
        }
    }
    Ok(roots)
}

/// Enters the file to which a URI leads that a file refers to.
fn enter_found<F: Files>(
    alloc: Global,
    files: &F,
    ways: &Ways<'_>,
    walk: &mut Walk,
    from: &FoundFile,
    uri: String,
    place: FaultPlace,
) -> Result<usize, LinkFault>
    ensures { EntriesGrow walk.old walk.new }
{
    walk.enter(found_at(alloc, files, ways, from, uri)?, place)
}

/// Enters the file that a reference in a file means. A URI is looked up once: the walk keeps where it led, or its fault.
fn enter_link<F: Files>(
    alloc: Global,
    files: &F,
    ways: &Ways<'_>,
    walk: &mut Walk,
    from: &FoundFile,
    literal: &str,
    place: FaultPlace,
) -> Result<usize, LinkFault>
    ensures { EntriesGrow walk.old walk.new }
{
    let uri = meant_uri(alloc, ways.maps, from, literal)?;
    if let Some(led) = walk.led.get(uri.as_str()) {
        return *led;
    }
    let kept = uri.clone()?;
    let led = enter_found(alloc, files, ways, walk, from, uri, place);
    walk.keep(kept, led)?;
    led
}

/// What was tried for a reference that led to no file; nothing where it led to one, or has no target URI.
fn tried_by(
    alloc: Global,
    ways: &Ways<'_>,
    from: &FoundFile,
    literal: &str,
    entered: &Result<usize, LinkFault>,
) -> Result<Tried, AllocError> {
    if entered.is_ok() {
        return Ok(Tried::nothing(alloc));
    }
    match meant_uri(alloc, ways.maps, from, literal) {
        Ok(uri) => tried_place(alloc, ways, from, uri),
        Err(LinkFault::Memory) => Err(AllocError),
        Err(_) => Ok(Tried::nothing(alloc)),
    }
}

/// Enters the files that the links of a file mean, as long as files are looked for, and answers their numbers: of a link
/// that is at fault, the file's own.
fn follow_links<F: Files>(
    alloc: Global,
    files: &F,
    ways: &Ways<'_>,
    walk: &mut Walk,
    file: usize,
    from: &FoundFile,
    outline: &Outline,
) -> Result<Vec<usize>, AllocError>
    ensures { EntriesGrow walk.old walk.new }
{
    let mut targets = Vec::new(alloc);
    for part in &outline.parts {
        if walk.is_full {
            break;
        }
        if let Some((literal, at)) = link_of(part) {
            let place = FaultPlace::Text { file, at };
            let entered = enter_link(alloc, files, ways, walk, from, literal, place);
            let tried = tried_by(alloc, ways, from, literal, &entered)?;
            let target = walk.note_link(place, tried, entered)?;
            targets.push(target.unwrap_or(file))?;
        }
    }
    Ok(targets)
}

/// What the bytes of a file are, and enters the files that they refer to.
#[tactic(auto, using(crate::proofs::FilesRead::front_followed, crate::proofs::FilesRead::text_read))]
fn follow_text<F: Files>(
    alloc: Global,
    files: &F,
    ways: &Ways<'_>,
    walk: &mut Walk,
    file: usize,
    found: FoundFile,
    bytes: &[u8],
) -> Result<Followed, AllocError>
    requires within { file < vec_len walk.old.entries }
    requires given { IsReadBy (F.leads files.now) (F.gives files.now) ways.now
        (string_bytes found.uri) (string_bytes found.path) bytes.now }
    ensures { IfOk result (IsFollowed (IsReadBy (F.leads files.now) (F.gives files.now) ways.now)) }
{
    let FileText {
        text,
        outline,
        written,
    } = text_of(alloc, bytes)?;
    match outline {
        Ok(outline) => {
            let targets = follow_links(alloc, files, ways, walk, file, &found, &outline)?;
            Ok(Followed {
                found,
                text,
                written,
                outline: Some(outline),
                targets,
            })
        }
        Err(wrong) => {
            walk.note(FaultPlace::Text { file, at: wrong.at }, wrong.kind)?;
            Ok(faulty_file(alloc, found, text, written))
        }
    }
}

/// A file that is at fault, with what was read of it.
fn faulty_file(
    alloc: Global,
    found: FoundFile,
    text: String,
    written: Option<XmlSource>,
) -> Followed
    ensures outline { IsNone result.outline }
    ensures text { string_bytes result.text ≡ string_bytes text }
    ensures written { result.written ≡ written }
{
    Followed {
        found,
        text,
        written,
        outline: None,
        targets: Vec::new(alloc),
    }
}

/// The bytes of a file that was found, which are no more than those of a text: those of what was opened, if that may be
/// read.
fn read_file<F: Files>(
    alloc: Global,
    files: &F,
    ways: &Ways<'_>,
    found: &FoundFile,
    kinds: Kinds,
) -> Result<Vec<u8>, LinkFault>
    ensures few { IfOk result (λ bytes. vec_len bytes ≤ max_text) }
    ensures read { IfOk result (λ bytes. IsReadBy (F.leads files.now) (F.gives files.now) ways.now
        (string_bytes found.now.uri) (string_bytes found.now.path) bytes.items) }
{
    let opened = files.read(alloc, found.path.as_str(), kinds)?;
    if opened.bytes.len() > MAX_TEXT {
        return Err(LinkFault::File(FileFault::Large));
    }
    if !may_be_read(alloc, files, ways, found, opened.path.as_str())? {
        return Err(LinkFault::Outside);
    }
    Ok(opened.bytes)
}

/// Which kinds of files are read where a file was named first: a word may name any.
fn kinds_at(place: FaultPlace) -> Kinds {
    match place {
        FaultPlace::Word(_) => Kinds::Any,
        _ => Kinds::Regular,
    }
}

/// Reads a file, and enters the files that it refers to.
#[tactic(auto, using(crate::proofs::FilesRead::unread_followed))]
fn follow<F: Files>(
    alloc: Global,
    files: &F,
    ways: &Ways<'_>,
    walk: &mut Walk,
    file: usize,
) -> Result<Followed, AllocError>
    requires { file < vec_len walk.old.entries }
    ensures { IfOk result (IsFollowed (IsReadBy (F.leads files.now) (F.gives files.now) ways.now)) }
{
    let found = walk.entries[file].found.clone()?;
    let place = walk.entries[file].place;
    let answer = read_file(alloc, files, ways, &found, kinds_at(place));
    let tried = Tried::at(found.shown.clone()?);
    match walk.note_link(place, tried, answer)? {
        Some(bytes) => follow_text(alloc, files, ways, walk, file, found, bytes.as_slice()),
        None => Ok(faulty_file(alloc, found, String::new(alloc), None)),
    }
}

/// Reads all files that were entered, and those that are entered on the way, in their order, as long as files are looked
/// for.
pub fn follow_all<F: Files>(
    alloc: Global,
    files: &F,
    ways: &Ways<'_>,
    walk: &mut Walk,
) -> Result<Vec<Followed>, AllocError>
    ensures { IfOk result (λ followed. All (IsFollowed
        (IsReadBy (F.leads files.now) (F.gives files.now) ways.now)) followed.items) }
{
    let mut followed = Vec::new(alloc);
    for file in 0..MAX_SOURCES {
        if walk.is_full || file >= walk.entries.len() {
            break;
        }
        let next = follow(alloc, files, ways, walk, file)?;
        followed.push(next)?;
    }
    Ok(followed)
}
