// From the files that are asked for to sources.
ghost use Rattle.std.specs.Prelude.{◌≡◌, [], All, IfErr, IfNone, IfOk, IfSome, string_bytes};
ghost use Rattle.rn_files.specs.inside.Following.{IsFollowed, IsRootOf, root_path};
ghost use Rattle.rn_files.specs.ReadableFiles.{IsKept, IsReadAt, IsReadFor, IsReadSource, KeepsWhatIsRead};
ghost use Rattle.rn_files.specs.Sources.{AreSoundSources};

use super::file_names::name_files;
use super::following::{enter_words, follow_all, word_uri};
use super::soundness::sources_fault;
use super::walk::{Followed, FoundFile, Walk};
use crate::mapping::locations::locate;
use crate::opening::bounds::Ways;
use crate::opening::files::{FileFault, Files, Kinds};
use crate::opening::root_folder::{RootFolder, real_folder, with_slash};
use crate::source_faults::{FaultPlace, LinkFault, SourceFault, Tried};
use crate::sources::{Asked, Attempt, SourceFile, Sources};
use std::alloc::{AllocError, AllocFailed, Global};

/// What was read and what is wrong, where there are no sources.
#[derive(Debug, Drop)]
pub struct Reading {
    /// The files, by the numbers that places of faults have.
    pub files: Vec<Attempt>,
    /// The faults, as they were found; at least one.
    pub faults: Vec<SourceFault>,
}

/// Files that have no faults of their own, and what is wrong with them together.
#[derive(Debug, Drop)]
pub struct LinkedFiles {
    /// The files, with what each refers to.
    pub sources: Sources,
    /// A loop along references, or that the files don't keep what else is promised of sources; `None` where all is kept.
    pub fault: Option<SourceFault>,
}

/// Why there are no sources, or no maps of catalogs.
#[derive(Debug, Drop)]
pub enum ReadingFault {
    /// Files, what they refer to, or catalogs are at fault.
    Faults(Reading),
    /// A request for memory was refused.
    Memory,
}

impl From<AllocError> for ReadingFault {
    ghost use Rattle.std.specs.Prelude.{◌≡◌};
    ghost use Rattle.rn_files.specs.declared.walking.source_reading.ReadingFault.TheVariants.{Memory};

    ghost from_gives = { λ _ fault. fault ≡ Memory };

    fn from(_: AllocError) -> Self {
        ReadingFault::Memory
    }
}

impl<T: Drop> From<AllocFailed<T>> for ReadingFault {
    ghost use Rattle.std.specs.Prelude.{◌≡◌};
    ghost use Rattle.rn_files.specs.declared.walking.source_reading.ReadingFault.TheVariants.{Memory};

    ghost from_gives = { λ _ fault. fault ≡ Memory };

    fn from(_: AllocFailed<T>) -> Self {
        ReadingFault::Memory
    }
}

/// The root folder that is asked for.
fn given_root<F: Files>(
    alloc: Global,
    files: &F,
    current: &str,
    named: &str,
) -> Result<RootFolder, LinkFault>
    ensures { IfOk result (IsRootOf (F.leads files.now) named.now) }
{
    let real = real_folder(alloc, files, named)?;
    let uri = word_uri(alloc, current, named)?;
    let spelled = locate(alloc, &[], uri.as_str())?;
    Ok(RootFolder {
        real: with_slash(real)?,
        spelled: with_slash(spelled.path)?,
    })
}

/// What is kept of a file on a walk that found faults.
fn attempt<F: Files>(_files: &F, _asked: &Asked<'_>, followed: Followed, name: String) -> Attempt
    requires { IsFollowed
        (IsReadFor (F.leads _files.now) (F.gives _files.now) _asked.now) followed }
    ensures { IsKept
        (IsReadFor (F.leads _files.now) (F.gives _files.now) _asked.now)
        (string_bytes result.text) result.written }
{
    let Followed {
        found,
        text,
        written,
        ..
    } = followed;
    let FoundFile { shown, .. } = found;
    Attempt {
        name,
        shown,
        text,
        written,
    }
}

/// What was read on a walk that found faults, and what is wrong.
fn reading_of_walk<F: Files>(
    alloc: Global,
    _files: &F,
    _asked: &Asked<'_>,
    faults: Vec<SourceFault>,
    followed: Vec<Followed>,
    names: Vec<String>,
) -> Result<Reading, AllocError>
    requires { All (IsFollowed
        (IsReadFor (F.leads _files.now) (F.gives _files.now) _asked.now)) followed.items }
    ensures { IfOk result (λ reading. All (λ a. IsKept
        (IsReadFor (F.leads _files.now) (F.gives _files.now) _asked.now)
        (string_bytes a.text) a.written) reading.files.items) }
{
    let mut files = Vec::new(alloc);
    for (followed, name) in followed.into_iter().zip(names) {
        let kept = attempt(_files, _asked, followed, name);
        files.push(kept)?;
    }
    Ok(Reading { files, faults })
}

/// The source of a file without fault.
fn source<F: Files>(
    _files: &F,
    _asked: &Asked<'_>,
    followed: Followed,
    name: String,
) -> Option<SourceFile>
    requires { IsFollowed
        (IsReadFor (F.leads _files.now) (F.gives _files.now) _asked.now) followed }
    ensures { IfSome result (IsReadSource
        (IsReadFor (F.leads _files.now) (F.gives _files.now) _asked.now)) }
{
    let Followed {
        found,
        text,
        written,
        outline,
        targets,
    } = followed;
    let FoundFile {
        path,
        shown,
        uri,
        ..
    } = found;
    match outline {
        Some(outline) => Some(SourceFile {
            name,
            shown,
            path,
            uri,
            text,
            written,
            outline,
            targets,
        }),
        None => None,
    }
}

/// The sources of files without fault.
fn sources<F: Files>(
    alloc: Global,
    _files: &F,
    _asked: &Asked<'_>,
    followed: Vec<Followed>,
    names: Vec<String>,
) -> Result<Vec<SourceFile>, AllocError>
    requires { All (IsFollowed
        (IsReadFor (F.leads _files.now) (F.gives _files.now) _asked.now)) followed.items }
    ensures { IfOk result (λ sources. All (IsReadSource
        (IsReadFor (F.leads _files.now) (F.gives _files.now) _asked.now)) sources.items) }
{
    let mut sources = Vec::new(alloc);
    for (followed, name) in followed.into_iter().zip(names) {
        if let Some(source) = source(_files, _asked, followed, name) {
            sources.push(source)?;
        }
    }
    Ok(sources)
}

/// What is kept of a file that has no fault of its own.
fn attempt_of_source<F: Files>(_files: &F, _asked: &Asked<'_>, source: SourceFile) -> Attempt
    requires { IsReadSource
        (IsReadFor (F.leads _files.now) (F.gives _files.now) _asked.now) source }
    ensures { IsKept
        (IsReadFor (F.leads _files.now) (F.gives _files.now) _asked.now)
        (string_bytes result.text) result.written }
{
    let SourceFile {
        name,
        shown,
        text,
        written,
        ..
    } = source;
    Attempt {
        name,
        shown,
        text,
        written,
    }
}

/// What was read of files that have no fault of their own, and what is wrong with them together.
fn reading_of_sources<F: Files>(
    alloc: Global,
    _files: &F,
    _asked: &Asked<'_>,
    sources: Sources,
    fault: SourceFault,
) -> Result<Reading, AllocError>
    requires { All (IsReadSource
        (IsReadFor (F.leads _files.now) (F.gives _files.now) _asked.now)) sources.files.items }
    ensures { IfOk result (λ reading. All (λ a. IsKept
        (IsReadFor (F.leads _files.now) (F.gives _files.now) _asked.now)
        (string_bytes a.text) a.written) reading.files.items) }
{
    let Sources { files, .. } = sources;
    let mut attempts = Vec::new(alloc);
    for source in files {
        let kept = attempt_of_source(_files, _asked, source);
        attempts.push(kept)?;
    }
    let faults = vec![in alloc; fault]?;
    Ok(Reading {
        files: attempts,
        faults,
    })
}

/// The sources that files are, where nothing is wrong with them together.
pub fn sources_of<F: Files>(
    alloc: Global,
    _files: &F,
    _asked: &Asked<'_>,
    linked: LinkedFiles,
) -> Result<Sources, ReadingFault>
    requires sound { IfNone linked.fault (AreSoundSources linked.sources) }
    requires texts { All (IsReadSource
        (IsReadFor (F.leads _files.now) (F.gives _files.now) _asked.now))
        linked.sources.files.items }
    ensures sound { IfOk result (λ s. AreSoundSources s) }
    ensures same { IfOk result (λ s. s ≡ linked.sources) }
    ensures kept { IfErr result (KeepsWhatIsRead
        (IsReadFor (F.leads _files.now) (F.gives _files.now) _asked.now)) }
{
    let LinkedFiles { sources, fault } = linked;
    match fault {
        Some(fault) => {
            let reading = reading_of_sources(alloc, _files, _asked, sources, fault)?;
            Err(ReadingFault::Faults(reading))
        }
        None => Ok(sources),
    }
}

/// The numbers of the files that are asked for, each once, and what was read of all files.
#[derive(Drop)]
struct FollowedFiles {
    roots: Vec<usize>,
    followed: Vec<Followed>,
}

/// What was found, and the root folder, if one is given.
#[derive(Drop)]
struct FoundFiles {
    files: FollowedFiles,
    folder: Option<RootFolder>,
}

/// Where nothing is looked for.
fn no_files(alloc: Global) -> FoundFiles
    ensures { result.files.followed.items ≡ [] }
{
    FoundFiles {
        files: FollowedFiles {
            roots: Vec::new(alloc),
            followed: Vec::new(alloc),
        },
        folder: None,
    }
}

/// Finds the files that are asked for, and all that they refer to.
fn follow_words<F: Files>(
    alloc: Global,
    files: &F,
    asked: &Asked<'_>,
    current: &str,
    root: Option<&RootFolder>,
    walk: &mut Walk,
) -> Result<FollowedFiles, AllocError>
    ensures { IfOk result (λ found. All (IsFollowed (IsReadAt (F.leads files.now)
        (F.gives files.now) (root_path root.entry) asked.now.maps.now)) found.followed.items) }
{
    let ways = Ways {
        maps: asked.maps,
        current,
        root,
        input: asked.input,
    };
    let roots = enter_words(alloc, files, &ways, walk, asked.files)?;
    let followed = follow_all(alloc, files, &ways, walk)?;
    Ok(FollowedFiles { roots, followed })
}

/// Whether a word names something from the current folder, as `-` does: the references in standard input begin there.
fn is_relative(word: &str) -> bool {
    !word.starts_with('/')
}

/// Whether a file or the root folder is named from the current folder.
fn needs_current(asked: &Asked<'_>) -> bool {
    asked.root.is_some_and(is_relative) || asked.files.iter().any(|file| is_relative(file.as_str()))
}

/// The real path of the current folder. Where it has none and nothing is named from it, it is the topmost folder.
fn current_folder<F: Files>(
    alloc: Global,
    files: &F,
    asked: &Asked<'_>,
) -> Result<String, LinkFault> {
    match files.real_path(alloc, ".", Kinds::Any) {
        Err(fault) if fault != FileFault::Memory && !needs_current(asked) => {
            Ok(String::from_str(alloc, "/")?)
        }
        answer => Ok(answer?),
    }
}

/// Finds all files. Where a root folder is asked for and isn't there, none is looked for.
fn find_files<F: Files>(
    alloc: Global,
    files: &F,
    asked: &Asked<'_>,
    walk: &mut Walk,
) -> Result<FoundFiles, AllocError>
    ensures { IfOk result (λ found. All (IsFollowed
        (IsReadFor (F.leads files.now) (F.gives files.now) asked.now))
        found.files.followed.items) }
{
    let current = current_folder(alloc, files, asked);
    let Some(current) = walk.note_link(FaultPlace::Current, Tried::nothing(alloc), current)? else {
        return Ok(no_files(alloc));
    };
    let current = current.as_str();
    match asked.root {
        Some(named) => {
            let root = given_root(alloc, files, current, named);
            let Some(root) = walk.note_link(FaultPlace::Root, Tried::nothing(alloc), root)? else {
                return Ok(no_files(alloc));
            };
            let files = follow_words(alloc, files, asked, current, Some(&root), walk)?;
            Ok(FoundFiles {
                files,
                folder: Some(root),
            })
        }
        None => {
            let files = follow_words(alloc, files, asked, current, None, walk)?;
            Ok(FoundFiles {
                files,
                folder: None,
            })
        }
    }
}

/// The files that are asked for and all that they refer to, each one read once.
///
/// A literal of an include or an external is resolved against the URI of its file (RFC 3986, section 5.2; RELAX NG
/// 2001, 4.5), and leads to a file below the folder of the longest map, or at the path of a `file` URI. One file is one
/// source, however it is spelled; its URI is the first one that leads to it.
///
/// Refused are files that can't be read, texts that are no files of the language or have more than
/// [`MAX_TEXT`](crate::MAX_TEXT) bytes, references that name no file, more than [`MAX_SOURCES`](crate::MAX_SOURCES)
/// files, names of more than [`rn_modset::MAX_NAME`] bytes or of two files, files that don't lie below the root folder,
/// and loops along references. Faults of all files are answered, but of loops one.
///
/// With a root folder, a file is read only where the real path of what was opened lies in it, or in the folder of the
/// map that found the file; standard input may be named by a word. Nothing is kept of any other, in an error neither.
pub fn read_sources<F: Files>(
    alloc: Global,
    files: &F,
    asked: &Asked<'_>,
) -> Result<Sources, ReadingFault>
    ensures sound { IfOk result (λ s. AreSoundSources s) }
    ensures texts { IfOk result (λ s. All (IsReadSource
        (IsReadFor (F.leads files.now) (F.gives files.now) asked.now)) s.files.items) }
    ensures kept { IfErr result (KeepsWhatIsRead
        (IsReadFor (F.leads files.now) (F.gives files.now) asked.now)) }
{
    let linked = read_files(alloc, files, asked)?;
    sources_of(alloc, files, asked, linked)
}

/// The files that are asked for and all that they refer to, as [`read_sources`] answers them, but loops along references
/// are no fault here: one is answered with the files.
pub fn read_files<F: Files>(
    alloc: Global,
    files: &F,
    asked: &Asked<'_>,
) -> Result<LinkedFiles, ReadingFault>
    ensures sound { IfOk result (λ l. IfNone l.fault (AreSoundSources l.sources)) }
    ensures texts { IfOk result (λ l. All (IsReadSource
        (IsReadFor (F.leads files.now) (F.gives files.now) asked.now)) l.sources.files.items) }
    ensures kept { IfErr result (KeepsWhatIsRead
        (IsReadFor (F.leads files.now) (F.gives files.now) asked.now)) }
{
    let mut walk = Walk::new(alloc);
    let FoundFiles {
        files: found,
        folder,
    } = find_files(alloc, files, asked, &mut walk)?;
    let FollowedFiles { roots, followed } = found;
    let names = name_files(alloc, folder, &mut walk)?;
    if !walk.faults.is_empty() {
        let reading = reading_of_walk(alloc, files, asked, walk.faults, followed, names)?;
        return Err(ReadingFault::Faults(reading));
    }
    let sources = Sources {
        files: sources(alloc, files, asked, followed, names)?,
        roots,
    };
    let fault = sources_fault(alloc, &sources)?;
    Ok(LinkedFiles { sources, fault })
}
