// Files as they are found, each once.
ghost use Rattle.std.specs.Prelude.{◌≡◌, IfOk, IfSome, Ok};
ghost use Rattle.rn_files.specs.inside.Following.{EntriesGrow};

use crate::source_faults::{FaultPlace, LinkFault, SourceFault, SourceFaultKind, Tried};
use crate::sources::XmlSource;
use rn_outline::Outline;
use std::alloc::{AllocError, Global};
use std::collections::BTreeMap;

/// The most files: as many as a set has modules.
pub const MAX_SOURCES: usize = rn_modset::MAX_CONTRIBUTIONS;

/// How a file was found.
#[derive(Clone, Copy, Debug, PartialEq, Eq)]
pub enum FoundBy {
    /// It is standard input, for which no path is given.
    Input,
    /// By its path, or it is standard input in place of the file at that path.
    Path,
    /// By a map of URIs.
    Map,
}

/// A file to which a word or a reference led; it may not be read yet.
#[derive(Clone, Drop)]
pub struct FoundFile {
    /// The real path of the file, or `-` for standard input.
    pub path: String,
    /// The path that names the file: its real path. Of standard input it is the one that is given for it, or `-`.
    pub spelled: String,
    /// The file as it is told to people.
    pub shown: String,
    /// The URI that the file's references are resolved against (RFC 3986, section 5.1).
    pub uri: String,
    /// How the file was found.
    pub by: FoundBy,
}

/// A file that was found, and where.
#[derive(Drop)]
pub struct Entry {
    /// The file.
    pub found: FoundFile,
    /// Where the file was named first.
    pub place: FaultPlace,
}

/// What was read of a file.
#[derive(Drop)]
pub struct Followed {
    /// The file.
    pub found: FoundFile,
    /// The text, or as much of it as is UTF-8.
    pub text: String,
    /// What is written in the file, if it is in the XML syntax.
    pub written: Option<XmlSource>,
    /// What the text is made of, if it has no fault.
    pub outline: Option<Outline>,
    /// The numbers of the files that its links mean, in order.
    pub targets: Vec<usize>,
}

/// The files that were found so far.
#[derive(Drop)]
pub struct Walk {
    /// The files, in the order in which they were found.
    pub entries: Vec<Entry>,
    /// Of each path that names a file, the number of the file.
    pub numbers: BTreeMap<String, usize>,
    /// Of each URI that was looked up, the number of its file, or its fault.
    pub led: BTreeMap<String, Result<usize, LinkFault>>,
    /// How many of those URIs led to no file.
    pub missed: usize,
    /// Whether no further file is looked for: one too many was named, or so many are not there.
    pub is_full: bool,
    /// The faults, in the order in which they were found.
    pub faults: Vec<SourceFault>,
}

impl Walk {
    /// A walk that found no files yet.
    pub fn new(alloc: Global) -> Walk {
        Walk {
            entries: Vec::new(alloc),
            numbers: BTreeMap::new(alloc),
            led: BTreeMap::new(alloc),
            missed: 0,
            is_full: false,
            faults: Vec::new(alloc),
        }
    }

    /// Keeps a fault.
    pub fn note(&mut self, place: FaultPlace, kind: SourceFaultKind) -> Result<(), AllocError>
        ensures { EntriesGrow self.old self.new }
    {
        self.faults.push(SourceFault { place, kind })?;
        Ok(())
    }

    /// What a word, a folder or a reference led to; a fault is kept, with what was tried, and is then none.
    pub fn note_link<T: Drop>(
        &mut self,
        place: FaultPlace,
        tried: Tried,
        led: Result<T, LinkFault>,
    ) -> Result<Option<T>, AllocError>
        ensures grows { EntriesGrow self.old self.new }
        ensures led { IfOk result (λ noted. IfSome noted (λ value. led ≡ Ok value)) }
    {
        match led {
            Ok(value) => Ok(Some(value)),
            Err(LinkFault::Memory) => Err(AllocError),
            Err(fault) => {
                self.note(place, SourceFaultKind::Link { fault, tried })?;
                Ok(None)
            }
        }
    }

    /// Keeps where a URI led. After [`MAX_SOURCES`] that led to no file, no further one is looked for.
    pub fn keep(&mut self, uri: String, led: Result<usize, LinkFault>) -> Result<(), AllocError>
        ensures { EntriesGrow self.old self.new }
    {
        if led.is_err() {
            self.missed = self.missed.saturating_add(1);
        }
        if self.missed >= MAX_SOURCES {
            self.is_full = true;
        }
        self.led.insert(uri, led)?;
        Ok(())
    }

    /// The number of a file that was found at a place. `Count` where it would be one too many; then no further file is
    /// looked for.
    pub fn enter(&mut self, found: FoundFile, place: FaultPlace) -> Result<usize, LinkFault>
        ensures { EntriesGrow self.old self.new }
    {
        if let Some(number) = self.numbers.get(found.spelled.as_str()) {
            return Ok(*number);
        }
        if self.entries.len() >= MAX_SOURCES {
            self.is_full = true;
            return Err(LinkFault::Count);
        }
        Ok(self.add(found, place)?)
    }

    /// Puts a file behind the others.
    fn add(&mut self, found: FoundFile, place: FaultPlace) -> Result<usize, AllocError>
        ensures { EntriesGrow self.old self.new }
    {
        let number = self.entries.len();
        let spelled = found.spelled.clone()?;
        self.entries.push(Entry { found, place })?;
        self.numbers.insert(spelled, number)?;
        Ok(number)
    }
}
