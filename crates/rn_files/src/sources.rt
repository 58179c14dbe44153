// The files, root folder and maps that are asked for, and the sources that are answered.
ghost use Rattle.std.specs.Prelude.{◌≡◌, MatchOption};
ghost use Rattle.rn_translate.specs.Origins.{origin_of};

use crate::mapping::maps::Map;
use rn_outline::Outline;
use rn_translate::Origins;

/// What is asked for: files, a root folder and maps.
#[derive(Clone, Copy)]
pub struct Asked<'a> {
    /// The files, by their paths; `-` is standard input.
    pub files: &'a [String],
    /// The root folder, from which the names of modules are counted; `None` for the deepest folder that holds all
    /// files.
    pub root: Option<&'a str>,
    /// Where URIs lie, in groups: of the first group that has maps for a URI the one counts that has most of it, the first of
    /// them among equals.
    pub maps: &'a [Vec<Map>],
    /// The path of the file that standard input is read in place of. `None` where it has none: it is told as `-`, and what
    /// it refers to is looked for from the current folder.
    pub input: Option<&'a str>,
}

impl Asked<'_> {
    /// Nothing is asked for.
    pub fn nothing() -> Asked<'static> {
        Asked {
            files: &[],
            root: None,
            maps: &[],
            input: None,
        }
    }
}

/// What is written in a file in the XML syntax.
#[derive(Debug, Drop, PartialEq, Eq)]
pub struct XmlSource {
    /// The text of the document, in UTF-8.
    pub text: String,
    /// Where the bytes of the compact text come from, which was made of it; `None` where the document is at fault, and
    /// places are its own.
    pub origins: Option<Origins>,
}

impl XmlSource {
    /// The byte of the document's text that a byte of the compact text was made for.
    pub fn origin(&self, at: usize) -> usize
        ensures { MatchOption self.now.origins (result ≡ at)
            (λ origins. result ≡ origin_of origins.items.items at) }
    {
        match &self.origins {
            Some(places) => places.origin(at),
            None => at,
        }
    }
}

/// A file that was read.
#[derive(Debug, Drop, PartialEq, Eq)]
pub struct SourceFile {
    /// The name of the file's module.
    pub name: String,
    /// The file as it is told to people: as it was asked for, or its path from the current folder, or its real path where
    /// the file that refers to it is told by a path from the topmost folder.
    pub shown: String,
    /// The real path of the file, or `-` for standard input.
    pub path: String,
    /// The URI that the file's references are resolved against (RFC 3986, section 5.1).
    pub uri: String,
    /// The bytes of the file; of one in the XML syntax the text of the compact syntax that was made of it.
    pub text: String,
    /// What is written in the file, if it is in the XML syntax.
    pub written: Option<XmlSource>,
    /// The outline of the text.
    pub outline: Outline,
    /// For each external and include of the outline, in order, the number of the file that is meant.
    pub targets: Vec<usize>,
}

/// The files that are asked for and all that they reach: first those asked for, and then as they are first referred to.
#[derive(Debug, Drop, PartialEq, Eq)]
pub struct Sources {
    /// The files: those asked for, and then the others as they are first referred to; each once, however it is spelled.
    pub files: Vec<SourceFile>,
    /// The numbers of the files that are asked for, each once, in order.
    pub roots: Vec<usize>,
}

/// A file as far as it was read: as much of its text as is UTF-8, none where it couldn't be read.
#[derive(Debug, Drop, PartialEq, Eq)]
pub struct Attempt {
    /// The name that the file's module has, or would have.
    pub name: String,
    /// The file as it is told to people.
    pub shown: String,
    /// The front of the file's text that is UTF-8; of a file in the XML syntax the compact text that was made of it, none
    /// where the document is at fault.
    pub text: String,
    /// What is written in the file, if it is in the XML syntax: its document, as far as it could be decoded.
    pub written: Option<XmlSource>,
}
