// What files are lifted to: modules, each byte with its origin.
ghost use Rattle.std.specs.Prelude.{◌≡◌, ◌<◌, ◌≤◌, ◌^◌, ◌⊎◌, MatchOption, IfSome, IfNone};
ghost use Rattle.std.specs.String.{string_len};
ghost use Rattle.rn_lift.specs.Origins.{HasNoOrigin, IsOrigin, byte_of, piece_at};

use std::collections::BTreeSet;

/// Where bytes of a module's text come from: those from `from` on, up to the next piece. They are the
/// bytes of a file from `at` on, or they were made for what is at `at`. All are counts of bytes.
#[derive(Clone, Copy, Debug, PartialEq, Eq)]
pub struct Piece {
    /// The first byte of the module's text that belongs to the piece.
    pub from: usize,
    /// The index of the file.
    pub file: usize,
    /// The byte of the file's text: the first one of the piece, or that for which the bytes were made.
    pub at: usize,
    /// Whether the bytes are those of the file, and not made for what is at `at`.
    pub is_source: bool,
}

/// What a module was made of.
#[derive(Clone, Copy, Debug, PartialEq, Eq)]
pub struct Basis {
    /// The index of the file.
    pub file: usize,
    /// The index of the grammar in the file's outline; 0 is the file's own.
    pub grammar: usize,
    /// The index of the scope; 0 is that of the roots, whose names are as they are written.
    pub scope: usize,
}

/// A module of the compact syntax without `external`, `parent`, nested `grammar` and bare patterns.
#[derive(Debug, Drop, PartialEq, Eq)]
pub struct LiftedModule {
    /// The name, which no other module has.
    pub name: String,
    /// The text; each byte has its origin in `pieces`.
    pub text: String,
    /// Where the bytes of the text come from, in the order of their `from`, of which no two are equal.
    pub pieces: Vec<Piece>,
    /// What the module was made of; `None` for one that brings in a scope.
    pub basis: Option<Basis>,
}

/// What files were lifted to.
#[derive(Debug, Drop)]
pub struct Lifted {
    /// The modules, in the order of their names, which are distinct.
    pub modules: Vec<LiftedModule>,
    /// The generated stems: what is before the first dot of a name that no file writes.
    pub(crate) made_stems: BTreeSet<String>,
    /// What follows the first dot of the name of a start.
    pub(crate) start: String,
}

/// The last piece that begins at a byte or before it.
fn piece_at(pieces: &[Piece], at: usize) -> Option<Piece>
    ensures last { result ≡ piece_at pieces.now at }
    ensures before { IfSome result (λ p. p.from ≤ at) }
{
    let mut found = None;
    let mut rest = pieces;
    'pieces: while let Some((piece, behind)) = rest.split_first() {
        if piece.from <= at {
            found = Some(*piece);
        }
        rest = behind;
    }
    found
}

/// The byte of a piece's file.
fn byte_in(piece: Piece, at: usize) -> Option<usize>
    requires { piece.from ≤ at }
    ensures { MatchOption result (2 ^ 64 ≤ byte_of piece at) (λ byte. byte ≡ byte_of piece at) }
{
    if piece.is_source {
        piece.at.checked_add(at - piece.from)
    } else {
        Some(piece.at)
    }
}

impl LiftedModule {
    /// Where a byte of the text comes from: the index of a file, and a byte of it. For what was made this is the place
    /// that it was made for. The end of the text has an origin too.
    pub fn origin(&self, at: usize) -> Option<(usize, usize)>
        ensures some { IfSome result (IsOrigin self.now.pieces.items at) }
        ensures none { IfNone result ((string_len self.now.text < at)
            ⊎ HasNoOrigin self.now.pieces.items at) }
    {
        if at > self.text.len() {
            return None;
        }
        let piece = piece_at(self.pieces.as_slice(), at)?;
        Some((piece.file, byte_in(piece, at)?))
    }
}

impl Lifted {
    /// What the files call what has this name in the modules: of a generated name, what follows its first dot, and
    /// `start` for a generated start. Any other name as it is.
    pub fn written_name<'a>(&self, name: &'a str) -> &'a str {
        let Some((stem, rest)) = name.split_once('.') else {
            return name;
        };
        if !self.made_stems.contains(stem) {
            return name;
        }
        if rest == self.start.as_str() {
            "start"
        } else {
            rest
        }
    }
}
