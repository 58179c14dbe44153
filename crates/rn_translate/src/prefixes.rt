// Prefixes of namespaces and datatype libraries in the compact text.
ghost use Rattle.std.specs.Prelude.{◌≡◌, [], true, IfOk, OnOk, Some, string_bytes};
ghost use Rattle.std.specs.Str.{chars};
ghost use Rattle.rn_text.specs.Characters.{is_name_start, is_ncname};
ghost use Rattle.rn_translate.specs.inside.PrintedTerms.{number_of};
ghost use Rattle.rn_translate.specs.TokenTexts.{numbered_bytes};
ghost use Rattle.rn_translate.specs.inside.NeededPrefixes.{AreBound, AreNumbered, HasBound};

use crate::uris::Uri;
use std::alloc::{AllocError, Global};
use std::collections::BTreeMap;

/// A prefix: a letter, and a number behind it.
#[tactic(auto, using(crate::proofs::NumberedNames::numbered_name))]
pub(crate) fn numbered(alloc: Global, letter: char, number: usize) -> Result<String, AllocError>
    requires { is_name_start letter ≡ true }
    ensures name { IfOk result (λ prefix. is_ncname (chars (string_bytes prefix)) ≡ true) }
    ensures text { IfOk result (λ prefix. string_bytes prefix ≡ numbered_bytes letter number) }
{
    format!(in alloc; "{letter}{number}")
}

/// A URI to which a prefix is bound.
#[derive(Clone, Copy)]
pub(crate) struct BoundUri {
    /// The URI.
    pub uri: Uri,
    /// Where in the document its prefix was needed first.
    pub at: usize,
}

/// Prefixes: a letter and a number, from 1 on in the order in which they were needed.
#[derive(Drop)]
pub(crate) struct Prefixes {
    /// What the prefixes are bound to.
    pub bound: Vec<BoundUri>,
    numbers: BTreeMap<usize, usize>,
}

impl Prefixes {
    /// No prefixes.
    pub fn new(alloc: Global) -> Prefixes
        ensures { AreBound result [] }
    {
        Prefixes {
            bound: Vec::new(alloc),
            numbers: BTreeMap::new(alloc),
        }
    }

    /// Binds a prefix to the URI that is needed at this place, if one is and none is bound to it yet.
    pub fn bind(&mut self, needed: Option<Uri>, at: usize) -> Result<(), AllocError>
        ensures { AreNumbered self.old → OnOk result (HasBound self.old self.new needed) }
    {
        match needed {
            Some(uri) => self.bind_uri(uri, at),
            None => Ok(()),
        }
    }

    /// Binds a prefix to a URI that is needed at this place, if none is bound to it yet.
    fn bind_uri(&mut self, uri: Uri, at: usize) -> Result<(), AllocError>
        ensures { AreNumbered self.old → OnOk result (HasBound self.old self.new (Some uri)) }
    {
        if self.numbers.get(&uri.index).is_some() {
            return Ok(());
        }
        self.bound.push(BoundUri { uri, at })?;
        self.numbers.insert(uri.index, self.bound.len())?;
        Ok(())
    }

    /// The number of the prefix of a URI; 0 where it has none.
    pub fn number(&self, uri: Uri) -> usize
        ensures { result ≡ number_of self.now uri }
    {
        self.numbers.get(&uri.index).copied().unwrap_or(0)
    }
}
