// Texts that are given indices, equal ones the same.
ghost use Rattle.std.specs.Prelude.{◌≡◌, ◌+◌, ℕ, Some, None, if◌then◌else◌, IfOk, OnErr, OnOk, bytes_eq};
ghost use Rattle.std.specs.BTreeMap.{btree_map_len};
ghost use Rattle.rn_text.specs.Texts.{Text};
ghost use Rattle.rn_xml.specs.inside.KnownTexts.{AreApart, index_in};

use std::alloc::{AllocError, Global};
use std::collections::BTreeMap;

/// The indices of texts, from 0 on, in the order in which they came. A look-up takes the logarithm of their number.
#[derive(Drop)]
pub(crate) struct Indices {
    alloc: Global,
    known: BTreeMap<String, usize>,
}

impl Indices {
    pub(crate) fn new(alloc: Global) -> Indices
        ensures { (q : Text) → index_in result q ≡ None }
    {
        Indices {
            alloc,
            known: BTreeMap::new(alloc),
        }
    }

    /// The index of the text, if it has one.
    pub(crate) fn find(&self, text: &str) -> Option<usize>
        ensures { result ≡ index_in self.now text.now }
    {
        self.known.get(text).copied()
    }

    /// Gives the text this index.
    pub(crate) fn insert(&mut self, text: &str, index: usize) -> Result<(), AllocError>
        ensures ok { OnOk result ((q : Text)
            → index_in self.new q ≡
            (if bytes_eq text.now q then Some index else index_in self.old q)) }
        ensures more { OnOk result (index_in self.old text.now ≡ None
            → btree_map_len self.new.known ≡ btree_map_len self.old.known + 1) }
        ensures err { OnErr result (self.new.known.entries ≡ self.old.known.entries) }
    {
        self.known
            .insert(String::from_str(self.alloc, text)?, index)?;
        Ok(())
    }

    /// The index of the text, the next one if it has none.
    pub(crate) fn index_of(&mut self, text: &str) -> Result<usize, AllocError>
        ensures found { IfOk result (λ index. index_in self.new text.now ≡ Some index) }
        ensures same { OnOk result ((q : Text) (i : ℕ) → index_in self.old q ≡ Some i
            → index_in self.new q ≡ Some i) }
        ensures apart { AreApart self.old → AreApart self.new }
    {
        if let Some(index) = self.find(text) {
            return Ok(index);
        }
        let index = self.known.len();
        self.insert(text, index)?;
        Ok(index)
    }
}
