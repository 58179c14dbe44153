// The datatype libraries of a store, as shared texts.
ghost use Rattle.std.specs.Prelude.{◌≡◌, IfOk};
ghost use Rattle.std.specs.Rc.{rc_str_bytes};

use std::alloc::{AllocError, Global};
use std::collections::BTreeSet;
use std::rc::RcStr;

/// The datatype libraries that were asked for, each of them once. All values and data of a store that are of one
/// library share its text, so a long one is stored once, in whatever order they come.
#[derive(Drop)]
pub struct Libraries {
    alloc: Global,
    texts: BTreeSet<RcStr>,
}

impl Libraries {
    /// No libraries yet. It takes no memory.
    pub fn new(alloc: Global) -> Libraries {
        Libraries {
            alloc,
            texts: BTreeSet::new(alloc),
        }
    }

    /// The library as a shared text: the one that is there, else a new one, which is kept. The only error is want of
    /// memory.
    pub fn shared(&mut self, library: &str) -> Result<RcStr, AllocError>
        ensures { IfOk result (λ text. rc_str_bytes text ≡ library.now) }
    {
        if let Some(text) = self.texts.get(library) {
            return Ok(text.clone()?);
        }
        let text = RcStr::from_str(self.alloc, library)?;
        self.texts.insert(text.clone()?)?;
        Ok(text)
    }
}
