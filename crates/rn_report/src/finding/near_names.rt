// Names that are near to one that is not defined.
ghost use Rattle.std.specs.Prelude.{◌≡◌, ◌*◌, ◌≤◌, IfOk, IfSome, length, nat_eq};
ghost use Rattle.std.specs.Str.{chars};
ghost use Rattle.strsim.specs.Edits.{levenshtein_row};

use crate::report::shown_name;
use std::alloc::{AllocError, Global};
use strsim::levenshtein;

/// The most edits that lead from a name to one that is near.
const MOST: usize = 2;

/// How many edits lead from a name to another, each of which adds, drops or changes a character, where the other is
/// near: that many is at most two and at most a third of the name's bytes, and both begin with the same byte.
pub fn near_edits(alloc: Global, name: &str, other: &str) -> Result<Option<usize>, AllocError>
    ensures { IfOk result (λ found. IfSome found (λ n. (n * 3 ≤ length name.now)
        × (n ≡ levenshtein_row nat_eq (chars name.now) (chars other.now)
        (length (chars other.now))))) }
{
    let most = MOST.min(name.len() / 3);
    if !may_be_near(name.as_bytes(), other.as_bytes(), most) {
        return Ok(None);
    }
    let edits = levenshtein(alloc, name, other)?;
    Ok(if edits <= most { Some(edits) } else { None })
}

/// Whether names may be so near, by a look that takes no memory: no more bytes than that are far from their place in the
/// other one.
fn may_be_near(name: &[u8], other: &[u8], most: usize) -> bool {
    if name.len().abs_diff(other.len()) > most || name.first() != other.first() {
        return false;
    }
    let far = name
        .iter()
        .enumerate()
        .filter(|(place, byte)| !around(other, *place).contains(*byte))
        .count();
    far <= most
}

/// The bytes around a place, which is at most two bytes off.
fn around(bytes: &[u8], place: usize) -> &[u8] {
    let to = place.saturating_add(MOST + 1).min(bytes.len());
    let from = place.saturating_sub(MOST).min(to);
    &bytes[from..to]
}

/// The nearest of the names that were offered in the place of one that is not defined, and how many edits lead to it.
#[derive(Drop)]
pub struct NearestName<'n> {
    found: Option<(usize, &'n str)>,
}

impl<'n> NearestName<'n> {
    /// No name was offered yet.
    pub fn new() -> Self {
        NearestName { found: None }
    }

    /// Offers a name in the place of another. Of equally near ones the first stays.
    pub fn offer(&mut self, alloc: Global, name: &str, other: &'n str) -> Result<(), AllocError> {
        if let Some(edits) = near_edits(alloc, name, other)? {
            if edits > 0 && self.is_beaten_by(edits) {
                self.found = Some((edits, other));
            }
        }
        Ok(())
    }

    /// Whether so many edits are fewer than those of the nearest name so far.
    fn is_beaten_by(&self, edits: usize) -> bool {
        match self.found {
            Some((fewest, _)) => edits < fewest,
            None => true,
        }
    }

    /// That a name is not defined, with the nearest one.
    pub fn sentence(&self, alloc: Global, name: &str) -> Result<String, AllocError> {
        let name = shown_name(alloc, name)?;
        let advice = self.advice(alloc)?;
        format!(in alloc; "`{name}` is not defined{advice}")
    }

    /// What is said of the nearest name behind a sentence; nothing where there is none.
    pub fn advice(&self, alloc: Global) -> Result<String, AllocError> {
        match self.found {
            Some((_, near)) => {
                let near = shown_name(alloc, near)?;
                format!(in alloc; ": did you mean `{near}`?")
            }
            None => Ok(String::new(alloc)),
        }
    }
}
