// Files that are to be lifted.
ghost use Rattle.std.specs.Prelude.{◌≡◌, IfOk};
ghost use Rattle.rn_outline.specs.Links.{behind_first, first_of, targets_of};
ghost use Rattle.rn_scopes.specs.UnitFiles.{HasTargets, target_of};

use crate::outline_bindings::OutlineBindings;
use rn_outline::{FilePart, Outline, is_link};
use std::alloc::{AllocError, Global};

/// A file that is to be lifted.
#[derive(Clone, Copy)]
pub struct Lifting<'a> {
    /// The name of the file's module.
    pub name: &'a str,
    /// The text of the file; spans of the outline count its bytes.
    pub text: &'a str,
    /// The outline of the text, from [`rn_outline::read_outline`].
    pub outline: &'a Outline,
    /// For each external and include of the outline, in its order, the index of the file that is
    /// meant.
    pub targets: &'a [usize],
}

/// A file, with what its declarations bind and the index of its first unit.
#[derive(Drop)]
pub struct InputFile<'a> {
    /// The file, as it was given.
    pub file: Lifting<'a>,
    /// For each part of the outline, the index of the file that it names, if it names one.
    pub targets: Vec<Option<usize>>,
    pub(crate) bindings: OutlineBindings,
    pub(crate) first: usize,
}

impl<'a> InputFile<'a> {
    /// A file, and the index of its first unit.
    pub(crate) fn of(alloc: Global, file: Lifting<'a>, first: usize) -> Result<Self, AllocError>
        ensures file { IfOk result (λ g. g.file ≡ file.entry) }
        ensures targets { IfOk result HasTargets }
    {
        let outline = file.outline;
        Ok(InputFile {
            file,
            targets: targets_of(alloc, outline.parts.as_slice(), file.targets)?,
            bindings: OutlineBindings::of(alloc, file.text, outline)?,
            first,
        })
    }

    /// The index of the file that the part of this index names.
    pub fn target(&self, part: usize) -> Option<usize>
        ensures { result ≡ target_of self.now part }
    {
        match self.targets.get(part) {
            Some(target) => *target,
            None => None,
        }
    }

    /// The part of this index in the outline, if there is one.
    pub fn part(&self, number: usize) -> Option<&'a FilePart> {
        let outline = self.file.outline;
        outline.parts.get(number)
    }

    /// The datatype library that a prefix is bound to: by the first declaration of it, or as `xsd`.
    pub fn library(&self, prefix: &str) -> Option<&'a str> {
        self.bindings.library(self.file.outline, prefix)
    }
}

/// The file of each part, by its index: parts that name a file take the given ones in turn, others have none.
fn targets_of(
    alloc: Global,
    parts: &[FilePart],
    targets: &[usize],
) -> Result<Vec<Option<usize>>, AllocError>
    ensures { IfOk result (λ v. v.items ≡ targets_of parts.now targets.now) }
{
    let mut found = Vec::new(alloc);
    let mut rest = parts;
    let mut left = targets;
    'parts: while let Some((part, behind)) = rest.split_first() {
        if is_link(part) {
            let (target, others) = first_of(left);
            found.push(target)?;
            left = others;
        } else {
            found.push(None)?;
        }
        rest = behind;
    }
    Ok(found)
}

/// The first of some numbers, and the others.
fn first_of(numbers: &[usize]) -> (Option<usize>, &[usize])
    ensures first { result.0 ≡ first_of numbers.now }
    ensures others { result.1.now ≡ behind_first numbers.now }
{
    match numbers.split_first() {
        Some((first, others)) => (Some(*first), others),
        None => (None, numbers),
    }
}
