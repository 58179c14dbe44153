// Whether the generated names are free.
ghost use Rattle.std.specs.Prelude.{◌≡◌, ◌<◌, false, length, slice_index, take, IsTrue, IsFalse, string_bytes};
ghost use Rattle.std.specs.BTreeSet.{contains_text};
ghost use Rattle.rn_scopes.specs.FreeNames.{AreFree, FileIsFree, IsFreeName, IsNoOwn, PartIsFree};
ghost use Rattle.rn_scopes.specs.UnitFiles.{files_of};

use crate::input_files::InputFile;
use crate::own_names::{Names, name_span};
use crate::units::Units;
use rn_outline::{FilePart, unquoted_name};
use std::collections::BTreeSet;

/// Whether no name that the files write is one generated for a scope, or for a start.
pub(crate) fn are_free(units: &Units<'_>, names: &Names) -> bool
    ensures { IsTrue result
        → AreFree (files_of units.now) names.now.made_stems (string_bytes names.now.start) }
{
    for given in &units.files {
        if !is_free_file(given, names) {
            return false;
        }
    }
    true
}

/// Whether no name that one file writes is one generated for a scope, or for a start.
fn is_free_file(given: &InputFile<'_>, names: &Names) -> bool
    ensures { IsTrue result
        → FileIsFree names.now.made_stems (string_bytes names.now.start) given.now.file }
{
    let mut rest = given.file.outline.parts.as_slice();
    'parts: while let Some((part, behind)) = rest.split_first() {
        if !is_free_part(given.file.text, part, names) {
            return false;
        }
        rest = behind;
    }
    true
}

fn is_free_part(text: &str, part: &FilePart, names: &Names) -> bool
    ensures { IsTrue result
        → PartIsFree names.now.made_stems (string_bytes names.now.start) text.now part.now }
{
    let Some(span) = name_span(&part.kind) else {
        return true;
    };
    match text.get(span.from..span.to) {
        Some(token) => is_free(unquoted_name(token), names),
        None => false,
    }
}

/// Whether a name is neither that of a generated start nor one with a generated stem.
fn is_free(name: &str, names: &Names) -> bool
    ensures { IsTrue result
        → IsFreeName names.now.made_stems (string_bytes names.now.start) name.now }
{
    name != names.start.as_str() && !is_own(&names.made_stems, name)
}

/// Whether a name begins with one of these stems and a dot.
fn is_own(own: &BTreeSet<String>, name: &str) -> bool
    ensures { IsFalse result → IsNoOwn own.now name.now }
{
    for at in 0..name.len() {
        if ends_stem(own, name, at) {
            return true;
        }
    }
    false
}

/// Whether there is a dot at a byte, and one of these stems before it.
fn ends_stem(own: &BTreeSet<String>, name: &str, at: usize) -> bool
    requires { at < length name.now }
    ensures { IsFalse result → slice_index name.now at ≡ 46
        → contains_text own.now (take at name.now) ≡ false }
{
    if name.as_bytes()[at] != b'.' {
        return false;
    }
    match name.get(..at) {
        Some(front) => own.contains(front),
        None => true,
    }
}
