// Paths of URIs, as lists of segments (RFC 3986, sections 3.3 and 5.2.4).
ghost use Rattle.std.specs.Prelude.{◌≡◌, ◌==◌, ◌++◌, ◌∷◌, map, IfOk, MatchBool, OnOk, string_bytes};
ghost use Rattle.std.specs.List.{flat_map};
ghost use Rattle.rn_files.specs.Paths.{ends_in_dots, entered_folder, is_here, is_up, outer, path_of, remove_dot_segments, segments, walked_folder, without_dots};
ghost use Rattle.rn_files.specs.inside.UriReferences.{LeadAbove, finds_none, is_top};
ghost use Rattle.rn_files.specs.Paths.{has_dots, is_dot_or_two};

use std::alloc::{AllocError, Global};

/// The segments of a path, which its slashes part.
pub fn segments(alloc: Global, path: &str) -> Result<Vec<&str>, AllocError>
    ensures { IfOk result (λ parts. map (λ s. s.now) parts.items ≡ segments path.now) }
{
    path.split('/').collect(alloc)
}

/// Whether the segment is `.`, which may be spelled as an escape (RFC 3986, section 6.2.2.2).
fn is_here(segment: &str) -> bool
    ensures { result ≡ is_here segment.now }
{
    segment == "." || segment.eq_ignore_ascii_case("%2e")
}

/// Whether the segment is `..`, of which each dot may be spelled as an escape.
fn is_up(segment: &str) -> bool
    ensures { result ≡ is_up segment.now }
{
    segment == ".."
        || segment.eq_ignore_ascii_case(".%2e")
        || segment.eq_ignore_ascii_case("%2e.")
        || segment.eq_ignore_ascii_case("%2e%2e")
}

/// Goes to the folder around; at the first segment, the empty one is left.
fn leave(folder: &mut Vec<&str>)
    ensures { map (λ s. s.now) folder.new.items ≡ outer (map (λ s. s.now) folder.old.items) }
{
    if folder.len() == 1 {
        folder[0] = "";
    } else {
        folder.pop();
    }
}

/// Goes on from a folder by a segment.
fn enter<'p>(folder: &mut Vec<&'p str>, segment: &'p str) -> Result<(), AllocError>
    ensures { OnOk result (map (λ s. s.now) folder.new.items
        ≡ entered_folder (map (λ s. s.now) folder.old.items) segment.now) }
{
    if is_here(segment) {
        return Ok(());
    }
    if is_up(segment) {
        leave(folder);
        return Ok(());
    }
    folder.push(segment)?;
    Ok(())
}

/// Where the segments lead, one after the other.
fn walk_segments<'p>(alloc: Global, segments: &[&'p str]) -> Result<Vec<&'p str>, AllocError>
    ensures { IfOk result (λ folder. map (λ s. s.now) folder.items
        ≡ walked_folder (map (λ s. s.now) segments.now)) }
{
    let mut folder = Vec::new(alloc);
    for segment in segments {
        enter(&mut folder, segment)?;
    }
    Ok(folder)
}

/// Whether the last segment is `.` or `..`.
fn ends_in_dots(segments: &[&str]) -> bool
    ensures { result ≡ ends_in_dots (map (λ s. s.now) segments.now) }
{
    match segments.last() {
        Some(last) => is_here(last) || is_up(last),
        None => false,
    }
}

/// What the segments lead to, without the segments `.` and `..` (RFC 3986, section 5.2.4). A `..` at the top is
/// dropped.
pub fn without_dots<'p>(alloc: Global, segments: &[&'p str]) -> Result<Vec<&'p str>, AllocError>
    ensures { IfOk result (λ left. map (λ s. s.now) left.items
        ≡ without_dots (map (λ s. s.now) segments.now)) }
{
    let mut left = walk_segments(alloc, segments)?;
    if ends_in_dots(segments) {
        left.push("")?;
    }
    Ok(left)
}

/// Adds segments, each with a slash before it.
fn push_behind(path: &mut String, segments: &[&str]) -> Result<(), AllocError>
    ensures { OnOk result (string_bytes path.new
        ≡ string_bytes path.old ++ flat_map (λ s. 47 ∷ s.now) segments.now) }
{
    for segment in segments {
        path.push_str("/")?;
        path.push_str(segment)?;
    }
    Ok(())
}

/// The path of segments: each but the first has a slash before it.
pub fn joined_path(alloc: Global, segments: &[&str]) -> Result<String, AllocError>
    ensures { IfOk result (λ path. string_bytes path ≡ path_of (map (λ s. s.now) segments.now)) }
{
    let [first, others @ ..] = segments else {
        return Ok(String::new(alloc));
    };
    let mut path = String::from_str(alloc, first)?;
    push_behind(&mut path, others)?;
    Ok(path)
}

/// The path of a URI without its segments `.` and `..` (RFC 3986, section 5.2.4), of which each dot may be spelled as
/// an escape (6.2.2.2). A `..` at the top is dropped. The only error is out of memory.
pub fn remove_dot_segments(alloc: Global, path: &str) -> Result<String, AllocError>
    ensures { IfOk result (λ left. string_bytes left ≡ remove_dot_segments path.now) }
{
    let parts = segments(alloc, path)?;
    let left = without_dots(alloc, parts.as_slice())?;
    joined_path(alloc, left.as_slice())
}

/// Whether no segment is there that `..` takes away.
fn is_top(folder: &[&str]) -> bool
    ensures { result ≡ is_top (map (λ s. s.now) folder.now) }
{
    match folder {
        [] => true,
        [only] => only.is_empty(),
        _ => false,
    }
}

/// Whether the segment is a `..` that finds none to take away.
fn finds_none(folder: &[&str], segment: &str) -> bool
    ensures { result ≡ finds_none (map (λ s. s.now) folder.now) segment.now }
{
    is_up(segment) && is_top(folder)
}

/// Whether a `..` of the segments finds none before it that it takes away. RFC 3986 lets such a `..` fall (section
/// 5.2.4, 2A and 2C); of a file it is a fault.
pub fn lead_above(alloc: Global, segments: &[&str]) -> Result<bool, AllocError>
    ensures { IfOk result (λ above. MatchBool above (LeadAbove (map (λ s. s.now) segments.now))
        (¬ (LeadAbove (map (λ s. s.now) segments.now)))) }
{
    let mut folder = Vec::new(alloc);
    for segment in segments {
        if finds_none(folder.as_slice(), segment) {
            return Ok(true);
        }
        enter(&mut folder, segment)?;
    }
    Ok(false)
}

/// Whether the segment of a path, whose escapes are decoded, is `.` or `..`.
fn is_dot_or_two(segment: &str) -> bool
    ensures { result ≡ is_dot_or_two segment.now }
{
    segment == "." || segment == ".."
}

/// Whether a path, whose escapes are decoded, has a segment `.` or `..`.
pub fn has_dots(path: &str) -> bool
    ensures { result ≡ has_dots path.now }
{
    path.split('/').any(|part| is_dot_or_two(part))
}
