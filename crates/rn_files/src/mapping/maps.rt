// Maps of URIs, as words and catalogs give them, and the one that counts for a URI.
ghost use Rattle.std.specs.Prelude.{◌≡◌, ◌==◌, MatchOption, IfOk, IfSome, codes, nat_eq, slice_index, string_bytes};
ghost use Rattle.std.specs.List.{ends_with};
ghost use Rattle.std.specs.Option.{option_copied, option_map};
ghost use Rattle.rn_files.specs.Maps.{HasNoMap, HasNoMapIn, IsFolderOf, IsFound, IsFoundFolder, IsLongest, ahead, behind, behind_prefix, is_whole, left_by, rest_of_whole};
ghost use Rattle.rn_files.specs.inside.Maps.{chosen};

use std::alloc::{AllocError, Global};

/// What of a URI a map speaks of.
#[derive(Clone, Copy, Debug, PartialEq, Eq)]
pub enum UriPart {
    /// Its front. What comes behind it in the URI is kept.
    Front,
    /// All of it.
    Whole,
    /// Its end.
    End,
}

/// A folder, and what is put behind it.
#[derive(Clone, Debug, Drop, PartialEq, Eq)]
pub struct MapPlace {
    /// The path of the folder. What the map finds lies below it.
    pub folder: String,
    /// The front of the path below it; all of that but for what is kept of a URI.
    pub stem: String,
}

/// Where a map leads.
#[derive(Clone, Debug, Drop, PartialEq, Eq)]
pub enum MapTarget {
    /// To files.
    Files(MapPlace),
    /// To the URI that begins so, which is no file's.
    Elsewhere(String),
    /// To this other catalog, which alone is to know.
    Delegated(String),
}

/// Where URIs lie that have such a part.
#[derive(Clone, Debug, Drop, PartialEq, Eq)]
pub struct Map {
    /// Which part of a URI it is.
    pub part: UriPart,
    /// The part, as it is spelled in the URI.
    pub text: String,
    /// Where they lie.
    pub target: MapTarget,
}

impl Map {
    ghost use Rattle.rn_files.specs.Maps.{IsFolderOf};

    /// The map of the URIs that begin with the prefix to what lies below the folder.
    pub fn below(alloc: Global, prefix: &str, folder: &str) -> Result<Map, AllocError>
        ensures part { IfOk result (λ m. m.part ≡ UriPart.Front) }
        ensures text { IfOk result (λ m. string_bytes m.text ≡ prefix.now) }
        ensures folder { IfOk result (λ m. IsFolderOf m.target folder.now) }
    {
        let place = MapPlace {
            folder: String::from_str(alloc, folder)?,
            stem: String::new(alloc),
        };
        Ok(Map {
            part: UriPart::Front,
            text: String::from_str(alloc, prefix)?,
            target: MapTarget::Files(place),
        })
    }
}

/// Whether a text begins with a slash.
fn begins_with_slash(text: &str) -> bool
    ensures { result ≡ (slice_index text.now 0 == 47) }
{
    text.starts_with('/')
}

/// Whether a text ends with a slash.
pub fn ends_with_slash(text: &str) -> bool
    ensures { result ≡ ends_with nat_eq text.now (codes "/") }
{
    text.ends_with("/")
}

/// Whether what is left behind a prefix begins where a segment ends.
pub fn is_whole(prefix: &str, rest: &str) -> bool
    ensures { result ≡ is_whole prefix.now rest.now }
{
    rest.is_empty() || begins_with_slash(rest) || ends_with_slash(prefix)
}

/// What comes behind the prefix of a URI.
fn rest_behind<'u>(uri: &'u str, prefix: &str) -> Option<&'u str>
    ensures { option_copied result ≡ behind uri.now prefix.now }
{
    uri.strip_prefix(prefix)
}

/// What comes behind the prefix of a URI, by whole segments.
pub fn behind_prefix<'u>(uri: &'u str, prefix: &str) -> Option<&'u str>
    ensures { option_copied result ≡ behind_prefix uri.now prefix.now }
{
    match rest_behind(uri, prefix) {
        Some(rest) => {
            if is_whole(prefix, rest) {
                Some(rest)
            } else {
                None
            }
        }
        None => None,
    }
}

/// What comes before the end of a URI.
fn rest_ahead<'u>(uri: &'u str, end: &str) -> Option<&'u str>
    ensures { option_copied result ≡ ahead uri.now end.now }
{
    uri.strip_suffix(end)
}

/// What is left where a URI is this text: nothing.
fn rest_of_whole(uri: &str, text: &str) -> Option<&'static str>
    ensures { option_copied result ≡ rest_of_whole uri.now text.now }
{
    if uri == text { Some("") } else { None }
}

/// What a map leaves of a URI that has its part.
fn left_by<'u>(map: &Map, uri: &'u str) -> Option<&'u str>
    ensures { option_copied result ≡ left_by uri.now map.now }
{
    let text = map.text.as_str();
    match map.part {
        UriPart::Front => rest_behind(uri, text),
        UriPart::Whole => rest_of_whole(uri, text),
        UriPart::End => rest_ahead(uri, text),
    }
}

/// Of two maps with what they leave of a URI, the one that leaves less; the first of equals.
fn choose<'m, 'u>(
    best: Option<(&'m Map, &'u str)>,
    map: &'m Map,
    rest: Option<&'u str>,
) -> Option<(&'m Map, &'u str)>
    ensures { option_map (λ b. (b.0.now, b.1.now)) result
        ≡ chosen (option_map (λ b. (b.0.now, b.1.now)) best.entry) map.now
        (option_copied rest.entry) }
{
    let Some(rest) = rest else {
        return best;
    };
    match best {
        Some((first, least)) => {
            if rest.len() < least.len() {
                Some((map, rest))
            } else {
                Some((first, least))
            }
        }
        None => Some((map, rest)),
    }
}

/// The map that leaves least of the URI, the first of them among equals, and what it leaves.
fn longest<'m, 'u>(maps: &'m [Map], uri: &'u str) -> Option<(&'m Map, &'u str)>
    ensures { MatchOption result (HasNoMap maps.now uri.now)
        (λ b. IsLongest maps.now uri.now b.0.now b.1.now) }
{
    let mut best: Option<(&'m Map, &'u str)> = None;
    for map in maps {
        let rest = left_by(map, uri);
        best = choose(best, map, rest);
    }
    best
}

/// The map that finds a URI, and what it leaves of it: of the first group that has such a map, the one that leaves least
/// (XML Catalogs 1.1, 7.2.2: the longest match).
pub fn found_map<'m, 'u>(groups: &'m [Vec<Map>], uri: &'u str) -> Option<(&'m Map, &'u str)>
    ensures { MatchOption result (HasNoMapIn groups.now uri.now)
        (λ b. IsFound groups.now uri.now b.0.now b.1.now) }
{
    let mut rest = groups;
    while let [group, others @ ..] = rest {
        if let Some(found) = longest(group.as_slice(), uri) {
            return Some(found);
        }
        rest = others;
    }
    None
}

/// The folder of the map that finds a URI; `None` where no map does, or where it leads to no files.
pub fn found_folder<'m>(groups: &'m [Vec<Map>], uri: &str) -> Option<&'m str>
    ensures { IfSome result (λ folder. IsFoundFolder groups.now uri.now folder.now) }
{
    match found_map(groups, uri) {
        Some((map, _)) => folder_of(map),
        None => None,
    }
}

/// The folder below which all lies that a map finds; `None` where it leads to no files.
fn folder_of(map: &Map) -> Option<&str>
    ensures { IfSome result (λ folder. IsFolderOf map.now.target folder.now) }
{
    match &map.target {
        MapTarget::Files(place) => Some(place.folder.as_str()),
        MapTarget::Elsewhere(_) | MapTarget::Delegated(_) => None,
    }
}
