// Short texts in the place of URIs while the modules of a set are put together.
ghost use Rattle.std.specs.Prelude.{◌≡◌, ◌↔◌, ◌<◌, ◌^◌, [], length, IfOk, IsTrue, MatchOption, None, Some, string_bytes};
ghost use Rattle.std.specs.Map.{lookup};
ghost use Rattle.std.specs.Str.{bytes_eq};
ghost use Rattle.rn_text.specs.Texts.{text_cmp};
ghost use Rattle.rn_assemble.specs.ShortTexts.{IsTable, ShortsAscend, front_of, listed_texts, long_uri, short_entry, short_list, short_text_of, short_texts};
ghost use Rattle.rn_assemble.specs.inside.Covered.{short_of};
ghost use Rattle.rn_assemble.specs.inside.Views.{texts_of};

use rn_pattern::XMLNS_URI;
use rn_syntax::{XML_URI, XSD_URI};
use std::alloc::{AllocError, Global};
use std::cmp::Ordering;
use std::collections::BTreeSet;

/// The most bytes of a URI that isn't long. Where no module of a set declares a long one, each URI keeps its own text
/// while the modules are put together; where one does, none does but those that mean something by themselves.
pub const MAX_KEPT_URI: usize = 64;

/// A URI, and its short text.
#[derive(Drop)]
pub(crate) struct ShortUri {
    pub short: String,
    pub uri: String,
}

/// Short texts in the place of URIs while the modules of a set are put together: of two URIs the lesser has the lesser
/// text. So whoever compares two of them reads few bytes, however long the URIs are and however many names are in them.
#[derive(Drop)]
pub struct ShortUris {
    pub(crate) list: Vec<ShortUri>,
}

impl ShortUris {
    /// No texts: each URI is kept. It takes no memory.
    pub fn none(alloc: Global) -> ShortUris
        ensures { short_texts result ≡ [] }
    {
        ShortUris {
            list: Vec::new(alloc),
        }
    }

    /// Whether there are no short texts, so that each URI is kept.
    pub(crate) fn is_empty(&self) -> bool
        ensures { IsTrue result ↔ (short_texts self.now ≡ []) }
    {
        self.list.is_empty()
    }

    /// The URI of a short text; the text itself if it is none of the short ones.
    pub fn uri<'u>(&'u self, text: &'u str) -> &'u str
        requires { IsTable (short_texts self.now) }
        ensures { result.now ≡ long_uri (short_texts self.now) text.now }
    {
        match find_short(&self.list, text) {
            Some(entry) => entry.uri.as_str(),
            None => text,
        }
    }

    /// The short text of a URI, if it has one.
    pub(crate) fn short_text(&self, uri: &str) -> Option<&str>
        requires { IsTable (short_texts self.now) }
        ensures { MatchOption result (short_of (short_texts self.now) uri.now ≡ None)
            (λ s. short_of (short_texts self.now) uri.now ≡ Some s.now) }
    {
        let compare = |entry: &ShortUri| -> Ordering
            ensures { result ≡ text_cmp (string_bytes entry.now.uri) uri.entry.now }
        { entry.uri.as_str().cmp(uri) };
        match self.list.binary_search_by(compare) {
            Ok(at) => Some(self.list[at].short.as_str()),
            Err(_) => None,
        }
    }

    /// Short texts for these URIs, which are numbered in their order.
    pub(crate) fn of(alloc: Global, uris: BTreeSet<&str>) -> Result<ShortUris, AllocError>
        ensures texts { IfOk result (λ s. short_texts s ≡ short_list 0 (texts_of uris.entry.keys)) }
        ensures few { IfOk result (λ s. length (short_texts s) < 2 ^ 64) }
    {
        let mut list = Vec::with_capacity(alloc, uris.len())?;
        for uri in uris {
            let short = short_uri(alloc, uri, list.len())?;
            list.push(short)?;
        }
        Ok(ShortUris { list })
    }
}

/// The entry with a short text.
fn find_short<'l>(list: &'l [ShortUri], short: &str) -> Option<&'l ShortUri>
    requires { ShortsAscend (listed_texts list.now) }
    ensures { MatchOption result (lookup (bytes_eq short.now) (listed_texts list.now) ≡ None)
        (λ e. lookup (bytes_eq short.now) (listed_texts list.now)
        ≡ Some (string_bytes e.now.uri)) }
{
    let compare = |entry: &ShortUri| -> Ordering
        ensures { result ≡ text_cmp (string_bytes entry.now.short) short.entry.now }
    { entry.short.as_str().cmp(short) };
    match list.binary_search_by(compare) {
        Ok(at) => Some(&list[at]),
        Err(_) => None,
    }
}

/// The URI of a number with its short text.
fn short_uri(alloc: Global, uri: &str, number: usize) -> Result<ShortUri, AllocError>
    ensures { IfOk result (λ e. short_entry e ≡ (short_text_of number uri.now, uri.now)) }
{
    Ok(ShortUri {
        short: short_text(alloc, uri, number)?,
        uri: String::from_str(alloc, uri)?,
    })
}

/// The short text of the URI of a number: a URI that means something by itself, or the greatest of these that is below
/// the URI, with the number behind it.
fn short_text(alloc: Global, uri: &str, number: usize) -> Result<String, AllocError>
    ensures { IfOk result (λ s. string_bytes s ≡ short_text_of number uri.now) }
{
    let front = front_of(uri);
    let mut text = String::from_str(alloc, front)?;
    if uri == front {
        return Ok(text);
    }
    text.push_str(&hex::encode(alloc, number.to_be_bytes())?)?;
    Ok(text)
}

/// The greatest of the URIs that mean something by themselves that isn't above a URI: that of `xml`, of `xsd`, of
/// declarations, or no namespace.
fn front_of(uri: &str) -> &'static str
    ensures { result.now ≡ front_of uri.now }
{
    if XML_URI <= uri {
        XML_URI
    } else if XSD_URI <= uri {
        XSD_URI
    } else if XMLNS_URI <= uri {
        XMLNS_URI
    } else {
        ""
    }
}
