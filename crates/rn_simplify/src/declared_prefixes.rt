// The prefixes of namespaces and datatype libraries, and their declarations (compact syntax, section 2, decl).
ghost use Rattle.std.specs.Prelude.{◌≡◌, ◌∷◌, [], codes, filter, map, string_bytes, IfOk};
ghost use Rattle.std.specs.Str.{encode_utf8_all};
ghost use Rattle.rn_simplify.specs.Spelling.{bindings, has_empty_ns_name, library_prefix, namespace_prefix, place, prefixes, type_piece, bound_to, empty_entries, entries, is_other};
ghost use Rattle.rn_assemble.specs.ShortTexts.{IsTable, long_uri, short_texts};
ghost use Rattle.rn_simplify.specs.NormalView.{normal_view};
ghost use Rattle.rn_simplify.specs.inside.Writes.{declaration_lines, prefixes_view, Writes, WritesBytes, none};

use crate::mentions::Mentions;
use crate::normal::Normal;
use crate::writer::Writer;
use indexmap::IndexSet;
use rn_assemble::ShortUris;
use rn_pattern::Seed;
use rn_syntax::{XML_URI, XSD_URI};
use sha2::{Digest, Sha256};
use std::alloc::{AllocError, Global};
use std::collections::BTreeSet;

/// The texts without the empty one and the one that has a prefix of its own, in the order of their bytes.
fn declared_texts(
    alloc: Global,
    texts: &BTreeSet<String>,
    known: &str,
) -> Result<IndexSet<String, Seed>, AllocError>
    ensures { IfOk result (λ r. map (λ u. string_bytes u) r.keys
        ≡ filter (is_other known.now) (map (λ u. string_bytes u) texts.now.keys)) }
{
    let mut rest = IndexSet::with_hasher(alloc, seed_of(texts));
    for text in texts {
        if !text.is_empty() && text.as_str() != known {
            rest.insert(text.clone()?)?;
        }
    }
    Ok(rest)
}

/// A seed that depends on each of the texts, so that nobody can choose texts for it.
fn seed_of(texts: &BTreeSet<String>) -> Seed {
    let mut digest = Sha256::new();
    for text in texts {
        digest.update(text.as_bytes());
        digest.update(b"\xff");
    }
    Seed::of(&digest.finalize())
}

/// Up to so many texts are compared one by one: mostly their lengths differ, while a hash takes all bytes.
const FEW_TEXTS: usize = 64;

/// The rank of a text, counted from 1; how many texts there are if it isn't there.
fn place_of(texts: &IndexSet<String, Seed>, text: &str) -> usize
    ensures { result ≡ place text.now (map (λ u. string_bytes u) texts.now.keys) }
{
    let count = texts.len();
    if count <= FEW_TEXTS {
        return place_among(texts.as_slice(), text);
    }
    match texts.get_index_of(text) {
        Some(i) => i + 1,
        None => count,
    }
}

/// The rank of a text among few, counted from 1; how many there are if it isn't there.
fn place_among(texts: &[String], text: &str) -> usize
    ensures { result ≡ place text.now (map (λ u. string_bytes u) texts.now) }
{
    for index in 0..texts.len() {
        if text == texts[index].as_str() {
            return index + 1;
        }
    }
    texts.len()
}

/// The prefixes of a grammar: `n1`, `n2` and so on for the namespaces, `d1`, `d2` and so on for the libraries.
#[derive(Drop)]
pub(crate) struct Prefixes {
    pub(crate) namespaces: IndexSet<String, Seed>,
    pub(crate) libraries: IndexSet<String, Seed>,
    /// Whether the empty namespace has a prefix, which is `n0`: it has one where an nsName needs it.
    pub(crate) empty_namespace: bool,
}

impl Prefixes {
    /// The prefixes of what the grammar mentions.
    pub(crate) fn of(alloc: Global, normal: &Normal) -> Result<Prefixes, AllocError>
        ensures prefixes { IfOk result (λ f. prefixes_view f ≡ prefixes (normal_view normal.now)) }
        ensures empty { IfOk result (λ f. f.empty_namespace
            ≡ has_empty_ns_name (normal_view normal.now)) }
    {
        let mentions = Mentions::of(alloc, &normal.start, &normal.defs)?;
        Ok(Prefixes {
            namespaces: declared_texts(alloc, &mentions.namespaces, XML_URI)?,
            libraries: declared_texts(alloc, &mentions.libraries, XSD_URI)?,
            empty_namespace: mentions.has_empty_ns_name,
        })
    }

    /// Writes the prefix of a namespace.
    pub(crate) fn write_namespace(&self, writer: &mut Writer, uri: &str)
        ensures { WritesBytes (encode_utf8_all
            (namespace_prefix (prefixes_view self.now) uri.now)) none writer.old writer.new }
    {
        if uri.is_empty() {
            writer.put("n0");
        } else if uri == XML_URI {
            writer.put("xml");
        } else {
            writer.put("n");
            writer.put_number(place_of(&self.namespaces, uri));
        }
    }

    /// Writes the prefix of a datatype library.
    pub(crate) fn write_library(&self, writer: &mut Writer, uri: &str)
        ensures { WritesBytes (encode_utf8_all
            (library_prefix (prefixes_view self.now) uri.now)) none writer.old writer.new }
    {
        if uri == XSD_URI {
            writer.put("xsd");
        } else {
            writer.put("d");
            writer.put_number(place_of(&self.libraries, uri));
        }
    }

    /// Writes a datatype's name, after the prefix of its library unless that is the empty one.
    pub(crate) fn write_type(&self, writer: &mut Writer, library: &str, type_name: &str)
        ensures { Writes (type_piece (prefixes_view self.now) library.now type_name.now ∷ [])
            writer.old writer.new }
    {
        if !library.is_empty() {
            self.write_library(writer, library);
            writer.put(":");
        }
        writer.put(type_name);
    }

    /// Writes the declarations, one a line, with the URIs that the texts replace.
    pub(crate) fn write_declarations(&self, writer: &mut Writer, uris: &ShortUris)
        requires { IsTable (short_texts uris.now) }
        ensures { Writes (declaration_lines (long_uri (short_texts uris.now))
            (prefixes_view self.now) self.now.empty_namespace) writer.old writer.new }
    {
        writer.put("default namespace = \"\"\n");
        self.write_empty_namespace(writer);
        self.write_namespaces(writer, uris);
        self.write_libraries(writer, uris);
    }

    fn write_empty_namespace(&self, writer: &mut Writer)
        ensures { Writes (bindings (codes "namespace")
            (empty_entries self.now.empty_namespace)) writer.old writer.new }
    {
        if self.empty_namespace {
            writer.put("namespace n0 = \"\"\n");
        }
    }

    fn write_namespaces(&self, writer: &mut Writer, uris: &ShortUris)
        requires { IsTable (short_texts uris.now) }
        ensures { let f = prefixes_view self.now in Writes (bindings (codes "namespace")
            (entries (long_uri (short_texts uris.now)) (namespace_prefix f) f.namespaces))
            writer.old writer.new }
    {
        for uri in self.namespaces.as_slice() {
            writer.put("namespace ");
            self.write_namespace(writer, uri);
            write_bound(writer, uris.uri(uri));
        }
    }

    fn write_libraries(&self, writer: &mut Writer, uris: &ShortUris)
        requires { IsTable (short_texts uris.now) }
        ensures { let f = prefixes_view self.now in Writes (bindings (codes "datatypes")
            (entries (long_uri (short_texts uris.now)) (library_prefix f) f.libraries))
            writer.old writer.new }
    {
        for uri in self.libraries.as_slice() {
            writer.put("datatypes ");
            self.write_library(writer, uri);
            write_bound(writer, uris.uri(uri));
        }
    }
}

/// Writes what a prefix is bound to, and the end of the line.
fn write_bound(writer: &mut Writer, uri: &str)
    ensures { Writes (bound_to uri.now) writer.old writer.new }
{
    writer.put(" = ");
    writer.put_literal(uri);
    writer.put("\n");
}
