// Parts of URIs and of references (RFC 3986, sections 3 and 4).
ghost use Rattle.std.specs.Prelude.{◌≡◌, ◌++◌, IfOk, OnOk, string_bytes};
ghost use Rattle.std.specs.List.{before_first, list_all};
ghost use Rattle.std.specs.Option.{option_copied};
ghost use Rattle.rn_files.specs.Paths.{is_slash};
ghost use Rattle.rn_files.specs.Uris.{authority_of, authority_text, behind_authority, behind_scheme, behind_slashes, from_slash, is_scheme, is_scheme_byte, parts_of, recomposed_uri, scheme_of, scheme_text};
ghost use Rattle.rn_files.specs.inside.Uris.{parts_view};

use std::alloc::{AllocError, Global};

/// A URI or a reference, cut into its parts (RFC 3986); it has neither a query nor a fragment.
#[derive(Clone, Copy)]
pub struct SplitUri<'a> {
    /// What stands before the colon (RFC 3986, section 3.1).
    pub scheme: Option<&'a str>,
    /// What stands between two slashes and the next one (RFC 3986, section 3.2); it may be empty.
    pub authority: Option<&'a str>,
    /// The path: what is left behind the scheme and the authority (RFC 3986, section 3.3).
    pub path: &'a str,
}

/// Whether a byte may stand in a scheme.
fn is_scheme_byte(byte: u8) -> bool
    ensures { result ≡ is_scheme_byte byte }
{
    byte.is_ascii_alphanumeric() || matches!(byte, b'+' | b'-' | b'.')
}

/// Whether all bytes may stand in a scheme.
fn are_scheme_bytes(bytes: &[u8]) -> bool
    ensures { result ≡ list_all is_scheme_byte bytes.now }
{
    bytes.iter().all(|byte| is_scheme_byte(*byte))
}

/// Whether the bytes are a scheme: a letter, and then letters, digits, `+`, `-` and `.` (RFC 3986, section 3.1).
fn is_scheme(bytes: &[u8]) -> bool
    ensures { result ≡ is_scheme bytes.now }
{
    match bytes {
        [first, rest @ ..] => first.is_ascii_alphabetic() && are_scheme_bytes(rest),
        [] => false,
    }
}

/// The scheme, if there is one, and what comes behind its colon.
fn split_scheme(text: &str) -> (Option<&str>, &str)
    ensures scheme { option_copied result.0 ≡ scheme_of text.now }
    ensures rest { result.1.now ≡ behind_scheme text.now }
{
    let Some((scheme, rest)) = text.split_once(':') else {
        return (None, text);
    };
    if is_scheme(scheme.as_bytes()) {
        (Some(scheme), rest)
    } else {
        (None, text)
    }
}

/// What comes behind two slashes.
fn behind_slashes(text: &str) -> Option<&str>
    ensures { option_copied result ≡ behind_slashes text.now }
{
    text.strip_prefix("//")
}

/// The text up to its first slash, and from there on.
fn split_at_slash(text: &str) -> (&str, &str)
    ensures before { result.0.now ≡ before_first is_slash text.now }
    ensures from { result.1.now ≡ from_slash text.now }
{
    match text.find('/') {
        Some(at) => (&text[..at], &text[at..]),
        None => (text, ""),
    }
}

/// The authority behind two slashes, if there is one, and the path.
fn split_authority(text: &str) -> (Option<&str>, &str)
    ensures authority { option_copied result.0 ≡ authority_of text.now }
    ensures path { result.1.now ≡ behind_authority text.now }
{
    match behind_slashes(text) {
        Some(rest) => {
            let (authority, path) = split_at_slash(rest);
            (Some(authority), path)
        }
        None => (None, text),
    }
}

/// The parts of a URI or of a reference without query and fragment.
pub fn split(text: &str) -> SplitUri<'_>
    ensures { parts_view result ≡ parts_of text.now }
{
    let (scheme, rest) = split_scheme(text);
    let (authority, path) = split_authority(rest);
    SplitUri {
        scheme,
        authority,
        path,
    }
}

/// Adds a scheme and its colon.
fn push_scheme(out: &mut String, scheme: Option<&str>) -> Result<(), AllocError>
    ensures { OnOk result (string_bytes out.new
        ≡ string_bytes out.old ++ scheme_text (option_copied scheme.entry)) }
{
    if let Some(scheme) = scheme {
        out.push_str(scheme)?;
        out.push_str(":")?;
    }
    Ok(())
}

/// Adds two slashes and an authority.
fn push_authority(out: &mut String, authority: Option<&str>) -> Result<(), AllocError>
    ensures { OnOk result (string_bytes out.new
        ≡ string_bytes out.old ++ authority_text (option_copied authority.entry)) }
{
    if let Some(authority) = authority {
        out.push_str("//")?;
        out.push_str(authority)?;
    }
    Ok(())
}

/// The text of parts (RFC 3986, section 5.3).
pub fn recompose(alloc: Global, parts: &SplitUri<'_>) -> Result<String, AllocError>
    ensures { IfOk result (λ text. string_bytes text ≡ recomposed_uri (parts_view parts.now)) }
{
    let mut out = String::new(alloc);
    push_scheme(&mut out, parts.scheme)?;
    push_authority(&mut out, parts.authority)?;
    out.push_str(parts.path)?;
    Ok(out)
}
