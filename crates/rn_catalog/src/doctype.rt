// Document type declarations that name no more than an external subset (XML 1.0 Fifth Edition, 2.8).
ghost use Rattle.std.specs.Prelude.{◌≡◌, ◌++◌, codes, length, IfOk, IfSome, string_bytes};
ghost use Rattle.std.specs.List.{repeat};
ghost use Rattle.rn_catalog.specs.Doctypes.{IsBlanked};

use std::alloc::{AllocError, Global};

/// Whether a character is white space (XML 1.0, production 3).
fn is_white(c: char) -> bool {
    matches!(c, ' ' | '\t' | '\n' | '\r')
}

/// What follows the white space at the front; `None` where there is none.
fn after_space(text: &str) -> Option<&str> {
    let rest = text.trim_start_matches(is_white);
    if rest.len() < text.len() {
        Some(rest)
    } else {
        None
    }
}

/// What follows a literal in quotes at the front (XML 1.0, productions 11 and 12).
fn after_literal(text: &str) -> Option<&str> {
    let (_, rest) = match text.strip_prefix('"') {
        Some(inside) => inside.split_once('"')?,
        None => text.strip_prefix('\'')?.split_once('\'')?,
    };
    Some(rest)
}

/// What follows an external identifier at the front (XML 1.0, production 75).
fn after_external(text: &str) -> Option<&str> {
    match text.strip_prefix("SYSTEM") {
        Some(rest) => after_literal(after_space(rest)?),
        None => {
            let public = after_literal(after_space(text.strip_prefix("PUBLIC")?)?)?;
            after_literal(after_space(public)?)
        }
    }
}

/// What follows a name at the front: all up to white space or the end of the declaration.
fn after_name(text: &str) -> &str {
    text.trim_start_matches(is_of_name)
}

/// Whether a character ends no name in a declaration.
fn is_of_name(c: char) -> bool {
    !is_white(c) && !matches!(c, '>' | '[')
}

/// What follows a document type declaration at the front that has an external identifier or none, and no declarations of
/// its own (XML 1.0, production 28).
fn after_doctype(text: &str) -> Option<&str> {
    let named = after_name(after_space(text.strip_prefix("<!DOCTYPE")?)?);
    let rest = match after_space(named) {
        Some(identifier) => after_external(identifier).unwrap_or(identifier),
        None => named,
    };
    rest.trim_start_matches(is_white).strip_prefix('>')
}

/// What follows the comment, the processing instruction or the XML declaration at the front, if one is there.
fn after_remark(text: &str) -> Option<&str> {
    let (_, rest) = match text.strip_prefix("<!--") {
        Some(inside) => inside.split_once("-->")?,
        None => text.strip_prefix("<?")?.split_once("?>")?,
    };
    Some(rest)
}

/// What follows the comments, processing instructions and white space at the front (XML 1.0, productions 22 and 27).
fn after_remarks(text: &str) -> &str {
    let mut rest = text.trim_start_matches(is_white);
    for _ in 0..u64::MAX {
        let Some(after) = after_remark(rest) else {
            break;
        };
        rest = after.trim_start_matches(is_white);
    }
    rest
}

/// What comes before the end of a text, if it ends so.
fn before<'t>(text: &'t str, last: &str) -> Option<&'t str>
    ensures { IfSome result (λ front. text.now ≡ front.now ++ last.now) }
{
    text.strip_suffix(last)
}

/// Three texts one behind the other, with a space in place of each byte of the second.
fn blanked(alloc: Global, front: &str, part: &str, rest: &str) -> Result<String, AllocError>
    ensures { IfOk result (λ text. string_bytes text
        ≡ front.now ++ (repeat (length part.now) (codes " ") ++ rest.now)) }
{
    let spaces = " ".repeat(alloc, part.len())?;
    let mut out = String::from_str(alloc, front)?;
    out.push_str(spaces.as_str())?;
    out.push_str(rest)?;
    Ok(out)
}

/// The text with spaces in place of its document type declaration, so that all else has the place that it had. `None`
/// where it has none, or one with declarations of its own. Nothing of the external subset is read, as a processor that
/// doesn't validate may do (XML 1.0, 5.1), so no attribute has a default value. Refused only for want of memory.
pub fn without_doctype(alloc: Global, text: &str) -> Result<Option<String>, AllocError>
    ensures { IfOk result (λ found. IfSome found (λ new. IsBlanked text.now (string_bytes new))) }
{
    let declaration = after_remarks(text);
    let Some(rest) = after_doctype(declaration) else {
        return Ok(None);
    };
    let Some(front) = before(text, declaration) else {
        return Ok(None);
    };
    let Some(part) = before(declaration, rest) else {
        return Ok(None);
    };
    let new = blanked(alloc, front, part, rest)?;
    Ok(Some(new))
}
