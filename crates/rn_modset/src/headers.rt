// The header lines of a bundle's entries.
ghost use Rattle.std.specs.Prelude.{◌≡◌, ◌++◌, ◌∷◌, Bool, true, false, codes, IsTrue, ◌↔◌, MatchOption};
ghost use Rattle.std.specs.List.{list_all};
ghost use Rattle.rn_modset.specs.Contributions.{is_module_name};
ghost use Rattle.rn_modset.specs.Bundles.{header_line};
ghost use Rattle.rn_modset.specs.BundleGrammar.{IsDigest, is_lower_hex};
ghost use Rattle.rn_modset.specs.inside.Headers.{header_view, MayStand, IsNoHeader, AreNoTextFields, IsNoWithdrawalField};

use crate::contribution::{MAX_TEXT, is_module_name};
use crate::fields::{parse_decimal, split_at_byte};

/// What a header line says.
#[derive(Clone, Copy)]
pub enum HeaderLine<'a> {
    /// `module NAME REV LEN SHA256`: a text follows the line.
    Text {
        /// The module's name.
        name: &'a str,
        /// The module's revision.
        revision: u64,
        /// How many bytes the text has, at most `MAX_TEXT`.
        len: usize,
        /// The 64 digits of the text's digest.
        digest: &'a [u8],
    },
    /// `withdrawn NAME REV`: nothing follows the line.
    Withdrawal {
        /// The module's name.
        name: &'a str,
        /// The revision that withdraws the module.
        revision: u64,
    },
}

/// What the line says, if it is a header within the limits; that of a withdrawal counts only where withdrawals may
/// stand.
pub fn header(line: &[u8], withdrawals: bool) -> Option<HeaderLine<'_>>
    ensures { MatchOption result (IsNoHeader withdrawals line.now)
        (λ h. (line.now ≡ header_line (header_view h)) × MayStand withdrawals (header_view h)) }
{
    let (kind, fields) = split_at_byte(line, b' ')?;
    let (name, fields) = split_at_byte(fields, b' ')?;
    let name = module_name(name)?;
    if kind == b"module".as_slice() {
        return text_header(name, fields);
    }
    if kind == b"withdrawn".as_slice() && withdrawals {
        return withdrawal_header(name, fields);
    }
    None
}

fn module_name(bytes: &[u8]) -> Option<&str>
    ensures { MatchOption result (is_module_name bytes.now ≡ false)
        (λ name. (name.now ≡ bytes.now) × (is_module_name name.now ≡ true)) }
{
    match std::str::from_utf8(bytes) {
        Ok(name) => is_module_name(name).then_some(name),
        Err(_) => None,
    }
}

/// The header of a text of that name, from its other fields.
fn text_header<'a>(name: &'a str, fields: &'a [u8]) -> Option<HeaderLine<'a>>
    requires { is_module_name name.now ≡ true }
    ensures { MatchOption result (AreNoTextFields fields.now)
        (λ h. (codes "module" ++ 32 ∷ (name.now ++ 32 ∷ fields.now) ≡ header_line (header_view h))
        × ((withdrawals : Bool) → MayStand withdrawals (header_view h))) }
{
    let (revision, fields) = split_at_byte(fields, b' ')?;
    let (len, digest) = split_at_byte(fields, b' ')?;
    let revision = parse_decimal(revision)?;
    let len = parse_decimal(len)?;
    if len > MAX_TEXT as u64 || !is_digest(digest) {
        return None;
    }
    Some(HeaderLine::Text {
        name,
        revision,
        len: len as usize,
        digest,
    })
}

/// The header of a withdrawal of that name, from its other field.
fn withdrawal_header<'a>(name: &'a str, field: &'a [u8]) -> Option<HeaderLine<'a>>
    requires { is_module_name name.now ≡ true }
    ensures { MatchOption result (IsNoWithdrawalField field.now)
        (λ h. (codes "withdrawn" ++ 32 ∷ (name.now ++ 32 ∷ field.now) ≡ header_line (header_view h))
        × MayStand true (header_view h)) }
{
    let revision = parse_decimal(field)?;
    Some(HeaderLine::Withdrawal { name, revision })
}

/// Whether these are the 64 digits of a digest.
fn is_digest(digits: &[u8]) -> bool
    ensures { IsTrue result ↔ IsDigest digits.now }
{
    digits.len() == 64 && are_lower_hex(digits)
}

fn are_lower_hex(digits: &[u8]) -> bool
    ensures { result ≡ list_all is_lower_hex digits.now }
{
    digits.iter().all(|c| is_lower_hex(*c))
}

fn is_lower_hex(byte: u8) -> bool
    ensures { result ≡ is_lower_hex byte }
{
    matches!(byte, b'0'..=b'9' | b'a'..=b'f')
}
