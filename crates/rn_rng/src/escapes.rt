// References for characters that XML reads as something else (XML 1.0 Fifth Edition, 2.4, 2.11 and 3.3.3).
ghost use Rattle.std.specs.Prelude.{◌≡◌, ◌<◌, ◌∷◌, [], MatchOption};
ghost use Rattle.std.specs.List.{list_all};
ghost use Rattle.rn_rng.specs.Layout as layout;
ghost use Rattle.rn_rng.specs.inside.Views.{holder_view, is_plain_byte};

/// What holds a text: an element, or an attribute between double quotes.
#[derive(Clone, Copy, PartialEq, Eq)]
pub(crate) enum Holder {
    Element,
    Attribute,
}

impl Holder {
    /// The reference for a character that cannot be written as it is.
    pub fn reference(self, c: char) -> Option<&'static str>
        ensures { MatchOption result (layout.reference (holder_view self) c ≡ c ∷ [])
            (λ r. (c < 128) × (r.now ≡ layout.reference (holder_view self) c)) }
    {
        match c {
            '&' => Some("&amp;"),
            '<' => Some("&lt;"),
            '>' => Some("&gt;"),
            '"' => self.quote_reference(),
            '\t' => Some("&#x9;"),
            '\n' => Some("&#xA;"),
            '\r' => Some("&#xD;"),
            _ => None,
        }
    }

    /// The reference for a double quote.
    fn quote_reference(self) -> Option<&'static str>
        ensures { MatchOption result (layout.quote_reference (holder_view self) ≡ 34 ∷ [])
            (λ r. r.now ≡ layout.quote_reference (holder_view self)) }
    {
        match self {
            Holder::Element => None,
            Holder::Attribute => Some("&quot;"),
        }
    }
}

/// Whether no byte of the text may need a reference.
pub(crate) fn is_plain(text: &str) -> bool
    ensures { result ≡ list_all is_plain_byte text.now }
{
    text.as_bytes().iter().all(|b| is_plain_byte(*b))
}

/// Whether the byte needs no reference, wherever it is.
fn is_plain_byte(b: u8) -> bool
    ensures { result ≡ is_plain_byte b }
{
    !matches!(b, b'&' | b'<' | b'>' | b'"' | b'\t' | b'\n' | b'\r')
}
