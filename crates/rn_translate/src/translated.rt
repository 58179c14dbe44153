// A compact text that was made of a document.
ghost use Rattle.std.specs.Prelude.{◌≡◌};
ghost use Rattle.rn_translate.specs.Origins.{AreInOrder, AreInOrder-prop, origin_of};

use crate::draft::Origin;

/// Where the bytes of a compact text come from.
#[derive(Debug, Drop, PartialEq, Eq)]
pub struct Origins {
    /// The origins, in the order of their `from`, of which no two are equal. The first piece begins with the text.
    pub items: Vec<Origin>,
    ghost in_order: { AreInOrder 0 items.items } by { AreInOrder-prop _ _ },
}

/// The byte that the last of these pieces that begins at a byte or before it was made for; 0 if none does.
fn origin_among(origins: &[Origin], at: usize) -> usize
    requires { AreInOrder 0 origins.now }
    ensures { result ≡ origin_of origins.now at }
{
    let begun = origins.partition_point(|origin| origin.from <= at);
    match begun.checked_sub(1) {
        Some(last) => origins[last].at,
        None => 0,
    }
}

impl Origins {
    /// The byte of the document's text that a byte of the compact text was made for: that of the last piece that begins
    /// at the byte or before it. It is looked for by halving.
    pub fn origin(&self, at: usize) -> usize
        ensures { result ≡ origin_of self.now.items.items at }
    {
        origin_among(self.items.as_slice(), at)
    }
}

/// A schema in the compact syntax that was made of a document.
#[derive(Debug, Drop, PartialEq, Eq)]
pub struct Translated {
    /// The text.
    pub text: String,
    /// Where its bytes come from.
    pub origins: Origins,
}
