// What every set has without a declaration: URIs of names and types, and the patterns without content.
ghost use Rattle.std.specs.Prelude.{◌≡◌, [], IfOk};
ghost use Rattle.std.specs.Rc.{rc_str_bytes};
ghost use Rattle.std.specs.declared.cmp.Ordering.TheVariants.{Equal};
ghost use Rattle.rn_pattern.specs.Order.{tree_cmp};
ghost use Rattle.rn_pattern.specs.Tree as tree;
ghost use Rattle.rn_pattern.specs.View.{shared_view};
ghost use Rattle.rn_syntax.specs.Places.{xml_uri, xsd_uri};

use rn_pattern::Pattern;
use rn_syntax::{XML_URI, XSD_URI};
use std::alloc::{AllocError, Global};
use std::rc::{Rc, RcStr};

/// The URIs that names and types have without a declaration, and the patterns `empty` and `text`. All of a set share them.
#[derive(Drop)]
pub(crate) struct Constants {
    /// No namespace, and the library of `string` and `token`.
    pub none: RcStr,
    /// The namespace of prefix `xml`.
    pub xml: RcStr,
    /// The library of datatype prefix `xsd`.
    pub xsd: RcStr,
    empty: Rc<Pattern>,
    text: Rc<Pattern>,
    ghost none_is: { rc_str_bytes none ≡ [] },
    ghost xml_is: { rc_str_bytes xml ≡ xml_uri },
    ghost xsd_is: { rc_str_bytes xsd ≡ xsd_uri },
    ghost empty_is: { tree_cmp (shared_view empty) tree.empty ≡ Equal },
    ghost text_is: { tree_cmp (shared_view text) tree.text ≡ Equal },
}

impl Constants {
    /// The texts of the URIs and the two patterns, made anew.
    pub fn new(alloc: Global) -> Result<Constants, AllocError> {
        Ok(Constants {
            none: RcStr::from_str(alloc, "")?,
            xml: RcStr::from_str(alloc, XML_URI)?,
            xsd: RcStr::from_str(alloc, XSD_URI)?,
            empty: Rc::new(alloc, Pattern::Empty)?,
            text: Rc::new(alloc, Pattern::Text)?,
        })
    }

    /// The constants once more: the texts and patterns are shared, and nothing is copied.
    pub fn share(&self) -> Result<Constants, AllocError> {
        Ok(Constants {
            none: self.none.clone()?,
            xml: self.xml.clone()?,
            xsd: self.xsd.clone()?,
            empty: self.empty.clone()?,
            text: self.text.clone()?,
        })
    }

    /// The pattern `empty`, shared.
    #[tactic(auto, using(crate::proofs::Joining::ConstantPatterns::is_empty))]
    pub fn empty(&self) -> Result<Rc<Pattern>, AllocError>
        ensures { IfOk result (λ p. shared_view p ≡ tree.empty) }
    {
        Ok(self.empty.clone()?)
    }

    /// The pattern `text`, shared.
    #[tactic(auto, using(crate::proofs::Joining::ConstantPatterns::is_text))]
    pub fn text(&self) -> Result<Rc<Pattern>, AllocError>
        ensures { IfOk result (λ p. shared_view p ≡ tree.text) }
    {
        Ok(self.text.clone()?)
    }
}
