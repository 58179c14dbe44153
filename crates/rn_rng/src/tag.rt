// The name and the attributes of an element.
ghost use Rattle.std.specs.Prelude.{◌≡◌, ◌∷◌, []};
ghost use Rattle.rn_rng.specs.Translation.{attribute};
ghost use Rattle.rn_rng.specs.inside.Views.{attribute_view, tag_attributes};

/// An attribute.
#[derive(Clone, Copy)]
pub(crate) struct Attribute<'a> {
    pub name: &'a str,
    /// What is written before the value: a prefix and its colon, or nothing.
    pub prefix: &'a str,
    pub value: &'a str,
}

impl<'a> Attribute<'a> {
    /// An attribute with a name and a value.
    pub fn new(name: &'a str, value: &'a str) -> Attribute<'a>
        ensures { attribute_view result ≡ attribute name.now value.now }
    {
        Attribute {
            name,
            prefix: "",
            value,
        }
    }
}

/// The name of an element, and its attributes in their order.
#[derive(Clone, Copy)]
pub(crate) struct Tag<'a> {
    pub element: &'a str,
    pub first: Option<Attribute<'a>>,
    pub second: Option<Attribute<'a>>,
}

impl<'a> Tag<'a> {
    /// An element without attributes.
    pub fn bare(element: &'a str) -> Tag<'a>
        ensures element { result.element.now ≡ element.now }
        ensures attributes { tag_attributes result ≡ [] }
    {
        Tag {
            element,
            first: None,
            second: None,
        }
    }

    /// An element with one attribute.
    pub fn with(element: &'a str, attribute: Attribute<'a>) -> Tag<'a>
        ensures element { result.element.now ≡ element.now }
        ensures attributes { tag_attributes result ≡ attribute_view attribute.entry ∷ [] }
    {
        Tag {
            element,
            first: Some(attribute),
            second: None,
        }
    }
}
