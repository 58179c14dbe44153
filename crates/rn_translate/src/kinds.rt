// The elements of RELAX NG, and where each may be (RELAX NG 2001, section 3).
ghost use Rattle.std.specs.Prelude.{◌≡◌, Some};
ghost use Rattle.rn_translate.specs.SchemaElements.{holds_text, is_foreign, kind_in, kind_name, kinds};

/// An element of RELAX NG, or one of another vocabulary.
#[derive(Clone, Copy, Debug, PartialEq, Eq)]
pub enum Kind {
    /// `element`, a pattern of an element.
    Element,
    /// `attribute`, a pattern of attributes.
    Attribute,
    /// `group`, of patterns one after the other.
    Group,
    /// `interleave`, of patterns in any order.
    Interleave,
    /// `choice`, of patterns or of name classes.
    Choice,
    /// `optional`, of patterns that may be left out.
    Optional,
    /// `zeroOrMore`, of patterns any number of times.
    ZeroOrMore,
    /// `oneOrMore`, of patterns at least once.
    OneOrMore,
    /// `list`, of words with white space between.
    List,
    /// `mixed`, of patterns with text between.
    Mixed,
    /// `ref`, a reference to a definition.
    Ref,
    /// `parentRef`, a reference to a definition of the grammar around.
    ParentRef,
    /// `empty`, the pattern of no content.
    Empty,
    /// `text`, the pattern of any text.
    Text,
    /// `value`, one value of a datatype.
    Value,
    /// `data`, the values of a datatype.
    Data,
    /// `notAllowed`, the pattern that nothing matches.
    NotAllowed,
    /// `externalRef`, the pattern that another schema is.
    ExternalRef,
    /// `grammar`, a pattern with definitions of its own.
    Grammar,
    /// `param`, of a datatype.
    Param,
    /// `except`, of data or of a name class.
    Except,
    /// `start`, the definition where a grammar begins.
    Start,
    /// `define`, the definition of a name.
    Define,
    /// `div`, definitions that are kept together.
    Div,
    /// `include`, a grammar whose definitions are taken over.
    Include,
    /// `name`, the class of one name.
    Name,
    /// `anyName`, the class of all names.
    AnyName,
    /// `nsName`, the class of all names of a namespace.
    NsName,
    /// An element of another vocabulary, or in one, which leaves nothing (4.1).
    Foreign,
}

/// The elements of RELAX NG.
static ELEMENTS: [Kind; 28] = [
    Kind::Element,
    Kind::Attribute,
    Kind::Group,
    Kind::Interleave,
    Kind::Choice,
    Kind::Optional,
    Kind::ZeroOrMore,
    Kind::OneOrMore,
    Kind::List,
    Kind::Mixed,
    Kind::Ref,
    Kind::ParentRef,
    Kind::Empty,
    Kind::Text,
    Kind::Value,
    Kind::Data,
    Kind::NotAllowed,
    Kind::ExternalRef,
    Kind::Grammar,
    Kind::Param,
    Kind::Except,
    Kind::Start,
    Kind::Define,
    Kind::Div,
    Kind::Include,
    Kind::Name,
    Kind::AnyName,
    Kind::NsName,
];

impl Kind {
    /// The element of RELAX NG that has this local name.
    pub fn of_name(local: &str) -> Option<Kind>
        ensures { result ≡ kind_in kinds local.now }
    {
        ELEMENTS.iter().find(|kind| kind.name() == local).copied()
    }

    /// The local name of the element.
    pub fn name(self) -> &'static str
        ensures { result.now ≡ kind_name self }
    {
        match self {
            Kind::Element => "element",
            Kind::Attribute => "attribute",
            Kind::Group => "group",
            Kind::Interleave => "interleave",
            Kind::Choice => "choice",
            Kind::Optional => "optional",
            Kind::ZeroOrMore => "zeroOrMore",
            Kind::OneOrMore => "oneOrMore",
            Kind::List => "list",
            Kind::Mixed => "mixed",
            Kind::Ref => "ref",
            Kind::ParentRef => "parentRef",
            Kind::Empty => "empty",
            Kind::Text => "text",
            Kind::Value => "value",
            Kind::Data => "data",
            Kind::NotAllowed => "notAllowed",
            Kind::ExternalRef => "externalRef",
            Kind::Grammar => "grammar",
            Kind::Param => "param",
            Kind::Except => "except",
            Kind::Start => "start",
            Kind::Define => "define",
            Kind::Div => "div",
            Kind::Include => "include",
            Kind::Name => "name",
            Kind::AnyName => "anyName",
            Kind::NsName => "nsName",
            Kind::Foreign => "an annotation",
        }
    }

    /// Whether the element is a pattern that other patterns make up, of which it has at least one.
    pub fn is_compound(self) -> bool {
        matches!(
            self,
            Kind::Element
                | Kind::Group
                | Kind::Interleave
                | Kind::Choice
                | Kind::Optional
                | Kind::ZeroOrMore
                | Kind::OneOrMore
                | Kind::List
                | Kind::Mixed
        )
    }

    /// Whether it is of another vocabulary.
    pub fn is_foreign(self) -> bool
        ensures { result ≡ is_foreign (Some self) }
    {
        matches!(self, Kind::Foreign)
    }

    /// Whether the element holds a text (`name`, `value` and `param`).
    pub fn holds_text(self) -> bool
        ensures { result ≡ holds_text self }
    {
        matches!(self, Kind::Name | Kind::Value | Kind::Param)
    }
}

/// What may be at a place.
#[derive(Clone, Copy, Debug, PartialEq, Eq)]
pub enum Role {
    /// A pattern.
    Pattern,
    /// A name class.
    NameClass,
    /// What a grammar holds.
    Item,
    /// What an include holds: definitions that override.
    Override,
    /// A parameter or an except of data.
    DataPart,
    /// An except of a name class.
    ClassPart,
    /// Nothing.
    Nothing,
}

impl Role {
    /// Whether an element of this kind may be there.
    pub fn admits(self, kind: Kind) -> bool {
        match self {
            Role::Pattern => is_pattern(kind),
            Role::NameClass => matches!(
                kind,
                Kind::Name | Kind::AnyName | Kind::NsName | Kind::Choice
            ),
            Role::Item => matches!(kind, Kind::Start | Kind::Define | Kind::Div | Kind::Include),
            Role::Override => matches!(kind, Kind::Start | Kind::Define | Kind::Div),
            Role::DataPart => matches!(kind, Kind::Param | Kind::Except),
            Role::ClassPart => kind == Kind::Except,
            Role::Nothing => false,
        }
    }
}

/// Whether an element of this kind is a pattern.
fn is_pattern(kind: Kind) -> bool {
    kind.is_compound()
        || matches!(
            kind,
            Kind::Attribute
                | Kind::Ref
                | Kind::ParentRef
                | Kind::Empty
                | Kind::Text
                | Kind::Value
                | Kind::Data
                | Kind::NotAllowed
                | Kind::ExternalRef
                | Kind::Grammar
        )
}
