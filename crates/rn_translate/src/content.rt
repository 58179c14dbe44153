// What elements of RELAX NG hold (RELAX NG 2001, section 3).
ghost use Rattle.std.specs.Prelude.{◌≡◌, ◌-◌, ◌&&◌, not, if◌then◌else◌};
ghost use Rattle.rn_translate.specs.Layouts.{has_name};

use crate::kinds::{Kind, Role};
use crate::rng_fault::RngFaultKind;

/// An element, as far as its content depends on it.
#[derive(Clone, Copy, Debug, PartialEq, Eq)]
pub(crate) struct Holder {
    /// The element.
    pub kind: Kind,
    /// Its role there.
    pub role: Role,
    /// Whether it has the attribute `name`.
    pub is_named: bool,
}

impl Holder {
    /// Whether it begins with a name class.
    pub fn begins_with_class(self) -> bool
        ensures { result ≡ (has_name self.kind && not self.is_named) }
    {
        matches!(self.kind, Kind::Element | Kind::Attribute) && !self.is_named
    }

    /// The role of a child of it after so many others.
    pub fn role_inside(self, before: usize) -> Role {
        match self.kind {
            Kind::Element | Kind::Attribute if before == 0 && !self.is_named => Role::NameClass,
            Kind::Choice | Kind::Div => self.role,
            Kind::Except if self.role == Role::ClassPart => Role::NameClass,
            Kind::Data => Role::DataPart,
            Kind::AnyName | Kind::NsName => Role::ClassPart,
            Kind::Grammar => Role::Item,
            Kind::Include => Role::Override,
            Kind::Ref
            | Kind::ParentRef
            | Kind::Empty
            | Kind::Text
            | Kind::Value
            | Kind::NotAllowed
            | Kind::ExternalRef
            | Kind::Param
            | Kind::Name
            | Kind::Foreign => Role::Nothing,
            _ => Role::Pattern,
        }
    }

    /// How many of so many children are patterns or name classes of its own, and no class that names it.
    pub fn members(self, children: usize) -> usize
        ensures { result ≡ (if has_name self.kind && not self.is_named then children - 1
            else children) }
    {
        if self.begins_with_class() {
            children.saturating_sub(1)
        } else {
            children
        }
    }

    /// What it lacks, with so many children, of which the first may be a name class.
    pub fn lack(self, children: usize, has_class: bool) -> Option<RngFaultKind> {
        if self.begins_with_class() && !has_class {
            return Some(RngFaultKind::NoName(self.kind));
        }
        if self.members(children) > 0 || !self.needs_members() {
            return None;
        }
        match self.role_inside(children) {
            Role::NameClass => Some(RngFaultKind::NoNameClass(self.kind)),
            _ => Some(RngFaultKind::NoPattern(self.kind)),
        }
    }

    /// Whether it needs a pattern or a name class.
    fn needs_members(self) -> bool {
        self.kind.is_compound() || matches!(self.kind, Kind::Except | Kind::Start | Kind::Define)
    }

    /// Why no element of this kind may be in it after so many children, of which one may be an except.
    pub fn refusal(self, inner: Kind, before: usize, has_except: bool) -> Option<RngFaultKind> {
        if !self.role_inside(before).admits(inner) {
            return Some(RngFaultKind::Misplaced {
                inner,
                outer: self.kind,
            });
        }
        if has_except {
            return Some(RngFaultKind::BehindExcept(self.kind));
        }
        let has_one = matches!(self.kind, Kind::Start | Kind::Attribute);
        if has_one && self.members(before) > 0 {
            return Some(RngFaultKind::SecondPattern(self.kind));
        }
        None
    }
}

/// The attributes that an element needs (section 3).
pub(crate) fn needed_attribute(kind: Kind) -> Option<&'static str> {
    match kind {
        Kind::Ref | Kind::ParentRef | Kind::Define | Kind::Param => Some("name"),
        Kind::Data => Some("type"),
        Kind::Include | Kind::ExternalRef => Some("href"),
        _ => None,
    }
}

/// Whether an element may have an attribute without namespace (section 3).
pub(crate) fn may_have(kind: Kind, attribute: &str) -> bool {
    match attribute.as_bytes() {
        b"ns" | b"datatypeLibrary" => true,
        b"name" => {
            matches!(kind, Kind::Element | Kind::Attribute)
                || needed_attribute(kind) == Some("name")
        }
        b"type" => matches!(kind, Kind::Data | Kind::Value),
        b"href" => matches!(kind, Kind::Include | Kind::ExternalRef),
        b"combine" => matches!(kind, Kind::Start | Kind::Define),
        _ => false,
    }
}
