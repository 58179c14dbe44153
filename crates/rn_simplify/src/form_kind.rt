// The kinds of canonical forms: notAllowed and empty replace references, others do not (RELAX NG 2001, 4.20 and 4.21).
ghost use Rattle.std.specs.Prelude.{◌≡◌, IsTrue};
ghost use Rattle.rn_simplify.specs.inside.FormKinds.{around, both, either};

/// What kind of canonical form a pattern has.
#[derive(Clone, Copy)]
pub(crate) enum FormKind {
    /// `notAllowed`, which replaces each reference.
    NotAllowed,
    /// `empty`, which replaces each reference.
    Empty,
    /// Any other pattern: references to it stay.
    Other,
}

impl FormKind {
    /// Whether it is that of neither `notAllowed` nor `empty`.
    #[inline(always)]
    pub(crate) fn is_other(self) -> bool
        ensures { IsTrue result → self ≡ FormKind.Other }
    {
        matches!(self, FormKind::Other)
    }

    /// The kind of a list or an attribute whose content is of this one: `notAllowed` stays so (4.20).
    pub(crate) fn around(self) -> FormKind
        ensures { result ≡ around self }
    {
        match self {
            FormKind::NotAllowed => FormKind::NotAllowed,
            FormKind::Empty => FormKind::Other,
            FormKind::Other => FormKind::Other,
        }
    }

    /// The kind of a group or an interleave of two members: `notAllowed` where one is (4.20), without `empty` (4.21).
    pub(crate) fn both(self, other: FormKind) -> FormKind
        ensures { result ≡ both self other }
    {
        match self {
            FormKind::NotAllowed => FormKind::NotAllowed,
            FormKind::Empty => other,
            FormKind::Other => other.around(),
        }
    }

    /// The kind of a choice of two members: without `notAllowed` (4.20), `empty` where no other member is left.
    pub(crate) fn either(self, other: FormKind) -> FormKind
        ensures { result ≡ either self other }
    {
        match self {
            FormKind::NotAllowed => other,
            FormKind::Empty => match other {
                FormKind::NotAllowed => FormKind::Empty,
                other => other,
            },
            FormKind::Other => FormKind::Other,
        }
    }
}
