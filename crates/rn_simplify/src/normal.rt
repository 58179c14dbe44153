// The canonical grammar: its start, its definitions in the order of their names, and what they keep.
ghost use Rattle.rn_assemble.specs.inside.OneProof.{IsWellFormed-prop};
ghost use Rattle.rn_assemble.specs.WellFormed.{IsWellFormed};
ghost use Rattle.rn_simplify.specs.NormalParts.{HasSource, parts_view};

use rn_pattern::Pattern;

/// A grammar in its canonical form: the start, and the definitions that are reached from it. It is the canonical
/// grammar of a grammar of which no refusal is true. So every reference is defined, no loop is reached, excepts and
/// name classes keep their restrictions (RELAX NG 2001, 4.16, 4.18, 4.19 and 7.1.4).
#[derive(Drop)]
pub struct Normal {
    pub(crate) start: Pattern,
    pub(crate) defs: Vec<(String, Pattern)>,
    /// Every reference is defined, no loop is reached, excepts and name classes keep their restrictions.
    pub ghost well_formed: { IsWellFormed (parts_view start defs.items) } by { IsWellFormed-prop _ },
    /// It is the canonical grammar of a well-formed grammar whose texts can be written.
    pub ghost source: { ∥ HasSource (parts_view start defs.items) ∥₁ },
}

impl Normal {
    ghost use Rattle.std.specs.Prelude.{◌≡◌};
    ghost use Rattle.rn_pattern.specs.View.{pattern_view};
    ghost use Rattle.rn_simplify.specs.NormalView.{definitions_view, normal_view};

    /// The canonical start.
    pub fn start(&self) -> &Pattern
        ensures { pattern_view result.now ≡ (normal_view self.now).start }
    {
        &self.start
    }

    /// The canonical definitions, in the order of their names by bytes.
    pub fn defs(&self) -> &[(String, Pattern)]
        ensures { definitions_view result.now ≡ (normal_view self.now).definitions }
    {
        self.defs.as_slice()
    }
}
