// The grammar of a set: its start, its definitions, and which members of a joined list are the same body.
ghost use Rattle.rn_pattern.specs.View.{pattern_view};
ghost use Rattle.rn_assemble.specs.DefinitionsView.{definitions_view, view_of};
ghost use Rattle.rn_assemble.specs.Firsts.{joined_members};
ghost use Rattle.rn_assemble.specs.SettlingOrder.{IsSettlingOrder};
ghost use Rattle.rn_assemble.specs.WellFormed.{HasWritableTexts, IsWellFormed};
ghost use Rattle.rn_assemble.specs.inside.OneProof.{IsSettlingOrder-prop, IsWellFormed-prop};
ghost use Rattle.rn_assemble.specs.inside.Tied.{AreTied, HaveTied, AreTied-prop, HaveTied-prop, firsts_of};

use indexmap::IndexMap;
use rn_pattern::{Pattern, Seed};

/// Definitions by their names. The names are hashed by a seed that whoever writes them can't choose.
pub type Definitions = IndexMap<String, Pattern, Seed>;

/// The combined definitions of a set, for which none of the refusals of a set stands. So every reference is defined, no
/// loop is reached, excepts and name classes keep their restrictions (RELAX NG 2001, 4.16, 4.18, 4.19
/// and 7.1.4), and all names and texts can be written again.
#[derive(Drop)]
pub struct Grammar {
    pub(crate) start: Pattern,
    /// The names with their components combined (RELAX NG 2001, 4.17), in the order of each name's first component.
    pub(crate) defs: Definitions,
    /// For each member of the start, the index of the first one with its body.
    pub(crate) start_firsts: Vec<u32>,
    /// For each definition, and each member of it, the index of the first member with its body.
    pub(crate) firsts: Vec<Vec<u32>>,
    /// The indices of the definitions that the start reaches, in an order in which they can be settled.
    pub(crate) order: Vec<usize>,
    ghost start_tied: { AreTied start_firsts.items (joined_members (pattern_view start)) } by { AreTied-prop _ _ },
    ghost tied: { HaveTied (firsts_of firsts.items) (definitions_view defs.entries) } by { HaveTied-prop _ _ },
    ghost in_order: { IsSettlingOrder (view_of start defs.entries) order.items } by { IsSettlingOrder-prop _ _ },
    pub ghost well_formed: { IsWellFormed (view_of start defs.entries) } by { IsWellFormed-prop _ },
    pub ghost writable: { ∥ HasWritableTexts (view_of start defs.entries) ∥₁ },
}

impl Grammar {
    ghost use Rattle.std.specs.Prelude.{◌≡◌, ◌<◌, length, slice_index_or};
    ghost use Rattle.rn_text.specs.Texts.{Text};
    ghost use Rattle.rn_pattern.specs.Tree.{Tree};
    ghost use Rattle.rn_pattern.specs.View.{pattern_view};
    ghost use Rattle.rn_assemble.specs.Firsts.{AreFirsts, joined_members};
    ghost use Rattle.rn_assemble.specs.GrammarView.{definitions_view, grammar_view};
    ghost use Rattle.rn_assemble.specs.SettlingOrder.{IsSettlingOrder};

    /// The start pattern.
    pub fn start(&self) -> &Pattern
        ensures { pattern_view result.now ≡ (grammar_view self.now).start }
    {
        &self.start
    }

    /// The definitions, in the order of each name's first component.
    pub fn defs(&self) -> &Definitions
        ensures { definitions_view result.now.entries ≡ (grammar_view self.now).definitions }
    {
        &self.defs
    }

    /// For each member of the start, where several components are joined to a list, the index of the first member that
    /// is the same body. It is empty where no body comes twice, for a start of one component, and where an index takes
    /// more than 32 bits. Whoever visits members one by one need not visit a body again, however many includes bring
    /// it in.
    pub fn start_firsts(&self) -> &[u32]
        ensures { AreFirsts result.now (joined_members (grammar_view self.now).start) }
    {
        self.start_firsts.as_slice()
    }

    /// For each member of the definition of that index in `defs`, where several components are joined to a list, the
    /// index of the first member that is the same body. It is empty where no body comes twice, for a definition of one
    /// component, where an index takes more than 32 bits, and where there is no such definition.
    pub fn firsts(&self, number: usize) -> &[u32]
        ensures { (d : Text × Tree) → number < length (grammar_view self.now).definitions
            → AreFirsts result.now
            (joined_members (slice_index_or (grammar_view self.now).definitions number d).1) }
    {
        match self.firsts.get(number) {
            Some(firsts) => firsts.as_slice(),
            None => &[],
        }
    }

    /// The indices in `defs` of exactly the definitions that the start reaches, each once, and each after those that its
    /// definition refers to outside elements (RELAX NG 2001, 4.19). So definitions can be settled in this order.
    pub fn settling_order(&self) -> &[usize]
        ensures { IsSettlingOrder (grammar_view self.now) result.now }
    {
        self.order.as_slice()
    }
}
