// What the references to the definitions of a grammar become.
ghost use Rattle.std.specs.Prelude.{◌≡◌, IsTrue, length};
ghost use Rattle.rn_simplify.specs.inside.StayingKinds.{AllStay};

use crate::form_kind::FormKind;
use rn_assemble::Definitions;
use rn_pattern::Pattern;
use std::alloc::{AllocError, Global};

/// The index of a definition in the order of its grammar's definitions.
#[derive(Clone, Copy)]
pub(crate) struct DefinitionId(pub(crate) usize);

/// What the references to the definitions of a grammar become.
#[derive(Drop)]
pub(crate) struct SettledDefinitions<'g> {
    pub(crate) definitions: &'g Definitions,
    /// The kind of the canonical form of each definition, by its id.
    pub(crate) kinds: Vec<FormKind>,
    /// No definition becomes `notAllowed` or `empty`, so no reference is looked up. It may be false all the same.
    pub(crate) all_stay: bool,
    ghost sized: { length kinds.items ≡ length definitions.now.entries },
    ghost staying: { IsTrue all_stay → AllStay kinds.items },
}

impl<'g> SettledDefinitions<'g> {
    ghost use Rattle.std.specs.Prelude.{◌≡◌, ◌<◌, IfOk, length, slice_index_or, slice_set, string_bytes};
    ghost use Rattle.rn_assemble.specs.GrammarView.{definitions_view};
    ghost use Rattle.rn_pattern.specs.Tree.{Tree};
    ghost use Rattle.rn_pattern.specs.View.{pattern_view};
    ghost use Rattle.rn_text.specs.Texts.{Text};
    ghost use Rattle.rn_simplify.specs.inside.StayingKinds.{AllStay};
    ghost use Rattle.rn_simplify.specs.inside.FormKinds.{kind_in};

    /// No definition is settled yet: all references stay.
    pub(crate) fn none(
        alloc: Global,
        definitions: &'g Definitions,
    ) -> Result<SettledDefinitions<'g>, AllocError>
        ensures definitions { IfOk result (λ s. s.definitions.now.entries
            ≡ definitions.now.entries) }
    {
        let kinds = vec![in alloc; FormKind::Other; definitions.len()]?;
        Ok(SettledDefinitions {
            definitions,
            kinds,
            all_stay: true,
        })
    }

    /// The name of a definition.
    pub(crate) fn name_of(&self, id: DefinitionId) -> &'g String
        requires { id.0 < length self.now.definitions.now.entries }
        ensures { (d : Text × Tree) → string_bytes result.now
            ≡ (slice_index_or (definitions_view self.now.definitions.now.entries) id.0 d).0 }
    {
        let (name, _) = self.definitions.get_index(id.0).unwrap();
        name
    }

    /// The body of a definition.
    pub(crate) fn body_of(&self, id: DefinitionId) -> &'g Pattern
        requires { id.0 < length self.now.definitions.now.entries }
        ensures { (d : Text × Tree) → pattern_view result.now
            ≡ (slice_index_or (definitions_view self.now.definitions.now.entries) id.0 d).1 }
    {
        let (_, body) = self.definitions.get_index(id.0).unwrap();
        body
    }

    /// Gives a definition another kind.
    #[inline(always)]
    pub(crate) fn set(&mut self, id: DefinitionId, kind: FormKind)
        requires { id.0 < length self.old.kinds.items }
        ensures definitions { self.new.definitions.now.entries
            ≡ self.old.definitions.now.entries }
        ensures kinds { self.new.kinds.items ≡ slice_set self.old.kinds.items id.0 kind }
    {
        self.all_stay = self.all_stay && kind.is_other();
        self.kinds[id.0] = kind;
    }

    /// The kind of the canonical form of the definition of a name. The reference to a name without a definition stays.
    #[inline(always)]
    pub(crate) fn kind_of(&self, name: &str) -> FormKind
        ensures { result ≡ kind_in self.now name.now }
    {
        if self.all_stay {
            return FormKind::Other;
        }
        match self.definitions.get_index_of(name) {
            Some(index) => self.kinds[index],
            None => FormKind::Other,
        }
    }
}
