// A module's declarations under the namespace that it inherits.
ghost use Rattle.std.specs.Prelude.{◌≡◌, ◌<◌, [], length, unwrap_or, List};
ghost use Rattle.std.specs.Rc.{rc_str_bytes};
ghost use Rattle.rn_syntax.specs.BindingDeclarations.{bound};
ghost use Rattle.rn_syntax.specs.Places as places;
ghost use Rattle.rn_syntax.specs.Places.{uri_at};
ghost use Rattle.rn_syntax.specs.Tree.{Declaration};
ghost use Rattle.rn_syntax.specs.View.{prefix_view};
ghost use Rattle.rn_assemble.specs.inside.ContextBindings.{AgreeUnder, BindsAs, InContext};
ghost use Rattle.rn_assemble.specs.Components as components;
ghost use Rattle.rn_assemble.specs.Resolve.{default_of, namespace_of, uri_text};

use crate::resolving::declared_uris::{DeclaredUris, SharedUri};
use rn_syntax::Prefix;
use std::rc::RcStr;

/// The declarations of a module under the namespace that it inherits.
#[derive(Clone, Copy)]
pub(crate) struct Context<'c, 't> {
    pub bindings: &'c DeclaredUris<'t>,
    pub inherited: &'c RcStr,
}

impl<'c, 't> Context<'c, 't> {
    /// The declarations under the namespace that the module inherits; under none where they make nothing of it, so that
    /// the context is the same wherever the module is included.
    #[tactic(auto, using(crate::proofs::Expansion::SameNamespaces::agree_itself))]
    pub fn of(bindings: &'c DeclaredUris<'t>, inherited: &'c RcStr) -> Context<'c, 't>
        ensures bindings { result.bindings ≡ bindings.entry }
        ensures alike { (ds : List Declaration) → BindsAs bindings.now ds
            → AgreeUnder ds (rc_str_bytes inherited.now) (rc_str_bytes result.inherited.now) }
    {
        if bindings.inherits() {
            Context {
                bindings,
                inherited,
            }
        } else {
            Context {
                bindings,
                inherited: &bindings.constants.none,
            }
        }
    }

    /// The URI of the declaration of that number.
    fn uri(self, number: usize) -> &'c RcStr
        requires { number < length (bound self.bindings.now.numbers) }
        ensures { rc_str_bytes result.now ≡ uri_text (rc_str_bytes self.entry.inherited.now)
            (uri_at (bound self.entry.bindings.now.numbers) number) }
    {
        match &self.bindings.uris[number] {
            SharedUri::Text(uri) => uri,
            SharedUri::Inherited => self.inherited,
        }
    }

    /// The default namespace: the inherited one where none is declared.
    #[tactic(auto, using(crate::specs::inside::ContextBindings::binds_are))]
    pub fn default_namespace(self) -> &'c RcStr
        ensures { InContext self.entry (λ inherited ds. rc_str_bytes result.now
            ≡ default_of inherited ds) }
    {
        match self.bindings.numbers.default() {
            Some(number) => self.uri(number),
            None => self.inherited,
        }
    }

    /// The namespace of a prefix; no namespace for one without a declaration, but for `xml`.
    #[tactic(auto, using(crate::specs::inside::ContextBindings::binds_are))]
    pub fn namespace(self, prefix: &str) -> &'c RcStr
        ensures { InContext self.entry (λ inherited ds. rc_str_bytes result.now
            ≡ namespace_of inherited ds prefix.now) }
    {
        if prefix == "xml" {
            return &self.bindings.constants.xml;
        }
        match self.bindings.numbers.namespace(prefix) {
            Some(number) => self.uri(number),
            None => &self.bindings.constants.none,
        }
    }

    /// The datatype library of a prefix; the empty one where it has no declaration, but for `xsd`.
    #[tactic(auto, using(crate::specs::inside::ContextBindings::binds_are))]
    pub fn library(self, prefix: &str) -> &'c RcStr
        ensures { InContext self.entry (λ inherited ds. rc_str_bytes result.now
            ≡ unwrap_or (places.library_of ds prefix.now) []) }
    {
        if prefix == "xsd" {
            return &self.bindings.constants.xsd;
        }
        match self.bindings.numbers.library(prefix) {
            Some(number) => self.uri(number),
            None => &self.bindings.constants.none,
        }
    }

    /// The namespace that an include hands on: that of its prefix, else the default one.
    pub fn handed_on(self, inherit: Option<Prefix<'_>>) -> &'c RcStr
        ensures { InContext self.entry (λ inherited ds. rc_str_bytes result.now
            ≡ components.handed_on inherited ds (prefix_view inherit.entry)) }
    {
        match inherit {
            Some(prefix) => self.namespace(prefix.name),
            None => self.default_namespace(),
        }
    }
}
