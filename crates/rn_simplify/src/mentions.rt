// The namespaces and the datatype libraries that a grammar mentions.
ghost use Rattle.std.specs.Prelude.{◌≡◌, ◌∷◌, [], IfOk, OnOk, map};
ghost use Rattle.rn_pattern.specs.Tree.{name_trees_of};
ghost use Rattle.rn_pattern.specs.View.{name_class_view, pattern_view, shared_trees};
ghost use Rattle.rn_assemble.specs.GrammarView.{definitions_view};
ghost use Rattle.rn_simplify.specs.inside.Gathers.{GathersTexts, Gathers, by_ns_name, by_definitions, by_library, by_name, by_names, by_tree, by_trees, gathered, mentions_view};

use rn_pattern::{NameClass, Pattern};
use std::alloc::{AllocError, Global};
use std::collections::BTreeSet;
use std::rc::Rc;

/// The namespaces and the datatype libraries that a grammar mentions, each once.
#[derive(Drop)]
pub(crate) struct Mentions {
    pub(crate) namespaces: BTreeSet<String>,
    pub(crate) libraries: BTreeSet<String>,
    /// A name class has an nsName of the empty namespace.
    pub(crate) has_empty_ns_name: bool,
}

impl Mentions {
    /// What a start mentions.
    fn of_start(alloc: Global, start: &Pattern) -> Result<Mentions, AllocError>
        ensures { IfOk result (λ m. mentions_view m ≡ gathered (record {
          start = pattern_view start.now;
          definitions = [];
        })) }
    {
        let mut mentions = Mentions {
            namespaces: BTreeSet::new(alloc),
            libraries: BTreeSet::new(alloc),
            has_empty_ns_name: false,
        };
        mentions.add_pattern(alloc, start)?;
        Ok(mentions)
    }

    /// What a start and definitions mention.
    pub(crate) fn of(
        alloc: Global,
        start: &Pattern,
        defs: &[(String, Pattern)],
    ) -> Result<Mentions, AllocError>
        ensures { IfOk result (λ m. mentions_view m ≡ gathered (record {
          start = pattern_view start.now;
          definitions = definitions_view defs.now;
        })) }
    {
        let mut mentions = Mentions::of_start(alloc, start)?;
        mentions.add_definitions(alloc, defs)?;
        Ok(mentions)
    }

    fn add_definitions(
        &mut self,
        alloc: Global,
        defs: &[(String, Pattern)],
    ) -> Result<(), AllocError>
        ensures { OnOk result (Gathers
            (by_definitions (definitions_view defs.now)) self.old self.new) }
    {
        for (_, body) in defs {
            self.add_pattern(alloc, body)?;
        }
        Ok(())
    }

    #[cycle(add_pattern)]
    fn add_pattern(&mut self, alloc: Global, pattern: &Pattern) -> Result<(), AllocError>
        ensures { OnOk result (Gathers (by_tree (pattern_view pattern.now)) self.old self.new) }
    {
        match pattern {
            Pattern::NotAllowed | Pattern::Empty | Pattern::Text | Pattern::Ref(_) => Ok(()),
            Pattern::Value(value) => self.add_library(alloc, &value.library),
            Pattern::Datum(data, except) => {
                self.add_library(alloc, &data.library)?;
                match except {
                    None => Ok(()),
                    Some(except) => self.add_pattern(alloc, except),
                }
            }
            Pattern::Attribute(named) | Pattern::Element(named) => {
                self.add_class(alloc, &named.class)?;
                self.add_pattern(alloc, &named.content)
            }
            Pattern::List(content) | Pattern::OneOrMore(content) => {
                self.add_pattern(alloc, content)
            }
            Pattern::Group(members) | Pattern::Interleave(members) | Pattern::Choice(members) => {
                self.add_patterns(alloc, members)
            }
        }
    }

    #[cycle(add_pattern)]
    fn add_patterns(&mut self, alloc: Global, members: &[Rc<Pattern>]) -> Result<(), AllocError>
        ensures { OnOk result (Gathers
            (by_trees (shared_trees members.now)) self.old self.new) }
    {
        for member in members {
            self.add_pattern(alloc, member)?;
        }
        Ok(())
    }

    #[cycle(add_class)]
    fn add_class(&mut self, alloc: Global, class: &NameClass) -> Result<(), AllocError>
        ensures { OnOk result (Gathers (by_name (name_class_view class.now)) self.old self.new) }
    {
        match class {
            NameClass::AnyName(None) => Ok(()),
            NameClass::AnyName(Some(except)) => self.add_class(alloc, except),
            NameClass::NsName(uri, None) => self.add_ns_name(alloc, uri),
            NameClass::NsName(uri, Some(except)) => {
                self.add_ns_name(alloc, uri)?;
                self.add_class(alloc, except)
            }
            NameClass::Name(uri, _) => insert(alloc, &mut self.namespaces, uri),
            NameClass::Choice(members) => self.add_classes(alloc, members),
        }
    }

    #[cycle(add_class)]
    fn add_classes(&mut self, alloc: Global, members: &[NameClass]) -> Result<(), AllocError>
        ensures { OnOk result (Gathers
            (by_names (name_trees_of (map name_class_view members.now))) self.old self.new) }
    {
        for member in members {
            self.add_class(alloc, member)?;
        }
        Ok(())
    }

    /// Adds the namespace of an nsName.
    #[inline(always)]
    fn add_ns_name(&mut self, alloc: Global, uri: &str) -> Result<(), AllocError>
        ensures { OnOk result (Gathers (by_ns_name uri.now) self.old self.new) }
    {
        if uri.is_empty() {
            self.has_empty_ns_name = true;
        }
        insert(alloc, &mut self.namespaces, uri)
    }

    #[inline(always)]
    fn add_library(&mut self, alloc: Global, library: &str) -> Result<(), AllocError>
        ensures { OnOk result (Gathers (by_library library.now) self.old self.new) }
    {
        insert(alloc, &mut self.libraries, library)
    }
}

#[inline(always)]
fn insert(alloc: Global, texts: &mut BTreeSet<String>, text: &str) -> Result<(), AllocError>
    ensures { OnOk result (GathersTexts (text.now ∷ []) texts.old texts.new) }
{
    if !texts.contains(text) {
        texts.insert(String::from_str(alloc, text)?)?;
    }
    Ok(())
}
