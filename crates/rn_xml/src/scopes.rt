// Which declarations the prefixes mean, element by element (Namespaces in XML 1.0, 6).
ghost use Rattle.std.specs.Prelude.{◌≡◌, [], OnOk, OnErr};
ghost use Rattle.rn_text.specs.Texts.{Text};
ghost use Rattle.rn_xml.specs.PrefixScopes.{around, innermost, uri_at, IsEntered, IsLeft, IsSameScope};

use crate::document::{NO_NAMESPACE, XML_NAMESPACE, XmlDeclaration};
use std::alloc::{AllocError, Global};
use std::collections::BTreeMap;

/// The declarations that the prefixes mean in the elements that are open, each as its index in the document's table: of
/// each prefix those around, the innermost last. A look-up takes the logarithm of the number of prefixes.
#[derive(Drop)]
pub struct Scopes {
    alloc: Global,
    bound: BTreeMap<String, Vec<usize>>,
}

impl Scopes {
    /// Outside of all elements.
    pub fn new(alloc: Global) -> Scopes
        ensures { (q : Text) → around result q ≡ [] }
    {
        Scopes {
            alloc,
            bound: BTreeMap::new(alloc),
        }
    }

    /// The prefix means this declaration from here on; the empty one is the default namespace. Where memory is refused
    /// the prefix means what it meant.
    pub fn enter(&mut self, prefix: &str, declaration: usize) -> Result<(), AllocError>
        ensures ok { OnOk result (IsEntered self.old self.new prefix.now declaration) }
        ensures err { OnErr result (IsSameScope self.old self.new) }
    {
        if let Some(around) = self.bound.get_mut(prefix) {
            around.push(declaration)?;
            return Ok(());
        }
        let mut around = Vec::new(self.alloc);
        around.push(declaration)?;
        self.bound
            .insert(String::from_str(self.alloc, prefix)?, around)?;
        Ok(())
    }

    /// The element that has these declarations ends.
    pub fn leave(&mut self, declarations: &[XmlDeclaration<'_>])
        ensures { IsLeft self.old self.new declarations.now }
    {
        for declaration in declarations {
            if let Some(around) = self.bound.get_mut(declaration.prefix) {
                let _ = around.pop();
            }
        }
    }

    /// The declaration of the prefix that holds here, if there is one.
    pub fn find(&self, prefix: &str) -> Option<usize>
        ensures { result ≡ innermost (around self.now prefix.now) }
    {
        self.bound
            .get(prefix)
            .and_then(|around| around.last().copied())
    }

    /// The namespace that the prefix means here, if it is declared, as its index; `xml` always is. The declarations are
    /// those of the document.
    pub fn uri_of(&self, declarations: &[XmlDeclaration<'_>], prefix: &str) -> Option<usize>
        ensures { result ≡ uri_at declarations.now self.now prefix.now }
    {
        if prefix == "xml" {
            return Some(XML_NAMESPACE);
        }
        match self.find(prefix) {
            Some(index) => Some(declarations.get(index)?.uri),
            None if prefix.is_empty() => Some(NO_NAMESPACE),
            None => None,
        }
    }
}
