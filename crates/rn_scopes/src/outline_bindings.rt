// What the declarations of a file bind (compact syntax, section 2, decl).

use rn_outline::{DeclarationKind, Outline, OutlineDeclaration, OutlineUri, Span, name_in};
use rn_syntax::{XML_URI, XSD_URI};
use std::alloc::{AllocError, Global};
use std::collections::BTreeMap;

/// The default namespace and the prefixes that the declarations of an outline bind, each by the index of its first
/// declaration.
#[derive(Drop)]
pub(crate) struct OutlineBindings {
    default: Option<usize>,
    namespaces: BTreeMap<String, usize>,
    libraries: BTreeMap<String, usize>,
}

/// What a namespace is: a text, or what the file inherits.
#[derive(Clone, Copy)]
pub(crate) enum Namespace<'a> {
    Literal(&'a str),
    Inherited,
}

fn bind(
    alloc: Global,
    prefixes: &mut BTreeMap<String, usize>,
    text: &str,
    prefix: Span,
    number: usize,
) -> Result<(), AllocError> {
    let name = name_in(text, prefix);
    if !prefixes.contains_key(name) {
        prefixes.insert(String::from_str(alloc, name)?, number)?;
    }
    Ok(())
}

impl OutlineBindings {
    /// What the declarations of an outline bind.
    pub(crate) fn of(alloc: Global, text: &str, outline: &Outline) -> Result<Self, AllocError> {
        let mut bindings = OutlineBindings {
            default: None,
            namespaces: BTreeMap::new(alloc),
            libraries: BTreeMap::new(alloc),
        };
        for (number, declaration) in outline.declarations.iter().enumerate() {
            bindings.add(alloc, text, number, declaration)?;
        }
        Ok(bindings)
    }

    fn add(
        &mut self,
        alloc: Global,
        text: &str,
        number: usize,
        declaration: &OutlineDeclaration,
    ) -> Result<(), AllocError> {
        if declaration.kind == DeclarationKind::Default && self.default.is_none() {
            self.default = Some(number);
        }
        let Some(prefix) = declaration.prefix else {
            return Ok(());
        };
        match declaration.kind {
            DeclarationKind::Datatypes => { bind(alloc, &mut self.libraries, text, prefix, number) }
            _ => bind(alloc, &mut self.namespaces, text, prefix, number),
        }
    }

    /// The default namespace of the file.
    pub(crate) fn default_namespace<'a>(&self, outline: &'a Outline) -> Namespace<'a> {
        match self.default {
            Some(number) => declared_namespace(outline, number).unwrap_or(Namespace::Inherited),
            None => Namespace::Inherited,
        }
    }

    /// The namespace of a prefix.
    pub(crate) fn namespace<'a>(
        &self,
        outline: &'a Outline,
        prefix: &str,
    ) -> Option<Namespace<'a>> {
        match self.namespaces.get(prefix) {
            Some(number) => declared_namespace(outline, *number),
            None if prefix == "xml" => Some(Namespace::Literal(XML_URI)),
            None => None,
        }
    }

    /// The datatype library of a prefix.
    pub(crate) fn library<'a>(&self, outline: &'a Outline, prefix: &str) -> Option<&'a str> {
        match self.libraries.get(prefix) {
            Some(number) => match declared_namespace(outline, *number)? {
                Namespace::Literal(uri) => Some(uri),
                Namespace::Inherited => None,
            },
            None if prefix == "xsd" => Some(XSD_URI),
            None => None,
        }
    }
}

/// What the declaration of this index binds to.
fn declared_namespace(outline: &Outline, number: usize) -> Option<Namespace<'_>> {
    match &outline.declarations.get(number)?.uri {
        OutlineUri::Literal(uri) => Some(Namespace::Literal(uri.as_str())),
        OutlineUri::Inherited => Some(Namespace::Inherited),
    }
}
