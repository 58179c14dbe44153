// Prefixes that a module gets for the libraries of datatypes that come from another file.

use rn_outline::unquoted_name;
use rn_scopes::{InputFile, Taken, Units};
use rn_text::{Kind, Token, tokens, write_literal};
use std::alloc::{AllocError, Global};
use std::collections::BTreeMap;

/// The prefixes that a module needs besides those of its file.
#[derive(Drop)]
pub(crate) struct AddedPrefixes {
    file: usize,
    taken: Taken,
    /// Of each library, the prefix.
    added: BTreeMap<String, String>,
    declarations: String,
}

impl AddedPrefixes {
    pub(crate) fn new(alloc: Global, file: usize) -> Self {
        AddedPrefixes {
            file,
            taken: Taken::new(alloc),
            added: BTreeMap::new(alloc),
            declarations: String::new(alloc),
        }
    }

    /// The declarations of what was added.
    pub(crate) fn into_declarations(self) -> String {
        self.declarations
    }

    /// Appends what replaces the prefix of a datatype of another file.
    pub(crate) fn push_prefix(
        &mut self,
        alloc: Global,
        units: &Units<'_>,
        from: usize,
        prefix: &str,
        out: &mut String,
    ) -> Result<(), AllocError> {
        let (Some(given), Some(here)) = (units.files.get(from), units.files.get(self.file)) else {
            return out.push_str(prefix);
        };
        let Some(library) = given.library(prefix) else {
            return out.push_str(prefix);
        };
        if here.library(prefix) == Some(library) {
            return out.push_str(prefix);
        }
        if !self.added.contains_key(library) {
            self.add(alloc, here, library, prefix)?;
        }
        match self.added.get(library) {
            Some(made) => out.push_str(made.as_str()),
            None => out.push_str(prefix),
        }
    }

    /// Adds a prefix for a library.
    fn add(
        &mut self,
        alloc: Global,
        here: &InputFile<'_>,
        library: &str,
        prefix: &str,
    ) -> Result<(), AllocError> {
        if self.added.is_empty() {
            self.taken.take(alloc, "xsd")?;
            take_used(alloc, here.file.text, &mut self.taken)?;
        }
        let made = self.taken.fresh_name(alloc, prefix)?;
        self.declarations.push_str("datatypes ")?;
        self.declarations.push_str(made.as_str())?;
        self.declarations.push_str(" = ")?;
        write_literal(&mut self.declarations, library)?;
        self.declarations.push('\n')?;
        self.added.insert(String::from_str(alloc, library)?, made)?;
        Ok(())
    }
}

/// Takes all prefixes that a text uses or declares.
fn take_used(alloc: Global, text: &str, taken: &mut Taken) -> Result<(), AllocError> {
    let Ok(tokens) = tokens(alloc, text.as_bytes()) else {
        return Err(AllocError);
    };
    for token in &tokens {
        taken.take(alloc, prefix_of(token))?;
    }
    Ok(())
}

/// The prefix of a name that has one, and what follows its colon.
pub(crate) fn split_name<'t>(token: &Token<'t>) -> Option<(&'t str, &'t str)> {
    match token.kind {
        Kind::Prefixed => token.text.split_once(':'),
        _ => None,
    }
}

/// The prefix of a name that has one, or the name.
fn prefix_of<'t>(token: &Token<'t>) -> &'t str {
    if let Some((prefix, _)) = split_name(token) {
        return prefix;
    }
    match token.kind {
        Kind::Name | Kind::Keyword => token.text,
        Kind::Quoted => unquoted_name(token.text),
        _ => "",
    }
}
