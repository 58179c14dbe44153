// The components that modules define, by their keys.
ghost use Rattle.std.specs.Prelude.{◌≡◌, ◌<◌, ◌∷◌, ◌++◌, [], ℕ, IfOk, length};
ghost use Rattle.rn_assemble.specs.inside.Rows.{KeepsRowsBut, row_at};

use crate::reading::keys::KeyId;
use crate::reading::named_modules::ModuleId;
use rn_syntax::{Method, Pat};
use std::alloc::{AllocError, Global};

/// A define or a start of a module.
#[derive(Drop)]
pub(crate) struct WrittenComponent<'s> {
    pub module: ModuleId,
    /// The number of the component among those of the module, in the order of the text.
    pub number: usize,
    pub method: Method,
    pub body: Box<Pat<'s>>,
}

/// Of each key, the components that modules define: module by module, and in the order of the text.
#[derive(Drop)]
pub(crate) struct KeyRows<'s> {
    rows: Vec<Vec<WrittenComponent<'s>>>,
}

impl<'s> KeyRows<'s> {
    /// No components of so many keys.
    pub fn new(alloc: Global, count: usize) -> Result<KeyRows<'s>, AllocError>
        ensures size { IfOk result (λ r. length r.rows.items ≡ count) }
        ensures empty { (n : ℕ) → IfOk result (λ r. row_at r.rows.items n ≡ []) }
    {
        let mut rows = Vec::with_capacity(alloc, count)?;
        for _ in 0..count {
            rows.push(Vec::new(alloc))?;
        }
        Ok(KeyRows { rows })
    }

    /// How many keys there are.
    pub fn len(&self) -> usize
        ensures { result ≡ length self.now.rows.items }
    {
        self.rows.len()
    }

    /// Adds a component of a key behind those that the key has. The first takes memory for itself alone.
    pub fn push(&mut self, key: KeyId, component: WrittenComponent<'s>) -> Result<(), AllocError>
        ensures size { length self.new.rows.items ≡ length self.old.rows.items }
        ensures others { KeepsRowsBut key.0 self.old.rows.items self.new.rows.items }
        ensures pushed { key.0 < length self.old.rows.items → IfOk result (λ _.
            row_at self.new.rows.items key.0
            ≡ row_at self.old.rows.items key.0 ++ component.entry ∷ []) }
    {
        if key.0 < self.rows.len() {
            let row = &mut self.rows[key.0];
            if row.is_empty() {
                row.reserve_exact(1)?;
            }
            row.push(component)?;
        }
        Ok(())
    }

    /// The components of a key.
    #[inline(always)]
    pub fn row(&self, key: KeyId) -> &[WrittenComponent<'s>]
        ensures { result.now ≡ row_at self.now.rows.items key.0 }
    {
        if key.0 < self.rows.len() {
            self.rows[key.0].as_slice()
        } else {
            &[]
        }
    }

    /// Takes the components of a key out, so that they are dropped once they are used.
    pub fn take(&mut self, alloc: Global, key: KeyId) -> Vec<WrittenComponent<'s>>
        ensures taken { result.items ≡ row_at self.old.rows.items key.0 }
        ensures others { KeepsRowsBut key.0 self.old.rows.items self.new.rows.items }
    {
        match self.rows.get_mut(key.0) {
            Some(row) => std::mem::replace(row, Vec::new(alloc)),
            None => Vec::new(alloc),
        }
    }
}
