//! Names.
ghost use Rattle.std.specs.Prelude.{◌≡◌, ◌==◌, length, [], IfOk, OnOk};
ghost use Rattle.fb_index.specs.Steps.{AreWith, AreWithout};

use fb_library::Table;
use fb_text::{Name, same_name};
use std::alloc::{AllocError, Global};
use std::marker::Model;
use std::sync::Arc;

/// The most names that are in a list.
const MOST_LISTED: usize = 32;

/// Names. As most sets are small, the first names are in one list, and only further ones in a table: a copy costs this one list, and shares nearly all
/// of the table.
#[derive(Drop)]
pub struct NameSet {
    listed: Vec<Name>,
    further: Table<()>,
}

impl Model for NameSet {
    ghost use Rattle.std.specs.{Prelude.{ℕ, List, map, ◌++◌}, List.Sorted.{IsStrictlySortedBy}};
    ghost use Rattle.fb_text.specs.Order.{name_cmp};

    ghost Value = { List (List ℕ) };

    ghost view = { λ it. it.listed.items ++ map (λ e. e.0) it.further };

    ghost invariant = { λ it. IsStrictlySortedBy name_cmp (map (λ e. e.0) it.further) };
}

impl NameSet {
    /// No names.
    pub fn new(alloc: Global) -> NameSet
        ensures { result ≡ [] }
    {
        NameSet {
            listed: Vec::new(alloc),
            further: Table::new(alloc),
        }
    }

    /// The same names, sharing nearly all of the table.
    pub fn copy(&self, alloc: Global) -> Result<NameSet, AllocError>
        ensures { IfOk result (λ copy. copy ≡ self.now) }
    {
        let listed = copied(alloc, &self.listed)?;
        let further = self.further.copy()?;
        Ok(NameSet { listed, further })
    }

    /// Whether there are none.
    pub fn is_empty(&self) -> bool
        ensures { result ≡ (length self.now == 0) }
    {
        self.listed.is_empty() && self.further.len() == 0
    }

    /// The names.
    pub fn names(&self, alloc: Global) -> Result<Vec<Name>, AllocError>
        ensures { IfOk result (λ names. names.items ≡ self.now) }
    {
        let mut names = copied(alloc, &self.listed)?;
        let mut further = self.further.names(alloc)?;
        names.append(&mut further)?;
        Ok(names)
    }

    /// Puts a name among these. It should not be there yet: nothing looks for it.
    pub fn put(&mut self, alloc: Global, name: Name) -> Result<(), AllocError>
        ensures { OnOk result (AreWith self.old name self.new) }
    {
        if self.listed.len() < MOST_LISTED {
            return Ok(self.listed.push(name)?);
        }
        self.further.put(name, Arc::new(alloc, ())?)
    }

    /// Takes a name out.
    pub fn remove(&mut self, name: &Name) -> Result<(), AllocError>
        ensures { OnOk result (AreWithout self.old name.now self.new) }
    {
        self.listed.retain(|other| !same_name(name, other));
        self.further.remove(name)
    }
}

/// The same names, with room for one more.
fn copied(alloc: Global, names: &[Name]) -> Result<Vec<Name>, AllocError>
    ensures { IfOk result (λ copy. copy.items ≡ names.now) }
{
    let mut copy = Vec::with_capacity(alloc, names.len().saturating_add(1))?;
    copy.extend_from_slice(names)?;
    Ok(copy)
}
