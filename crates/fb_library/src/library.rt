//! The library of units.
ghost use Rattle.std.specs.{Prelude.{◌≡◌, [], IfOk, IfSome, OnOk, OnErr, length, slice_get}, Option.{option_map}, List.Sorted.{IsStrictlySortedBy}};
ghost use Rattle.std.specs.{Map.{remove_entry}, BTreeMap.{insert_entry, is_at}};
ghost use Rattle.fb_parse.specs.Text.Order.{name_cmp};
ghost use Rattle.fb_library.specs.{Texts.{held, text_at, revision_of, names_of, sources_of, edited, all_edited}, Changes.{edit_of, edits_of}};

use crate::change::Change;
use crate::filed::Filed;
use crate::look_up::View;
use crate::table::{Spot, Table};
use fb_parse::Source;
use fb_parse::text::Name;
use std::alloc::{AllocError, Global};
use std::marker::Model;
use std::sync::Arc;

/// The texts of a workbench by name.
pub struct Library {
    alloc: Global,
    units: Table<Filed>,
}

impl Drop for Library {
    fn drop(self) {
        let Self { alloc: _, units: _ } = self;
    }
}

impl Model for Library {
    ghost use Rattle.fb_library.specs.Texts.{Texts};

    ghost Value = { Texts };

    ghost use Rattle.fb_library.specs.Filed.{texts_of, AreOwn};

    ghost view = { λ it. texts_of it.units };

    ghost invariant = { λ it. AreOwn it.units };
}

impl Library {
    /// An empty library.
    pub fn new(alloc: Global) -> Library
        ensures { result ≡ [] }
    {
        Library {
            alloc,
            units: Table::new(alloc),
        }
    }

    /// How many units there are.
    pub fn len(&self) -> usize
        ensures { result ≡ length self.now }
    {
        self.units.len()
    }

    /// The unit at an index, in the order of their names.
    pub fn name_at(&self, index: usize) -> Option<Name>
        ensures name { result ≡ slice_get (names_of self.now) index }
        ensures sorted { IsStrictlySortedBy name_cmp (names_of self.now) }
    {
        self.units.name_at(index)
    }

    /// The names of the units, in order.
    pub fn names(&self, alloc: Global) -> Result<Vec<Name>, AllocError>
        ensures names { IfOk result (λ names. names.items ≡ names_of self.now) }
        ensures sorted { IsStrictlySortedBy name_cmp (names_of self.now) }
    {
        self.units.names(alloc)
    }

    /// What is filed under a unit: its source, its revision and its text.
    pub fn filed(&self, unit: &Name) -> Option<&Filed>
        ensures held { option_map (λ it. it.now.held) result ≡ held self.now unit.now }
        ensures own { IfSome result (λ it. it.now.unit ≡ unit.now) }
    {
        match self.units.get(unit) {
            Some(filed) => Some(filed),
            None => None,
        }
    }

    /// The same. It begins at the spot where the last look-up ended, and is short if that was of a name near this one.
    pub fn filed_near(&self, unit: &Name, spot: &mut Spot) -> Option<&Filed>
        ensures held { option_map (λ it. it.now.held) result ≡ held self.now unit.now }
        ensures own { IfSome result (λ it. it.now.unit ≡ unit.now) }
    {
        match self.units.get_near(unit, spot) {
            Some(filed) => Some(filed),
            None => None,
        }
    }

    /// The source of a unit, to be shared.
    pub fn source(&self, unit: &Name) -> Option<&Arc<Source>>
        ensures text { option_map (λ it. it.now.value.text) result ≡ text_at self.now unit.now }
        ensures own { IfSome result (λ it. it.now.value.unit ≡ unit.now) }
    {
        match self.filed(unit) {
            Some(filed) => Some(filed.source()),
            None => None,
        }
    }

    /// The number of the commit that put the unit, 0 if it is absent.
    pub fn revision(&self, unit: &Name) -> u64
        ensures { result ≡ revision_of (held self.now unit.now) }
    {
        match self.filed(unit) {
            Some(filed) => filed.revision(),
            None => 0,
        }
    }

    /// A library that reads as this one, sharing its sources.
    pub fn copy(&self) -> Result<Library, AllocError>
        ensures { IfOk result (λ copy. copy ≡ self.now) }
    {
        let units = self.units.copy()?;
        Ok(Library {
            alloc: self.alloc,
            units,
        })
    }

    fn put(&mut self, revision: u64, source: Arc<Source>) -> Result<(), AllocError>
        ensures { OnOk result (self.new ≡ insert_entry name_cmp self.old source.value.unit
            (record { revision = revision; text = source.value.text })) }
    {
        let unit = source.unit();
        let filed = Arc::new(self.alloc, Filed::new(self.alloc, revision, source)?)?;
        self.units.put(unit, filed)
    }

    fn remove(&mut self, unit: &Name) -> Result<(), AllocError>
        ensures { OnOk result (self.new ≡ remove_entry (is_at (name_cmp unit.now)) self.old) }
    {
        self.units.remove(unit)
    }

    fn edit(&mut self, commit: u64, change: &Change) -> Result<(), AllocError>
        ensures { OnOk result (self.new ≡ edited commit (edit_of change.now) self.old) }
    {
        match change {
            Change::Put { base: _, source } => {
                let source = source.clone()?;
                self.put(commit, source)
            }
            Change::Remove { unit, base: _ } => self.remove(unit),
        }
    }

    /// The library after a commit's changes. This one stays unchanged.
    pub fn edited(&self, commit: u64, changes: &[Change]) -> Result<Library, AllocError>
        ensures { IfOk result (λ after. after ≡ all_edited commit (edits_of changes.now) self.now) }
    {
        let mut after = self.copy()?;
        for change in changes {
            after.edit(commit, change)?;
        }
        Ok(after)
    }

    /// Makes a commit's changes, in order. If there was no memory the library stays unchanged.
    pub fn apply(&mut self, commit: u64, changes: &[Change]) -> Result<(), AllocError>
        ensures ok { OnOk result (self.new ≡ all_edited commit (edits_of changes.now) self.old) }
        ensures err { OnErr result (self.new ≡ self.old) }
    {
        *self = self.edited(commit, changes)?;
        Ok(())
    }
}

impl View for Library {
    ghost use Rattle.fb_library.specs.Texts.{sources_of};

    ghost sources = { λ library. sources_of library };

    #[tactic(auto, using(crate::proofs::Sources::get_source))]
    fn get(&self, unit: &Name) -> Option<&Source> {
        match self.source(unit) {
            Some(source) => Some(source),
            None => None,
        }
    }
}
