//! Which units use which names.
ghost use Rattle.std.specs.{Prelude.{◌≡◌, ℕ, List, [], IfOk, OnOk}, BTreeMap.{is_at}};
ghost use Rattle.std.specs.BTreeSet as set;
ghost use Rattle.fb_text.specs.Order.{name_cmp};
ghost use Rattle.fb_library.specs.Seen.{has_name};
ghost use Rattle.fb_index.specs.{Users.{users_of, UsesThese, NowUses}, Steps.{is_only_in, HasJoined, HasLeft, IsPutUnder}};

use crate::name_set::NameSet;
use fb_library::Table;
use fb_text::Name;
use std::alloc::{AllocError, Global};
use std::collections::BTreeSet;
use std::marker::Model;
use std::sync::Arc;

/// Under each name the units that use it. A copy shares all that is not changed after it, so a change among many users of a
/// name costs no more than one among many names.
#[derive(Drop)]
pub struct Users {
    by_name: Table<NameSet>,
}

impl Model for Users {
    ghost use Rattle.std.specs.{Prelude.{map}, List.Sorted.{IsStrictlySortedBy}};
    ghost use Rattle.fb_text.specs.Order.{name_cmp};
    ghost use Rattle.fb_index.specs.Users.{UsersByName};

    ghost Value = { UsersByName };

    ghost view = { λ it. it.by_name };

    ghost invariant = { λ it. IsStrictlySortedBy name_cmp (map (λ e. e.0) it.by_name) };
}

impl Users {
    /// No users.
    pub fn new(alloc: Global) -> Users
        ensures { result ≡ [] }
    {
        Users {
            by_name: Table::new(alloc),
        }
    }

    /// The same users, sharing nearly all with these.
    pub fn copy(&self) -> Result<Users, AllocError>
        ensures { IfOk result (λ copy. copy ≡ self.now) }
    {
        let by_name = self.by_name.copy()?;
        Ok(Users { by_name })
    }

    /// Has the unit use the new names in the place of the old ones.
    pub fn replace(
        &mut self,
        alloc: Global,
        unit: &Name,
        old: &[Name],
        new: &[Name],
    ) -> Result<(), AllocError>
        requires known { UsesThese self.old unit.now old.now }
        ensures { OnOk result (NowUses self.old unit.now new.now self.new) }
    {
        let before = set_of(alloc, old)?;
        let after = set_of(alloc, new)?;
        self.take_out(alloc, unit, old, &after)?;
        self.put_in(alloc, unit, new, &before)
    }

    /// The users of a name.
    pub fn under(&self, alloc: Global, name: &Name) -> Result<Vec<Name>, AllocError>
        ensures { IfOk result (λ units. units.items ≡ users_of self.now name.now) }
    {
        match self.by_name.get(name) {
            Some(units) => units.names(alloc),
            None => Ok(Vec::new(alloc)),
        }
    }

    /// The users of a name, to be changed.
    fn copy_under(&self, alloc: Global, name: &Name) -> Result<NameSet, AllocError>
        ensures { IfOk result (λ units. units ≡ users_of self.now name.now) }
    {
        match self.by_name.get(name) {
            Some(units) => units.copy(alloc),
            None => Ok(NameSet::new(alloc)),
        }
    }

    /// Puts these units under a name, in the place of those that were there.
    fn set(&mut self, alloc: Global, name: &Name, units: NameSet) -> Result<(), AllocError>
        ensures { OnOk result (IsPutUnder self.old name.now units self.new) }
    {
        if units.is_empty() {
            return self.by_name.remove(name);
        }
        self.by_name.put(*name, Arc::new(alloc, units)?)
    }

    /// Takes the unit out under a name.
    fn leave(&mut self, alloc: Global, name: &Name, unit: &Name) -> Result<(), AllocError>
        ensures { OnOk result (HasLeft self.old unit.now (is_at (name_cmp name.now)) self.new) }
    {
        let mut units = self.copy_under(alloc, name)?;
        units.remove(unit)?;
        self.set(alloc, name, units)
    }

    /// Puts the unit under a name.
    fn join(&mut self, alloc: Global, name: &Name, unit: &Name) -> Result<(), AllocError>
        ensures { OnOk result (HasJoined self.old unit.now (is_at (name_cmp name.now)) self.new) }
    {
        let mut units = self.copy_under(alloc, name)?;
        units.put(alloc, *unit)?;
        self.set(alloc, name, units)
    }

    /// Takes the unit out under the names that are not kept.
    fn take_out(
        &mut self,
        alloc: Global,
        unit: &Name,
        names: &[Name],
        kept: &BTreeSet<Name>,
    ) -> Result<(), AllocError>
        ensures { OnOk result (HasLeft self.old unit.now (is_only_in names.now kept.now) self.new) }
    {
        for name in names {
            if !kept.contains(name) {
                self.leave(alloc, name, unit)?;
            }
        }
        Ok(())
    }

    /// Puts the unit under the names that are not known.
    fn put_in(
        &mut self,
        alloc: Global,
        unit: &Name,
        names: &[Name],
        known: &BTreeSet<Name>,
    ) -> Result<(), AllocError>
        ensures { OnOk result
            (HasJoined self.old unit.now (is_only_in names.now known.now) self.new) }
    {
        for name in names {
            if !known.contains(name) {
                self.join(alloc, name, unit)?;
            }
        }
        Ok(())
    }
}

/// The names as a set.
fn set_of(alloc: Global, names: &[Name]) -> Result<BTreeSet<Name>, AllocError>
    ensures { IfOk result
        (λ made. (name : List ℕ) → set.contains name_cmp made name ≡ has_name names.now name) }
{
    names.iter().copied().collect(alloc)
}
