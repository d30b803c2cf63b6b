//! The tables of the index: who uses whom.
ghost use Rattle.std.specs.{Prelude.{◌≡◌, ◌↔◌, ℕ, true, List, [], ◌++◌, filter, Contains, IfOk, OnOk, OnErr}, List.{flat_map}};
ghost use Rattle.std.specs.List.Sorted.{IsStrictlySortedBy};
ghost use Rattle.fb_text.specs.Order.{name_cmp};
ghost use Rattle.fb_tree.specs.Mentions.{mentioned};
ghost use Rattle.fb_library.specs.Seen.{has_name, Opens};
ghost use Rattle.fb_index.specs.{Users.{users_of}, Indexed.{is_indexed, is_structure_in, nothing_indexed, IsIndexedAs, IsRemoved, IsReplaced}};
ghost use Rattle.fb_index.specs.Near.{carrying_on, mentioning, CarriesSome, NearSome, ReachesSome};

use crate::users::Users;
use fb_library::{Table, names_of, open_new};
use fb_text::{Name, sorted_names};
use fb_tree::{Mentions, mention_the_same};
use std::alloc::{AllocError, Global};
use std::collections::BTreeSet;
use std::marker::Model;
use std::sync::Arc;

/// Who uses whom, in three tables.
pub(crate) struct Tables {
    /// Under each name the units that have it as a part.
    parts: Users,
    /// Under each name the units that have it as the type of a value.
    of_values: Users,
    /// The indexed units, and whether each is a structure.
    units: Table<bool>,
}

impl Drop for Tables {
    fn drop(self) {
        let Self {
            parts: _,
            of_values: _,
            units: _,
        } = self;
    }
}

impl Model for Tables {
    ghost use Rattle.fb_index.specs.Indexed.{Indexed};

    ghost Value = { Indexed };

    ghost view = { λ it. record { parts = it.parts; of_values = it.of_values; units = it.units } };
}

impl Tables {
    /// No units.
    pub(crate) fn new(alloc: Global) -> Tables
        ensures { result ≡ nothing_indexed }
    {
        Tables {
            parts: Users::new(alloc),
            of_values: Users::new(alloc),
            units: Table::new(alloc),
        }
    }

    /// Tables with the same content, which share nearly all with these.
    pub(crate) fn copy(&self) -> Result<Tables, AllocError>
        ensures { IfOk result (λ copy. copy ≡ self.now) }
    {
        let parts = self.parts.copy()?;
        let of_values = self.of_values.copy()?;
        let units = self.units.copy()?;
        Ok(Tables {
            parts,
            of_values,
            units,
        })
    }

    /// Indexes the unit with its new mentions in the place of the old ones. For lack of memory nothing is changed.
    pub(crate) fn replace(
        &mut self,
        alloc: Global,
        unit: Name,
        old: &Mentions,
        new: &Mentions,
    ) -> Result<(), AllocError>
        requires known { IsIndexedAs self.old unit (mentioned old.now) }
        ensures ok { OnOk result (IsReplaced self.old unit (mentioned new.now) self.new) }
        ensures err { OnErr result (self.new ≡ self.old) }
    {
        if self.is_indexed(&unit) && mention_the_same(old, new) {
            return Ok(());
        }
        let mut tables = self.copy()?;
        tables
            .parts
            .replace(alloc, &unit, old.parts.as_slice(), new.parts.as_slice())?;
        tables.of_values.replace(
            alloc,
            &unit,
            old.of_values.as_slice(),
            new.of_values.as_slice(),
        )?;
        tables.units.put(unit, Arc::new(alloc, new.is_structure)?)?;
        *self = tables;
        Ok(())
    }

    /// Takes the unit out, with these mentions. For lack of memory nothing is changed.
    pub(crate) fn remove(
        &mut self,
        alloc: Global,
        unit: &Name,
        old: &Mentions,
    ) -> Result<(), AllocError>
        requires known { IsIndexedAs self.old unit.now (mentioned old.now) }
        ensures ok { OnOk result (IsRemoved self.old unit.now self.new) }
        ensures err { OnErr result (self.new ≡ self.old) }
    {
        let mut tables = self.copy()?;
        // For the proof: the names are in order.
        let _first = tables.units.name_at(0);
        tables
            .parts
            .replace(alloc, unit, old.parts.as_slice(), &[])?;
        tables
            .of_values
            .replace(alloc, unit, old.of_values.as_slice(), &[])?;
        tables.units.remove(unit)?;
        *self = tables;
        Ok(())
    }

    /// The indexed units near which one of the names is, in order.
    pub(crate) fn near_of(&self, alloc: Global, names: &[Name]) -> Result<Vec<Name>, AllocError>
        ensures ordered { IfOk result (λ units. IsStrictlySortedBy name_cmp units.items) }
        ensures exact { IfOk result
            (λ units. (unit : List ℕ) → (has_name units.items unit ≡ true)
            ↔ NearSome self.now unit names.now) }
    {
        let mut units = self.indexed(alloc, names)?;
        let carriers = self.carriers(alloc, names)?;
        self.add_holders(names, &mut units)?;
        self.add_holders(carriers.as_slice(), &mut units)?;
        units.extend_from_slice(carriers.as_slice())?;
        sorted_names(alloc, units.as_slice())
    }

    /// The indexed units that are one of the names or rest on one, in order.
    pub(crate) fn far_of(&self, alloc: Global, names: &[Name]) -> Result<Vec<Name>, AllocError>
        ensures ordered { IfOk result (λ units. IsStrictlySortedBy name_cmp units.items) }
        ensures exact { IfOk result
            (λ units. (unit : List ℕ) → (has_name units.items unit ≡ true)
            ↔ ReachesSome self.now unit names.now) }
    {
        let mut units = self.indexed(alloc, names)?;
        let mut seen = BTreeSet::new(alloc);
        let mut pending = Vec::new(alloc);
        for name in names {
            self.open_users(alloc, name, &mut seen, &mut pending)?;
        }
        while let Some(name) = pending.pop() {
            self.open_users(alloc, &name, &mut seen, &mut pending)?;
        }
        let users = names_of(alloc, &seen)?;
        units.extend_from_slice(users.as_slice())?;
        sorted_names(alloc, units.as_slice())
    }

    /// Whether the unit is indexed.
    fn is_indexed(&self, unit: &Name) -> bool
        ensures { result ≡ is_indexed self.now unit.now }
    {
        self.units.get(unit).is_some()
    }

    /// Whether the unit is a structure.
    fn is_structure(&self, unit: &Name) -> bool
        ensures { result ≡ is_structure_in self.now unit.now }
    {
        match self.units.get(unit) {
            Some(mark) => **mark,
            None => false,
        }
    }

    /// Those of the names that are indexed.
    fn indexed(&self, alloc: Global, names: &[Name]) -> Result<Vec<Name>, AllocError>
        ensures { IfOk result (λ units. units.items ≡ filter (is_indexed self.now) names.now) }
    {
        let mut units = Vec::new(alloc);
        for name in names {
            if self.is_indexed(name) {
                units.push(*name)?;
            }
        }
        Ok(units)
    }

    /// Adds the units that have one of the names as a part.
    fn add_holders(&self, names: &[Name], units: &mut Vec<Name>) -> Result<(), AllocError>
        ensures { OnOk result
            (units.new.items
            ≡ units.old.items ++ flat_map (users_of self.now.parts) names.now) }
    {
        let alloc = *units.allocator();
        for name in names {
            let holders = self.parts.under(alloc, name)?;
            units.extend_from_slice(holders.as_slice())?;
        }
        Ok(())
    }

    /// The units that carry one of the names.
    fn carriers(&self, alloc: Global, names: &[Name]) -> Result<Vec<Name>, AllocError>
        ensures { IfOk result
            (λ units. (unit : List ℕ) → Contains units.items unit
            ↔ CarriesSome self.now unit names.now) }
    {
        let mut seen = BTreeSet::new(alloc);
        let mut pending = Vec::new(alloc);
        for name in names {
            let users = self.of_values.under(alloc, name)?;
            open_new(users.as_slice(), &mut seen, &mut pending)?;
        }
        while let Some(name) = pending.pop() {
            let users = self.carrying_on(alloc, &name)?;
            open_new(users.as_slice(), &mut seen, &mut pending)?;
        }
        names_of(alloc, &seen)
    }

    /// The units that carry on what this one carries: if it is a structure, its users.
    fn carrying_on(&self, alloc: Global, unit: &Name) -> Result<Vec<Name>, AllocError>
        ensures { IfOk result (λ units. units.items ≡ carrying_on self.now unit.now) }
    {
        if self.is_structure(unit) {
            self.of_values.under(alloc, unit)
        } else {
            Ok(Vec::new(alloc))
        }
    }

    /// Sees the units that mention the name, and opens those that are new.
    fn open_users(
        &self,
        alloc: Global,
        name: &Name,
        seen: &mut BTreeSet<Name>,
        pending: &mut Vec<Name>,
    ) -> Result<(), AllocError>
        ensures { OnOk result
            (Opens (mentioning self.now name.now) seen.old.keys pending.old.items seen.new.keys
            pending.new.items) }
    {
        let holders = self.parts.under(alloc, name)?;
        open_new(holders.as_slice(), seen, pending)?;
        let users = self.of_values.under(alloc, name)?;
        open_new(users.as_slice(), seen, pending)
    }
}
