//! The index of the units by what they mention.
//! A broken unit is indexed without mentions; a removed one leaves the index, so names that are gone cost no memory.
ghost use Rattle.std.specs.{Prelude.{◌≡◌, ◌↔◌, true, List, ℕ, IfOk, OnOk, OnErr}, List.Sorted.{IsStrictlySortedBy}};
ghost use Rattle.fb_text.specs.Order.{name_cmp};
ghost use Rattle.fb_tree.specs.Mentions.{mentioned};
ghost use Rattle.fb_library.specs.Seen.{has_name};
ghost use Rattle.fb_index.specs.{Indexed.{is_indexed, nothing_indexed, IsIndexedAs, IsRemoved, IsReplaced}, Near.{AreUnits, NearSome, ReachesSome}};

use crate::tables::Tables;
use fb_text::Name;
use fb_tree::Mentions;
use std::alloc::{AllocError, Global};
use std::marker::Model;

/// Which units mention a name, directly or through others. A unit is indexed from its first `replace` to its `remove`, and each unit that mentions a
/// name is indexed.
pub struct Index {
    tables: Tables,
}

impl Drop for Index {
    fn drop(self) {
        let Self { tables: _ } = self;
    }
}

impl Model for Index {
    ghost use Rattle.fb_index.specs.Indexed.{Indexed};

    ghost Value = { Indexed };

    ghost view = { λ it. it.tables };

    ghost use Rattle.fb_index.specs.Near.{AreUnits};

    ghost invariant = { λ it. AreUnits it.tables };
}

impl Index {
    /// No units.
    #[tactic(auto, using(crate::proofs::Units::no_units))]
    pub fn new(alloc: Global) -> Index
        ensures { result ≡ nothing_indexed }
    {
        Index {
            tables: Tables::new(alloc),
        }
    }

    /// An index that answers as this one, sharing nearly all with it.
    pub fn copy(&self) -> Result<Index, AllocError>
        ensures { IfOk result (λ copy. copy ≡ self.now) }
    {
        let tables = self.tables.copy()?;
        Ok(Index { tables })
    }

    /// Indexes the unit with its new mentions in the place of the old ones. If there is no memory, the index stays unchanged.
    pub fn replace(
        &mut self,
        alloc: Global,
        unit: Name,
        old: &Mentions,
        new: &Mentions,
    ) -> Result<(), AllocError>
        requires known { IsIndexedAs self.old unit (mentioned old.now) }
        ensures ok { OnOk result (IsReplaced self.old unit (mentioned new.now) self.new) }
        ensures err { OnErr result (self.new ≡ self.old) }
    {
        self.tables.replace(alloc, unit, old, new)
    }

    /// Takes the unit out of the index, with these mentions. If there is no memory, the index stays unchanged.
    pub fn remove(&mut self, alloc: Global, unit: &Name, old: &Mentions) -> Result<(), AllocError>
        requires known { IsIndexedAs self.old unit.now (mentioned old.now) }
        ensures ok { OnOk result (IsRemoved self.old unit.now self.new) }
        ensures err { OnErr result (self.new ≡ self.old) }
    {
        self.tables.remove(alloc, unit, old)
    }

    /// The indexed units near which one of the names is, in order.
    pub fn near_of(&self, alloc: Global, names: &[Name]) -> Result<Vec<Name>, AllocError>
        ensures ordered { IfOk result (λ units. IsStrictlySortedBy name_cmp units.items) }
        ensures exact { IfOk result
            (λ units. (unit : List ℕ) → (has_name units.items unit ≡ true)
            ↔ NearSome self.now unit names.now) }
        ensures indexed { IfOk result
            (λ units. (unit : List ℕ) → has_name units.items unit ≡ true
            → is_indexed self.now unit ≡ true) }
    {
        self.tables.near_of(alloc, names)
    }

    /// The indexed units that are one of the names or rest on one, in order.
    pub fn far_of(&self, alloc: Global, names: &[Name]) -> Result<Vec<Name>, AllocError>
        ensures ordered { IfOk result (λ units. IsStrictlySortedBy name_cmp units.items) }
        ensures exact { IfOk result
            (λ units. (unit : List ℕ) → (has_name units.items unit ≡ true)
            ↔ ReachesSome self.now unit names.now) }
        ensures indexed { IfOk result
            (λ units. (unit : List ℕ) → has_name units.items unit ≡ true
            → is_indexed self.now unit ≡ true) }
    {
        self.tables.far_of(alloc, names)
    }

    /// Each unit that mentions a name is indexed.
    pub fn users_are_indexed(&self)
        ensures { AreUnits self.now }
    {
        let _tables = &self.tables;
    }
}
