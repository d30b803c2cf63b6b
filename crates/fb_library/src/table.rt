//! Values by name.
//! A table is shelves of 16 to 32 names in rooms of 16 to 32 shelves, each under an `Arc`: a changed copy costs one count for each room, and nothing
//! needs to be undone if memory runs out. A tree of pointers would copy less and look up more slowly.
ghost use Rattle.std.specs.{Prelude.{◌≡◌, [], IfOk, OnOk, OnErr, length, slice_get, map}, Option.{option_map}, List.Sorted.{IsStrictlySortedBy}};
ghost use Rattle.std.specs.{Map.{lookup, remove_entry}, BTreeMap.{insert_entry, is_at}};
ghost use Rattle.fb_parse.specs.Text.Order.{name_cmp};

use crate::entries::Entries;
use crate::placed::Places;
use crate::shelves::Shelves;
use fb_parse::text::Name;
use std::alloc::{AllocError, Global};
use std::marker::Model;
use std::sync::Arc;

/// Where a look-up in a table ended. Any spot serves for any table.
#[derive(Clone, Copy)]
pub struct Spot {
    at: (usize, (usize, usize)),
}

impl Spot {
    /// A spot for the first look-up.
    pub fn first() -> Spot {
        Spot { at: (0, (0, 0)) }
    }
}

/// Values by name, in the order of the names. A copy shares all that is not changed after it.
pub struct Table<V: Drop> {
    // A copy of n names costs a count for about n / 600 rooms of shelves.
    rooms: Shelves<V, Shelves<V, Places<V>>>,
}

impl<V: Drop> Drop for Table<V> {
    fn drop(self) {
        let Self { rooms: _ } = self;
    }
}

impl<V: Drop> Model for Table<V> {
    ghost use Rattle.std.specs.Prelude.{ℕ, List};

    ghost Value = { List (List ℕ × V) };

    ghost use Rattle.std.specs.List.Sorted.{IsStrictlySortedBy};
    ghost use Rattle.fb_parse.specs.Text.Order.{name_cmp};
    ghost use Rattle.fb_library.specs.Shelves.{names_of};

    ghost view = { λ it. it.rooms };

    ghost invariant = { λ it. IsStrictlySortedBy name_cmp (names_of it.rooms) };
}

impl<V: Drop> Table<V> {
    /// An empty table.
    pub fn new(alloc: Global) -> Table<V>
        ensures { result ≡ [] }
    {
        Table {
            rooms: Entries::new(alloc),
        }
    }

    /// How many entries there are.
    pub fn len(&self) -> usize
        ensures { result ≡ length self.now }
    {
        self.rooms.len()
    }

    /// The value under a name, to be shared.
    pub fn get(&self, name: &Name) -> Option<&Arc<V>>
        ensures { option_map (λ it. it.now.value) result
            ≡ lookup (is_at (name_cmp name.now)) self.now }
    {
        self.rooms.get(name)
    }

    /// The same. It begins at the spot where the last look-up ended, and is short if that was of a name near this one.
    pub fn get_near(&self, name: &Name, spot: &mut Spot) -> Option<&Arc<V>>
        ensures { option_map (λ it. it.now.value) result
            ≡ lookup (is_at (name_cmp name.now)) self.now }
    {
        self.rooms.get_near(name, &mut spot.at)
    }

    /// The name at an index, in the order of the names.
    pub fn name_at(&self, index: usize) -> Option<Name>
        ensures name { result ≡ slice_get (map (λ e. e.0) self.now) index }
        ensures sorted { IsStrictlySortedBy name_cmp (map (λ e. e.0) self.now) }
    {
        self.rooms.name_at(index)
    }

    /// The names, in order.
    pub fn names(&self, alloc: Global) -> Result<Vec<Name>, AllocError>
        ensures names { IfOk result (λ names. names.items ≡ map (λ e. e.0) self.now) }
        ensures sorted { IsStrictlySortedBy name_cmp (map (λ e. e.0) self.now) }
    {
        let mut names = Vec::with_capacity(alloc, self.rooms.len())?;
        self.rooms.push_names(&mut names)?;
        Ok(names)
    }

    /// A table that reads as this one, sharing its values.
    pub fn copy(&self) -> Result<Table<V>, AllocError>
        ensures { IfOk result (λ copy. copy ≡ self.now) }
    {
        let rooms = self.rooms.copy()?;
        Ok(Table { rooms })
    }

    /// Puts a value under a name, in place of what was there. If there was no memory the table
    /// stays unchanged.
    pub fn put(&mut self, name: Name, value: Arc<V>) -> Result<(), AllocError>
        ensures ok { OnOk result (self.new ≡ insert_entry name_cmp self.old name value.value) }
        ensures err { OnErr result (self.new ≡ self.old) }
    {
        self.rooms.put(name, value)
    }

    /// Removes what is under a name. If there was no memory the table stays unchanged.
    pub fn remove(&mut self, name: &Name) -> Result<(), AllocError>
        ensures ok { OnOk result (self.new ≡ remove_entry (is_at (name_cmp name.now)) self.old) }
        ensures err { OnErr result (self.new ≡ self.old) }
    {
        self.rooms.remove(name)
    }
}
