//! Values by name in one list.
ghost use Rattle.std.specs.{Prelude.{◌≡◌, IfOk, IfErr, OnOk, OnErr}, BTreeMap.{insert_entry}, List.Sorted.{IsStrictlySortedBy}};
ghost use Rattle.fb_parse.specs.Text.Order.{name_cmp};
ghost use Rattle.fb_library.specs.{Place.{IsAt, IsGapFor}, Entries.{entries_of, names_in}};

use crate::entries::Entries;
use fb_parse::text::Name;
use std::alloc::{AllocError, Global};
use std::marker::Model;
use std::sync::Arc;

// A full list becomes two halves, so it has about 24 names. A change copies one list, with a
// count for each of its names: each has its own memory, which is seldom in the cache.
const FULL: usize = 32;

/// A value under its name.
#[derive(Drop)]
struct Placed<V> {
    name: Name,
    value: Arc<V>,
}

/// Values by rising name.
#[derive(Drop)]
pub(crate) struct Places<V> {
    places: Vec<Placed<V>>,
}

impl<V> Model for Places<V> {
    ghost use Rattle.std.specs.Prelude.{ℕ, List};

    ghost Value = { List (List ℕ × V) };

    ghost use Rattle.std.specs.List.Sorted.{IsStrictlySortedBy};
    ghost use Rattle.fb_parse.specs.Text.Order.{name_cmp};
    ghost use Rattle.fb_library.specs.Entries.{entries_of, names_in};

    ghost view = { λ it. entries_of it.places.items };

    ghost invariant = { λ it. IsStrictlySortedBy name_cmp (names_in it.places.items) };
}

impl<V: Drop> Entries<V> for Places<V> {
    type Spot = usize;

    ghost entries = { λ it. it };

    fn new(alloc: Global) -> Places<V> {
        Places {
            places: Vec::new(alloc),
        }
    }

    fn len(&self) -> usize {
        self.places.len()
    }

    fn is_full(&self) -> bool {
        self.places.len() >= FULL
    }

    fn get(&self, name: &Name) -> Option<&Arc<V>> {
        let places = self.places.as_slice();
        match place(places, name) {
            Ok(at) => Some(&places[at].value),
            Err(_) => None,
        }
    }

    fn get_near(&self, name: &Name, spot: &mut usize) -> Option<&Arc<V>> {
        let places = self.places.as_slice();
        match place_near(places, name, *spot) {
            Ok(at) => {
                *spot = at;
                Some(&places[at].value)
            }
            Err(_) => None,
        }
    }

    fn name_at(&self, index: usize) -> Option<Name> {
        match self.places.get(index) {
            Some(placed) => Some(placed.name),
            None => None,
        }
    }

    fn push_names(&self, names: &mut Vec<Name>) -> Result<(), AllocError> {
        for placed in &self.places {
            names.push(placed.name)?;
        }
        Ok(())
    }

    fn copy(&self) -> Result<Places<V>, AllocError> {
        copied(*self.places.allocator(), self.places.as_slice())
    }

    fn halves(&self) -> Result<(Places<V>, Places<V>), AllocError> {
        let alloc = *self.places.allocator();
        let places = self.places.as_slice();
        let half = places.len() / 2;
        let low = copied(alloc, &places[..half])?;
        let high = copied(alloc, &places[half..])?;
        Ok((low, high))
    }

    fn put(&mut self, name: Name, value: Arc<V>) -> Result<(), AllocError>
        ensures ok { OnOk result (self.new ≡ insert_entry name_cmp self.old name value.value) }
        ensures err { OnErr result (self.new ≡ self.old) }
    {
        let placed = Placed { name, value };
        match place(self.places.as_slice(), &name) {
            Ok(at) => {
                self.places[at] = placed;
                Ok(())
            }
            Err(at) => Ok(self.places.insert(at, placed)?),
        }
    }

    fn remove(&mut self, name: &Name) -> Result<(), AllocError> {
        if let Ok(at) = place(self.places.as_slice(), name) {
            let _ = self.places.remove(at);
        }
        Ok(())
    }
}

/// The same places, sharing their values.
fn copied<V: Drop>(alloc: Global, places: &[Placed<V>]) -> Result<Places<V>, AllocError>
    requires { IsStrictlySortedBy name_cmp (names_in places.now) }
    ensures { IfOk result (λ copy. copy ≡ entries_of places.now) }
{
    // There is room for one more, which may be put next.
    let mut copy = Vec::with_capacity(alloc, places.len().saturating_add(1))?;
    for placed in places {
        let value = placed.value.clone()?;
        copy.push(Placed {
            name: placed.name,
            value,
        })?;
    }
    Ok(Places { places: copy })
}

/// The same, first looked for right after another place.
fn place_near<V>(places: &[Placed<V>], name: &Name, before: usize) -> Result<usize, usize>
    requires { IsStrictlySortedBy name_cmp (names_in places.now) }
    ensures found { IfOk result (IsAt (names_in places.now) name.now) }
    ensures absent { IfErr result (IsGapFor (names_in places.now) name.now) }
{
    let next = before.saturating_add(1);
    if next < places.len() && places[next].name.cmp(name).is_eq() {
        return Ok(next);
    }
    place(places, name)
}

/// The place of the name, or the one at which it would be inserted.
fn place<V>(places: &[Placed<V>], name: &Name) -> Result<usize, usize>
    requires { IsStrictlySortedBy name_cmp (names_in places.now) }
    ensures found { IfOk result (IsAt (names_in places.now) name.now) }
    ensures absent { IfErr result (IsGapFor (names_in places.now) name.now) }
{
    places.binary_search_by(|placed| placed.name.cmp(name))
}
