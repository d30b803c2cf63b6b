//! Shelves of entries, which are entries themselves.
ghost use Rattle.std.specs.{Prelude.{◌≡◌, ℕ, ◌<◌, List, true, IfOk, OnOk, OnErr, length}, Map.{remove_entry}, BTreeMap.{insert_entry, is_at}};
ghost use Rattle.fb_parse.specs.Text.Order.{name_cmp};
ghost use Rattle.fb_library.specs.{Entries.{shelves_of, entries_on, lasts_on}, Shelves.{AreShelves, IsShelfFor, reaches}};

use crate::entries::Entries;
use fb_parse::text::Name;
use std::alloc::{AllocError, Global};
use std::marker::{Model, PhantomData};
use std::sync::Arc;

// Full shelves become two halves. A change copies one shelf, and a copy costs a count for each.
const FULL: usize = 32;

/// Entries of which no name is greater than the last one, which need not be among them.
#[derive(Drop)]
pub(crate) struct Shelf<E> {
    last: Name,
    entries: Arc<E>,
}

/// Shelves by rising name, and how many entries are on them.
#[derive(Drop)]
pub(crate) struct Shelves<V, E: Entries<V>> {
    shelves: Vec<Shelf<E>>,
    len: usize,
    of: PhantomData<V>,
}

impl<V, E: Entries<V>> Model for Shelves<V, E> {
    ghost use Rattle.std.specs.Prelude.{ℕ, List};

    ghost Value = { List (List ℕ × V) };

    ghost use Rattle.fb_library.specs.{Entries.{shelves_of, entries_on}, Shelves.{AreCounted}};

    ghost view = { λ it. entries_on E.entries it.shelves.items };

    ghost invariant = { λ it. AreCounted (shelves_of E.entries it.shelves.items) it.len };
}

impl<V: Drop, E: Entries<V>> Entries<V> for Shelves<V, E> {
    type Spot = (usize, E::Spot);

    ghost entries = { λ it. it };

    fn new(alloc: Global) -> Shelves<V, E> {
        Shelves {
            shelves: Vec::new(alloc),
            len: 0,
            of: PhantomData,
        }
    }

    fn len(&self) -> usize {
        self.len
    }

    fn is_full(&self) -> bool {
        self.shelves.len() >= FULL
    }

    fn get(&self, name: &Name) -> Option<&Arc<V>> {
        let shelves = self.shelves.as_slice();
        match shelves.get(shelf_for(shelves, name)) {
            Some(shelf) => shelf.entries.get(name),
            None => None,
        }
    }

    fn get_near(&self, name: &Name, spot: &mut (usize, E::Spot)) -> Option<&Arc<V>> {
        let shelves = self.shelves.as_slice();
        let at = shelf_near(shelves, name, spot.0);
        spot.0 = at;
        match shelves.get(at) {
            Some(shelf) => shelf.entries.get_near(name, &mut spot.1),
            None => None,
        }
    }

    fn name_at(&self, index: usize) -> Option<Name> {
        let mut index = index;
        for shelf in &self.shelves {
            let here = shelf.entries.len();
            if index < here {
                return shelf.entries.name_at(index);
            }
            index -= here;
        }
        None
    }

    fn push_names(&self, names: &mut Vec<Name>) -> Result<(), AllocError> {
        for shelf in &self.shelves {
            shelf.entries.push_names(names)?;
        }
        Ok(())
    }

    fn copy(&self) -> Result<Shelves<V, E>, AllocError> {
        let shelves = copies(*self.shelves.allocator(), self.shelves.as_slice())?;
        Ok(Shelves {
            shelves,
            len: self.len,
            of: PhantomData,
        })
    }

    fn halves(&self) -> Result<(Shelves<V, E>, Shelves<V, E>), AllocError> {
        let alloc = *self.shelves.allocator();
        let shelves = self.shelves.as_slice();
        let half = shelves.len() / 2;
        let low = counted(alloc, &shelves[..half])?;
        let high = counted(alloc, &shelves[half..])?;
        Ok((low, high))
    }

    fn put(&mut self, name: Name, value: Arc<V>) -> Result<(), AllocError>
        ensures ok { OnOk result (self.new ≡ insert_entry name_cmp self.old name value.value) }
        ensures err { OnErr result (self.new ≡ self.old) }
    {
        self.len = put(&mut self.shelves, self.len, name, value)?;
        Ok(())
    }

    fn remove(&mut self, name: &Name) -> Result<(), AllocError> {
        if self.get(name).is_some() {
            remove(&mut self.shelves, name)?;
            self.len -= 1;
        }
        Ok(())
    }
}

/// Some shelves, shared, with a count of their entries.
fn counted<V: Drop, E: Entries<V>>(
    alloc: Global,
    shelves: &[Shelf<E>],
) -> Result<Shelves<V, E>, AllocError>
    requires { AreShelves (shelves_of E.entries shelves.now) }
    ensures { IfOk result (λ copy. copy ≡ entries_on E.entries shelves.now) }
{
    let mut len: usize = 0;
    for shelf in shelves {
        len = len.checked_add(shelf.entries.len()).ok_or(AllocError)?;
    }
    let shelves = copies(alloc, shelves)?;
    Ok(Shelves {
        shelves,
        len,
        of: PhantomData,
    })
}

/// The same shelves, shared.
fn copies<V, E: Entries<V>>(
    alloc: Global,
    shelves: &[Shelf<E>],
) -> Result<Vec<Shelf<E>>, AllocError>
    ensures { IfOk result (λ copies. shelves_of E.entries copies.items
        ≡ shelves_of E.entries shelves.now) }
{
    let mut copies = Vec::with_capacity(alloc, shelves.len())?;
    for shelf in shelves {
        let entries = shelf.entries.clone()?;
        copies.push(Shelf {
            last: shelf.last,
            entries,
        })?;
    }
    Ok(copies)
}

/// The index of the shelf where a name is if it is anywhere: the first that does not end below it.
fn shelf_for<V, E: Entries<V>>(shelves: &[Shelf<E>], name: &Name) -> usize
    requires { AreShelves (shelves_of E.entries shelves.now) }
    ensures { IsShelfFor (lasts_on E.entries shelves.now) name.now result }
{
    match shelves.binary_search_by(|shelf| shelf.last.cmp(name)) {
        Ok(at) => at,
        Err(at) => at,
    }
}

/// Whether a name is on the shelf of this index if it is anywhere: those before it end below the name, and it does not.
fn is_shelf_for<V, E: Entries<V>>(shelves: &[Shelf<E>], name: &Name, at: usize) -> bool
    requires { AreShelves (shelves_of E.entries shelves.now) }
    ensures { result ≡ true → IsShelfFor (lasts_on E.entries shelves.now) name.now at }
{
    if at >= shelves.len() || shelves[at].last.cmp(name).is_lt() {
        return false;
    }
    at == 0 || shelves[at - 1].last.cmp(name).is_lt()
}

/// The index of the shelf where a name is if it is anywhere, first looked for at this index.
fn shelf_near<V, E: Entries<V>>(shelves: &[Shelf<E>], name: &Name, at: usize) -> usize
    requires { AreShelves (shelves_of E.entries shelves.now) }
    ensures { IsShelfFor (lasts_on E.entries shelves.now) name.now result }
{
    if is_shelf_for(shelves, name, at) {
        return at;
    }
    shelf_for(shelves, name)
}

/// Puts a value under a name, in place of what was there. There are `len` entries, and the result is how many there are then.
fn put<V: Drop, E: Entries<V>>(
    shelves: &mut Vec<Shelf<E>>,
    len: usize,
    name: Name,
    value: Arc<V>,
) -> Result<usize, AllocError>
    requires order { AreShelves (shelves_of E.entries shelves.old.items) }
    requires counted { len ≡ length (entries_on E.entries shelves.old.items) }
    ensures order { AreShelves (shelves_of E.entries shelves.new.items) }
    ensures counted { IfOk result (λ len. len ≡ length (entries_on E.entries shelves.new.items)) }
    ensures ok { OnOk result (entries_on E.entries shelves.new.items
        ≡ insert_entry name_cmp (entries_on E.entries shelves.old.items) name value.value) }
    ensures err { OnErr result (entries_on E.entries shelves.new.items
        ≡ entries_on E.entries shelves.old.items) }
{
    let alloc = *shelves.allocator();
    let at = make_room(shelves, &name)?;
    let mut entries = shelves[at].entries.copy()?;
    let others = len - entries.len();
    entries.put(name, value)?;
    let len = others.checked_add(entries.len()).ok_or(AllocError)?;
    let entries = Arc::new(alloc, entries)?;
    shelves[at].entries = entries;
    Ok(len)
}

/// Removes a name that is there.
fn remove<V: Drop, E: Entries<V>>(
    shelves: &mut Vec<Shelf<E>>,
    name: &Name,
) -> Result<(), AllocError>
    requires order { AreShelves (shelves_of E.entries shelves.old.items) }
    requires there { reaches (lasts_on E.entries shelves.old.items) name.now ≡ true }
    ensures order { AreShelves (shelves_of E.entries shelves.new.items) }
    ensures ok { OnOk result (entries_on E.entries shelves.new.items
        ≡ remove_entry (is_at (name_cmp name.now)) (entries_on E.entries shelves.old.items)) }
    ensures err { OnErr result (entries_on E.entries shelves.new.items
        ≡ entries_on E.entries shelves.old.items) }
{
    let alloc = *shelves.allocator();
    let at = shelf_for(shelves.as_slice(), name);
    let mut entries = shelves[at].entries.copy()?;
    entries.remove(name)?;
    let entries = Arc::new(alloc, entries)?;
    shelves[at].entries = entries;
    clear_away(shelves, at);
    Ok(())
}

/// Takes a shelf out that has no entries: otherwise names that come and go would leave ever more of them.
fn clear_away<V: Drop, E: Entries<V>>(shelves: &mut Vec<Shelf<E>>, at: usize)
    requires at { at < length shelves.old.items }
    requires order { AreShelves (shelves_of E.entries shelves.old.items) }
    ensures order { AreShelves (shelves_of E.entries shelves.new.items) }
    ensures same { entries_on E.entries shelves.new.items
        ≡ entries_on E.entries shelves.old.items }
{
    if shelves[at].entries.len() == 0 {
        let _ = shelves.remove(at);
    }
}

/// Ensures that there is a shelf for the name, which is not full, and gives its index.
fn make_room<V: Drop, E: Entries<V>>(
    shelves: &mut Vec<Shelf<E>>,
    name: &Name,
) -> Result<usize, AllocError>
    requires { AreShelves (shelves_of E.entries shelves.old.items) }
    ensures order { AreShelves (shelves_of E.entries shelves.new.items) }
    ensures same { entries_on E.entries shelves.new.items
        ≡ entries_on E.entries shelves.old.items }
    ensures at { IfOk result (IsShelfFor (lasts_on E.entries shelves.new.items) name.now) }
    ensures room { IfOk result (λ at. at < length shelves.new.items) }
{
    let at = shelf_for(shelves.as_slice(), name);
    if at < shelves.len() && !shelves[at].entries.is_full() {
        return Ok(at);
    }
    widen(shelves, at, name)?;
    Ok(shelf_for(shelves.as_slice(), name))
}

/// Ensures that there is a shelf for the name; before, `at` is the index of that shelf, or the number of the shelves if there is none.
fn widen<V: Drop, E: Entries<V>>(
    shelves: &mut Vec<Shelf<E>>,
    at: usize,
    name: &Name,
) -> Result<(), AllocError>
    requires order { AreShelves (shelves_of E.entries shelves.old.items) }
    requires at { IsShelfFor (lasts_on E.entries shelves.old.items) name.now at }
    ensures order { AreShelves (shelves_of E.entries shelves.new.items) }
    ensures same { entries_on E.entries shelves.new.items
        ≡ entries_on E.entries shelves.old.items }
    ensures room { OnOk result (reaches (lasts_on E.entries shelves.new.items) name.now ≡ true) }
{
    if at < shelves.len() {
        halve(shelves, at)
    } else {
        reach(shelves, *name)
    }
}

/// Makes two shelves of one, if both halves have entries.
fn halve<V: Drop, E: Entries<V>>(shelves: &mut Vec<Shelf<E>>, at: usize) -> Result<(), AllocError>
    requires at { at < length shelves.old.items }
    requires order { AreShelves (shelves_of E.entries shelves.old.items) }
    ensures order { AreShelves (shelves_of E.entries shelves.new.items) }
    ensures same { entries_on E.entries shelves.new.items
        ≡ entries_on E.entries shelves.old.items }
    ensures room { (name : List ℕ) → reaches (lasts_on E.entries shelves.old.items) name ≡ true
        → reaches (lasts_on E.entries shelves.new.items) name ≡ true }
{
    let (low, high) = shelves[at].entries.halves()?;
    if high.len() == 0 {
        return Ok(());
    }
    let last = match low.name_at(low.len().saturating_sub(1)) {
        Some(last) => last,
        None => return Ok(()),
    };
    let alloc = *shelves.allocator();
    let low = Arc::new(alloc, low)?;
    let high = Arc::new(alloc, high)?;
    shelves.insert(at, Shelf { last, entries: low })?;
    shelves[at + 1].entries = high;
    Ok(())
}

/// Has the shelves reach a name that all of them end below: the last one, or a new one if that is
/// full.
fn reach<V: Drop, E: Entries<V>>(shelves: &mut Vec<Shelf<E>>, name: Name) -> Result<(), AllocError>
    requires order { AreShelves (shelves_of E.entries shelves.old.items) }
    requires past { IsShelfFor (lasts_on E.entries shelves.old.items) name (length shelves.old.items) }
    ensures order { AreShelves (shelves_of E.entries shelves.new.items) }
    ensures same { entries_on E.entries shelves.new.items
        ≡ entries_on E.entries shelves.old.items }
    ensures room { OnOk result (reaches (lasts_on E.entries shelves.new.items) name ≡ true) }
{
    let count = shelves.len();
    if count > 0 && !shelves[count - 1].entries.is_full() {
        shelves[count - 1].last = name;
        return Ok(());
    }
    let alloc = *shelves.allocator();
    let entries = Arc::new(alloc, E::new(alloc))?;
    shelves.reserve_exact(1)?;
    Ok(shelves.push(Shelf {
        last: name,
        entries,
    })?)
}
