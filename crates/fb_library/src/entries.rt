//! What a shelf holds.
ghost use Rattle.std.specs.{Prelude.{◌≡◌, ◌++◌, ℕ, List, [], IfOk, OnOk, OnErr, length, slice_get, map}, Option.{option_map}, Map.{lookup, remove_entry}};
ghost use Rattle.std.specs.BTreeMap.{insert_entry, is_at};
ghost use Rattle.fb_parse.specs.Text.Order.{name_cmp};

use fb_parse::text::Name;
use std::alloc::{AllocError, Global};
use std::sync::Arc;

/// Values by name, in the order of the names. A copy shares all that is not changed after it. A
/// function leaves the entries unchanged if there was no memory.
pub(crate) trait Entries<V>: Drop {
    /// Where a look-up ended.
    type Spot: Copy;

    ghost entries: { Self → List (List ℕ × V) };

    /// No entries.
    fn new(alloc: Global) -> Self
        ensures { entries result ≡ [] };

    /// How many entries there are.
    fn len(&self) -> usize
        ensures { result ≡ length (entries self.now) };

    /// Whether they should be halved before one more is put.
    fn is_full(&self) -> bool;

    /// The value under a name.
    fn get(&self, name: &Name) -> Option<&Arc<V>>
        ensures { option_map (λ it. it.now.value) result
            ≡ lookup (is_at (name_cmp name.now)) (entries self.now) };

    /// The same. It begins at the spot where the last look-up ended, and is short if that was of a name near this one.
    fn get_near(&self, name: &Name, spot: &mut Self::Spot) -> Option<&Arc<V>>
        ensures { option_map (λ it. it.now.value) result
            ≡ lookup (is_at (name_cmp name.now)) (entries self.now) };

    /// The name at an index, in the order of the names.
    fn name_at(&self, index: usize) -> Option<Name>
        ensures { result ≡ slice_get (map (λ e. e.0) (entries self.now)) index };

    /// Pushes the names, in order.
    fn push_names(&self, names: &mut Vec<Name>) -> Result<(), AllocError>
        ensures { OnOk result (names.new.items
            ≡ names.old.items ++ map (λ e. e.0) (entries self.now)) };

    /// The same entries, shared.
    fn copy(&self) -> Result<Self, AllocError>
        ensures { IfOk result (λ copy. entries copy ≡ entries self.now) };

    /// The lower half of the entries, and the upper one.
    fn halves(&self) -> Result<(Self, Self), AllocError>
        ensures { IfOk result (λ halves. entries halves.0 ++ entries halves.1 ≡ entries self.now) };

    /// Puts a value under a name, in place of what was there.
    fn put(&mut self, name: Name, value: Arc<V>) -> Result<(), AllocError>
        ensures ok { OnOk result (entries self.new
            ≡ insert_entry name_cmp (entries self.old) name value.value) }
        ensures err { OnErr result (entries self.new ≡ entries self.old) };

    /// Removes what is under a name.
    fn remove(&mut self, name: &Name) -> Result<(), AllocError>
        ensures ok { OnOk result (entries self.new
            ≡ remove_entry (is_at (name_cmp name.now)) (entries self.old)) }
        ensures err { OnErr result (entries self.new ≡ entries self.old) };
}
