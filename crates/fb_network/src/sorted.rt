//! Lists in order, each item once.
ghost use Rattle.std.specs.{Prelude.{◌≡◌, true, Contains, OnOk}, List.Sorted.{IsStrictlySortedBy}};

use std::alloc::AllocError;

/// Sorts the list and removes duplicates.
pub fn sort_once<T: Ord + Drop>(items: &mut Vec<T>) -> Result<(), AllocError>
    requires { (x y : T) → T.eq x y ≡ true → x ≡ y }
    ensures sorted { OnOk result (IsStrictlySortedBy T.cmp items.new.items) }
    ensures kept { OnOk result ((x : T) → Contains items.old.items x → Contains items.new.items x) }
    ensures added { OnOk result
        ((x : T) → Contains items.new.items x → Contains items.old.items x) }
{
    items.sort()?;
    items.dedup();
    Ok(())
}
