//! Lists in order, each item once.
ghost use Rattle.std.specs.{Prelude.{◌≡◌, ◌↔◌, ℕ, List, IfOk, IsTrue}, List.{Contains}, List.Sorted.{IsStrictlySortedBy}, BTreeMap.{is_at}, FinMap.{IsAntisymmetric}};
ghost use Rattle.fb_text.specs.Order.{in_order, name_cmp, names_in_order};

use crate::name::Name;
use std::alloc::{AllocError, Global};

/// Whether two names are equal.
#[tactic(auto, using(crate::proofs::OrderLemmas::same_name))]
pub fn same_name(a: &Name, b: &Name) -> bool
    ensures { result ≡ is_at (name_cmp a.now) b.now }
{
    *a == *b
}

/// The items in order, each once. A list that is so already is copied.
pub fn sorted_once<T: Ord + Copy>(alloc: Global, items: &[T]) -> Result<Vec<T>, AllocError>
    requires { IsAntisymmetric T.cmp }
    ensures { IfOk result (λ sorted. sorted.items ≡ in_order T.cmp items.now) }
{
    let mut sorted = Vec::from_slice(alloc, items)?;
    if !rises(items) {
        sorted.sort()?;
        sorted.dedup();
    }
    Ok(sorted)
}

/// The names in order, each once.
pub fn sorted_names(alloc: Global, names: &[Name]) -> Result<Vec<Name>, AllocError>
    ensures { IfOk result (λ sorted. sorted.items ≡ names_in_order names.now) }
{
    sorted_once(alloc, names)
}

/// Whether each item is below the next.
fn rises<T: Ord>(items: &[T]) -> bool
    ensures { IsTrue result → IsStrictlySortedBy T.cmp items.now }
{
    for i in 1..items.len() {
        if !items[i - 1].cmp(&items[i]).is_lt() {
            return false;
        }
    }
    true
}

/// `in_order` gives the members of a list, each once, and each below those after it.
pub fn once_and_in_order<T: Ord>()
    requires { IsAntisymmetric T.cmp }
    ensures sorted { (items : List T) → IsStrictlySortedBy T.cmp (in_order T.cmp items) }
    ensures same { (items : List T) (item : T) → Contains (in_order T.cmp items) item
        ↔ Contains items item }
{}

/// `names_in_order` gives the names of a list, each once, and each below those after it.
pub fn names_once_and_in_order()
    ensures sorted { (names : List (List ℕ)) → IsStrictlySortedBy name_cmp (names_in_order names) }
    ensures same { (names : List (List ℕ)) (name : List ℕ) → Contains (names_in_order names) name
        ↔ Contains names name }
{}
