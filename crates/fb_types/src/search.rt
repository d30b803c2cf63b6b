//! The search that lists inner types first.
ghost use Rattle.std.specs.Prelude.{◌≡◌, ℕ, List, [], ◌∷◌, ◌++◌, Contains, ◌↔◌, IsNone, IfSome, IfOk, OnOk};
ghost use Rattle.fb_iface.specs.Library.Rests.{PartRests};
ghost use Rattle.fb_types.specs.{Order.{IsOrdered}, Reaches.{PartRestsOnRecursive, SomePartRests, SomePartRestsOnRecursive}, Steps.{enters}};

use fb_iface::library::{View, part_mentions};
use fb_tree::text::Name;
use std::alloc::{AllocError, Global};
use std::collections::BTreeSet;

/// A step of the search. A name is left when all its parts are listed.
#[derive(Clone, Copy)]
pub(crate) enum Step {
    Enter(Name),
    Leave(Name),
}

/// All names that the unit rests on by parts, itself included, each after its own parts. None if one of them reaches itself.
pub fn inner_first<V: View>(
    alloc: Global,
    view: &V,
    unit: Name,
) -> Result<Option<Vec<Name>>, AllocError>
    ensures ordered { IfOk result
        (λ found. IfSome found (λ order. IsOrdered (V.sources view.now) order.items)) }
    ensures whole { IfOk result (λ found. IfSome found
        (λ order. (v : List ℕ) → Contains order.items v ↔ PartRests (V.sources view.now) unit v)) }
    ensures recursive { IfOk result
        (λ found. IsNone found ↔ PartRestsOnRecursive (V.sources view.now) unit) }
{
    all_inner_first(alloc, view, &[unit])
}

/// All names that some of these rest on by parts, each after its own parts. None if one of them reaches itself.
pub fn all_inner_first<V: View>(
    alloc: Global,
    view: &V,
    names: &[Name],
) -> Result<Option<Vec<Name>>, AllocError>
    ensures ordered { IfOk result
        (λ found. IfSome found (λ order. IsOrdered (V.sources view.now) order.items)) }
    ensures whole { IfOk result (λ found. IfSome found
        (λ order. (v : List ℕ) → Contains order.items v
        ↔ SomePartRests (V.sources view.now) names.now v)) }
    ensures recursive { IfOk result
        (λ found. IsNone found ↔ SomePartRestsOnRecursive (V.sources view.now) names.now) }
{
    let mut entered = BTreeSet::new(alloc);
    let mut left = BTreeSet::new(alloc);
    let mut order = Vec::new(alloc);
    let mut steps = Vec::new(alloc);
    enter_all(names, &mut steps)?;
    while let Some(step) = steps.pop() {
        match step {
            Step::Leave(name) => {
                left.insert(name)?;
                order.push(name)?;
            }
            Step::Enter(name) => {
                if left.contains(&name) {
                    continue;
                }
                if !entered.insert(name)? {
                    return Ok(None);
                }
                steps.push(Step::Leave(name))?;
                enter_all(part_mentions(view, &name), &mut steps)?;
            }
        }
    }
    Ok(Some(order))
}

/// Enters the names, the last one first.
pub(crate) fn enter_all(names: &[Name], steps: &mut Vec<Step>) -> Result<(), AllocError>
    ensures { OnOk result (steps.new.items ≡ steps.old.items ++ enters names.now) }
{
    for name in names {
        steps.push(Step::Enter(*name))?;
    }
    Ok(())
}
