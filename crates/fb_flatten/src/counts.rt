//! Counts of what a unit rests on.
ghost use Rattle.std.specs.{Prelude.{ℕ, List, Contains, IfOk}, BTreeMap.{get}};
ghost use Rattle.fb_types.specs.{Holders.{holders_of}, Library.View.{parts_at}, Order.{IsOrdered}, Text.Order.{name_cmp}, Units.{HasNet}};
ghost use Rattle.fb_flatten.specs.{Net.{IsSound}, Tables.{AllCounted, AreRightCounts}};

use fb_types::library::View;
use fb_types::text::Name;
use fb_types::{Counts, Holders, add_count, inner_first};
use std::alloc::{AllocError, Global};
use std::collections::BTreeMap;

/// How many instances each subapplication of the order holds.
fn counts_in_order<V: View>(alloc: Global, view: &V, order: &[Name]) -> Result<Counts, AllocError>
    requires order { IsOrdered (holders_of (V.sources view.now)) order.now }
    requires sound { (name : List ℕ) → Contains order.now name → IsSound (V.sources view.now) name }
    ensures all { IfOk result
        (λ counts. AllCounted (V.sources view.now) (get name_cmp counts) order.now) }
    ensures right { IfOk result
        (λ counts. AreRightCounts (V.sources view.now) (get name_cmp counts)) }
{
    let mut counts = BTreeMap::new(alloc);
    for name in order {
        add_count(view, &mut counts, name)?;
    }
    Ok(counts)
}

/// How many instances each subapplication holds that is a part of the unit, and each below these.
pub(crate) fn counts_below<V: View>(
    alloc: Global,
    view: &V,
    unit: &Name,
) -> Result<Counts, AllocError>
    requires net { HasNet (V.sources view.now) unit.now }
    requires sound { IsSound (V.sources view.now) unit.now }
    ensures own { IfOk result (λ counts.
        AllCounted (V.sources view.now) (get name_cmp counts)
        (parts_at (V.sources view.now) unit.now)) }
    ensures right { IfOk result
        (λ counts. AreRightCounts (V.sources view.now) (get name_cmp counts)) }
{
    let holders = Holders { view };
    let order = inner_first(alloc, &holders, *unit)?.unwrap();
    counts_in_order(alloc, view, order.as_slice())
}
