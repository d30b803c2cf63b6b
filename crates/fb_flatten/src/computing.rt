//! The nets of units, with those that are found on the way.
ghost use Rattle.std.specs.Prelude.{◌≡◌, ℕ, List, true, All, [], IfOk, IfSome, IsNone, Some, Contains, ◌↔◌, ◌⊎◌};
ghost use Rattle.fb_types.specs.{Library.Rests.{PartRests}, Order.{IsOrdered}, Reaches.{PartRestsOnRecursive, SomePartRestsOnRecursive}};
ghost use Rattle.fb_types.specs.{Library.View.{tree_at}, Units.{HasNet, has_net_in}};
ghost use Rattle.fb_flatten.specs.{Hints.{AreFaultless, AreRightHints}, Inner.{IsInnerNet}, Net.{IsNet, plain_net}, Nets.{net_at}, Suspects.{AreFinite}};
ghost use Rattle.fb_flatten.specs.Tables.{IsUnitOrder};

use crate::blocking::{blocking, has_some};
use crate::counts::counts_below;
use crate::inner::{Inner, inner_nets};
use crate::suspects::{parts_where_absent, suspects};
use crate::units::{Composed, flat_of_unit, instances_of_unit};
use fb_types::library::{View, far};
use fb_types::plain::INSTANCE_LIMIT;
use fb_types::text::Name;
use fb_types::{
    Hints, KnownFaultless, Net, Uncached, all_inner_first, inner_first, networks_of, recursive,
};
use std::alloc::{AllocError, Global};

/// The net of a unit, and nets of other units that were composed on the way.
#[derive(Drop)]
pub struct Computed {
    pub net: Net,
    pub inner: Vec<Inner>,
}

fn alone(alloc: Global, net: Net) -> Computed
    ensures net { result.net ≡ net }
    ensures inner { result.inner.items ≡ [] }
{
    Computed {
        net,
        inner: Vec::new(alloc),
    }
}

/// The net of a unit, if the nets of some units are kept and some units are known to be present and without faults, and nets of units that it
/// rests on. Nothing is checked or composed of what a unit rests on whose kept net is flat or too large.
pub fn compute<V: View, K: Hints + KnownFaultless>(
    alloc: Global,
    view: &V,
    unit: Name,
    known: &K,
) -> Result<Computed, AllocError>
    requires net { has_net_in (tree_at (V.sources view.now) unit) ≡ true }
    requires right { AreRightHints (V.sources view.now) (K.hints known.now) }
    requires faultless { AreFaultless (V.sources view.now) (K.faultless known.now) }
    ensures net { IfOk result (λ it. net_at (V.sources view.now) unit ≡ Some (plain_net it.net)) }
    ensures inner { IfOk result (λ it. All (IsInnerNet (V.sources view.now) unit) it.inner.items) }
{
    let suspects = suspects(alloc, view, known, unit)?;
    let parts = parts_where_absent(alloc, view, known, suspects.as_slice())?;
    let found = blocking(alloc, view, known, &parts, suspects.as_slice())?;
    if has_some(found.as_slice()) {
        return Ok(alone(alloc, Net::Blocked(found)));
    }
    let rest = Uncached {
        view,
        hints: known,
        unit,
    };
    match order_of(alloc, &rest, unit, suspects.as_slice())? {
        None => {
            let names = far(alloc, view, unit)?;
            let back = recursive(alloc, view, names.as_slice())?;
            Ok(alone(alloc, Net::Recursive(back)))
        }
        Some(order) => compute_in_order(alloc, view, known, &unit, order.as_slice()),
    }
}

/// All names that the unit rests on by parts, each after its own parts. None if one of the suspects, or of these names, reaches itself.
fn order_of<V: View>(
    alloc: Global,
    view: &V,
    unit: Name,
    suspects: &[Name],
) -> Result<Option<Vec<Name>>, AllocError>
    ensures ordered { IfOk result
        (λ found. IfSome found (λ order. IsOrdered (V.sources view.now) order.items)) }
    ensures whole { IfOk result (λ found. IfSome found
        (λ order. (v : List ℕ) → Contains order.items v ↔ PartRests (V.sources view.now) unit v)) }
    ensures finite { IfOk result (λ found. IfSome found
        (λ order. AreFinite (V.sources view.now) suspects.now)) }
    ensures recursive { IfOk result (λ found. IsNone found
        → (SomePartRestsOnRecursive (V.sources view.now) suspects.now
        ⊎ PartRestsOnRecursive (V.sources view.now) unit)) }
{
    if all_inner_first(alloc, view, suspects)?.is_none() {
        return Ok(None);
    }
    inner_first(alloc, view, unit)
}

/// The net of a unit that nothing blocks, with the nets that are found on the way. What must still be read is in an order with inner types first.
fn compute_in_order<V: View, H: Hints>(
    alloc: Global,
    view: &V,
    hints: &H,
    unit: &Name,
    order: &[Name],
) -> Result<Computed, AllocError>
    requires net { HasNet (V.sources view.now) unit.now }
    requires order { IsUnitOrder (V.sources view.now) (H.hints hints.now) unit.now order.now }
    requires right { AreRightHints (V.sources view.now) (H.hints hints.now) }
    ensures net { IfOk result (λ it. IsNet (V.sources view.now) unit.now (plain_net it.net)) }
    ensures inner { IfOk result
        (λ it. All (IsInnerNet (V.sources view.now) unit.now) it.inner.items) }
{
    let counts = counts_below(alloc, view, unit)?;
    let instances = instances_of_unit(view, &counts, unit);
    if instances > INSTANCE_LIMIT {
        return Ok(alone(alloc, Net::TooLarge));
    }
    let table = networks_of(alloc, view, order)?;
    let Composed { flat, flats } = flat_of_unit(alloc, view, hints, &table, order, unit)?;
    let inner = inner_nets(alloc, flats, &counts)?;
    let net = Net::Flat(flat);
    Ok(Computed { net, inner })
}
