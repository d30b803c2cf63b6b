//! The instances and the flat networks of units whose inner types come first in an order.
ghost use Rattle.std.specs.{Prelude.{IfOk}, BTreeMap.{get}};
ghost use Rattle.fb_types.specs.{Library.View.{parts_at}, Text.Order.{name_cmp}, Units.{HasNet, IsUnitFlat, IsWithinLimit}};
ghost use Rattle.fb_flatten.specs.{Hints.{AreRightHints}, Net.{IsSound}};
ghost use Rattle.fb_flatten.specs.Tables.{AllCounted, AllFinished, AreMissing, IsTable, IsUnitCount, IsUnitOrder, known_flats};

use crate::flats::missing_flats;
use fb_types::library::{View, tree_by_name};
use fb_types::plain::Flat;
use fb_types::text::Name;
use fb_types::{
    CachedFlats, Counts, Hints, Table, applications, count_of_unit, flat_of_applications,
    flat_of_type, is_of_system,
};
use std::alloc::{AllocError, Global};
use std::collections::BTreeMap;

/// How many instances a unit holds at all depths, up to one past the limit, by the counts of its parts.
pub(crate) fn instances_of_unit<V: View>(view: &V, counts: &Counts, unit: &Name) -> u32
    requires sound { IsSound (V.sources view.now) unit.now }
    requires counted { AllCounted (V.sources view.now) (get name_cmp counts.now)
        (parts_at (V.sources view.now) unit.now) }
    ensures { IsUnitCount (V.sources view.now) unit.now result }
{
    let decl = tree_by_name(view, unit).unwrap();
    count_of_unit(counts, decl)
}

/// A flat network, and those that were composed for it, by the names of their types.
#[derive(Drop)]
pub(crate) struct Composed {
    pub(crate) flat: Flat,
    pub(crate) flats: BTreeMap<Name, Flat>,
}

/// The flat network of a unit that is not too large, composed of kept ones and of those that are missing beside them.
pub(crate) fn flat_of_unit<V: View, H: Hints>(
    alloc: Global,
    view: &V,
    hints: &H,
    table: &Table,
    order: &[Name],
    unit: &Name,
) -> Result<Composed, AllocError>
    requires net { HasNet (V.sources view.now) unit.now }
    requires order { IsUnitOrder (V.sources view.now) (H.hints hints.now) unit.now order.now }
    requires table { IsTable (V.sources view.now) (get name_cmp table.now) order.now }
    requires right { AreRightHints (V.sources view.now) (H.hints hints.now) }
    requires small { IsWithinLimit (V.sources view.now) unit.now }
    ensures flat { IfOk result (λ it. IsUnitFlat (V.sources view.now) unit.now it.flat) }
    ensures finished { IfOk result (λ it.
        AllFinished (V.sources view.now)
        (known_flats (H.hints hints.now) (get name_cmp it.flats)) unit.now order.now) }
    ensures missing { IfOk result (λ it.
        AreMissing (V.sources view.now) (H.hints hints.now) unit.now order.now
        (get name_cmp it.flats)) }
{
    let decl = tree_by_name(view, unit).unwrap();
    let flats = missing_flats(alloc, view, hints, table, order, unit)?;
    let nets = CachedFlats {
        hints,
        composed: &flats,
    };
    let flat = if is_of_system(decl) {
        let found = applications(alloc, decl)?;
        flat_of_applications(alloc, table, &nets, found.as_slice())?
    } else {
        flat_of_type(alloc, table, &nets, unit)?
    };
    Ok(Composed { flat, flats })
}
