//! The flat networks of types whose inner types come first in an order.
ghost use Rattle.std.specs.{Prelude.{IfOk}, BTreeMap.{get}};
ghost use Rattle.fb_types.specs.Text.Order.{name_cmp};
ghost use Rattle.fb_flatten.specs.{Hints.{AreRightHints}, Tables.{AllFinished, AreMissing, IsTable, IsUnitOrder, known_flats}};

use fb_types::library::View;
use fb_types::plain::Flat;
use fb_types::text::Name;
use fb_types::{Hints, Table, add_flat, is_missing};
use std::alloc::{AllocError, Global};
use std::collections::BTreeMap;

/// The flat networks that are missing for a unit beside those that are kept.
pub(crate) fn missing_flats<V: View, H: Hints>(
    alloc: Global,
    view: &V,
    hints: &H,
    table: &Table,
    order: &[Name],
    unit: &Name,
) -> Result<BTreeMap<Name, Flat>, AllocError>
    requires order { IsUnitOrder (V.sources view.now) (H.hints hints.now) unit.now order.now }
    requires table { IsTable (V.sources view.now) (get name_cmp table.now) order.now }
    requires right { AreRightHints (V.sources view.now) (H.hints hints.now) }
    ensures finished { IfOk result (λ composed.
        AllFinished (V.sources view.now)
        (known_flats (H.hints hints.now) (get name_cmp composed)) unit.now order.now) }
    ensures missing { IfOk result (λ composed.
        AreMissing (V.sources view.now) (H.hints hints.now) unit.now order.now
        (get name_cmp composed)) }
{
    let mut composed = BTreeMap::new(alloc);
    for name in order {
        if is_missing(view, hints, unit, name) {
            add_flat(alloc, hints, table, &mut composed, name)?;
        }
    }
    Ok(composed)
}
