//! The flat networks of types, composed by a table and by those of inner types.
ghost use Rattle.std.specs.{Prelude.{◌≡◌, true, is_some, IfOk, OnOk}, BTreeMap.{get}};
ghost use Rattle.fb_tree.specs.Text.Order.{name_cmp};
ghost use Rattle.fb_types.specs.Tables.{IsAdded, IsComposed, SameOthers, is_missing, known_flats};

use crate::hints::{CachedFlats, Hints, is_known_whole};
use crate::kinds::is_subapplication;
use crate::tables::Table;
use fb_iface::library::View;
use fb_network::{Flat, Nets, compose_by_part};
use fb_tree::text::{Name, same_name};
use std::alloc::{AllocError, Global};
use std::collections::BTreeMap;

/// The flat network of a type.
pub fn flat_of_type<N: Nets>(
    alloc: Global,
    table: &Table,
    nets: &N,
    name: &Name,
) -> Result<Flat, AllocError>
    requires { is_some (get name_cmp table.now name.now) ≡ true }
    ensures { IfOk result (IsComposed (get name_cmp table.now) (N.nets nets.now) name.now) }
{
    let network = table.get(name).unwrap();
    compose_by_part(alloc, table, network, nets)
}

/// Whether the flat network of a type has to be composed for that of the unit: it is a subapplication below the unit, and its kept net, if
/// there is one, does not show it.
pub fn is_missing<V: View, H: Hints>(view: &V, hints: &H, unit: &Name, name: &Name) -> bool
    ensures { result ≡ is_missing (V.sources view.now) (H.hints hints.now) unit.now name.now }
{
    !same_name(unit, name) && !is_known_whole(hints, name) && is_subapplication(view, name)
}

/// Adds the flat network of a type.
pub fn add_flat<H: Hints>(
    alloc: Global,
    hints: &H,
    table: &Table,
    composed: &mut BTreeMap<Name, Flat>,
    name: &Name,
) -> Result<(), AllocError>
    requires { is_some (get name_cmp table.now name.now) ≡ true }
    ensures others { OnOk result
        (SameOthers (get name_cmp composed.old) (get name_cmp composed.new) name.now) }
    ensures added { OnOk result
        (IsAdded (get name_cmp table.now)
        (known_flats (H.hints hints.now) (get name_cmp composed.old))
        (get name_cmp composed.new) name.now) }
{
    let nets = CachedFlats {
        hints,
        composed: &*composed,
    };
    let flat = flat_of_type(alloc, table, &nets, name)?;
    composed.insert(*name, flat)?;
    Ok(())
}
