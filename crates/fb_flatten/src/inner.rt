//! Nets of units that others rest on.
ghost use Rattle.std.specs.{Prelude.{◌≡◌, true, All, IfOk}, BTreeMap.{get}};
ghost use Rattle.fb_types.specs.Text.Order.{name_cmp};
ghost use Rattle.fb_flatten.specs.Inner.{IsCountedFlat, IsCountedWithin};

use fb_types::plain::{Flat, INSTANCE_LIMIT};
use fb_types::text::Name;
use fb_types::{Counts, Net};
use std::alloc::{AllocError, Global};
use std::collections::BTreeMap;

/// The net of a unit.
#[derive(Drop)]
pub struct Inner {
    pub unit: Name,
    pub net: Net,
}

/// Whether a type is counted, and its instances are within the limit.
fn is_within(counts: &Counts, name: &Name) -> bool
    ensures { result ≡ true → IsCountedWithin (get name_cmp counts.now) name.now }
{
    match counts.get(name) {
        Some(count) => *count <= INSTANCE_LIMIT,
        None => false,
    }
}

/// The nets of the types that have these flat networks and whose instances are within the limit.
pub(crate) fn inner_nets(
    alloc: Global,
    flats: BTreeMap<Name, Flat>,
    counts: &Counts,
) -> Result<Vec<Inner>, AllocError>
    ensures { IfOk result
        (λ nets. All (IsCountedFlat (get name_cmp flats) (get name_cmp counts.now)) nets.items) }
{
    let mut nets = Vec::new(alloc);
    for (unit, flat) in flats {
        if is_within(counts, &unit) {
            let net = Net::Flat(flat);
            nets.push(Inner { unit, net })?;
        }
    }
    Ok(nets)
}
