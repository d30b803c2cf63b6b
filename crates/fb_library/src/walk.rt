//! What is near a unit, and what it rests on.
ghost use Rattle.std.specs.{Prelude.{◌≡◌, ℕ, List, Contains, IfOk, OnOk}, List.Sorted.{IsStrictlySortedBy}};
ghost use Rattle.fb_parse.specs.Text.Order.{name_cmp};
ghost use Rattle.fb_library.specs.{Near.{carried_of, near_of}, Rests.{Rests}, Seen.{Opens}, View.{mentions_at}};

use crate::look_up::View;
use crate::mentions::{carried_on, mentions_by_name, part_mentions, value_mentions};
use crate::seen::{names_of, open_new};
use fb_parse::text::{Name, sorted_names};
use std::alloc::{AllocError, Global};
use std::collections::BTreeSet;

/// All names that some of these units carry, in order, each once.
pub fn carried<V: View>(alloc: Global, view: &V, units: &[Name]) -> Result<Vec<Name>, AllocError>
    ensures { IfOk result (λ names. names.items ≡ carried_of (V.sources view.now) units.now) }
{
    let mut seen = BTreeSet::new(alloc);
    let mut pending = Vec::new(alloc);
    for unit in units {
        open_new(value_mentions(view, unit), &mut seen, &mut pending)?;
    }
    while let Some(name) = pending.pop() {
        open_new(carried_on(view, &name), &mut seen, &mut pending)?;
    }
    names_of(alloc, &seen)
}

/// The unit, its parts, and what these carry, in order, each once.
#[tactic(auto, using(crate::proofs::CarriedLemmas::near_by_bases))]
pub fn near<V: View>(alloc: Global, view: &V, unit: Name) -> Result<Vec<Name>, AllocError>
    ensures { IfOk result (λ names. names.items ≡ near_of (V.sources view.now) unit) }
{
    let mut bases = Vec::new(alloc);
    bases.extend_from_slice(part_mentions(view, &unit))?;
    bases.push(unit)?;
    let mut names = carried(alloc, view, bases.as_slice())?;
    names.extend_from_slice(bases.as_slice())?;
    sorted_names(alloc, names.as_slice())
}

/// All names that the unit rests on, itself and absent ones included, in order, each once.
pub fn far<V: View>(alloc: Global, view: &V, unit: Name) -> Result<Vec<Name>, AllocError>
    ensures ordered { IfOk result (λ names. IsStrictlySortedBy name_cmp names.items) }
    ensures sound { IfOk result
        (λ names. (v : List ℕ) → Contains names.items v → Rests (V.sources view.now) unit v) }
    ensures complete { IfOk result
        (λ names. (v : List ℕ) → Rests (V.sources view.now) unit v → Contains names.items v) }
{
    let mut seen = BTreeSet::new(alloc);
    seen.insert(unit)?;
    let mut pending = Vec::new(alloc);
    pending.push(unit)?;
    while let Some(name) = pending.pop() {
        open_mentions(view, &name, &mut seen, &mut pending)?;
    }
    names_of(alloc, &seen)
}

/// Sees what the unit mentions, and opens what is new.
fn open_mentions<V: View>(
    view: &V,
    unit: &Name,
    seen: &mut BTreeSet<Name>,
    pending: &mut Vec<Name>,
) -> Result<(), AllocError>
    ensures { OnOk result
        (Opens (mentions_at (V.sources view.now) unit.now) seen.old.keys pending.old.items
        seen.new.keys pending.new.items) }
{
    if let Some(mentions) = mentions_by_name(view, unit) {
        open_new(mentions.parts.as_slice(), seen, pending)?;
        open_new(mentions.of_values.as_slice(), seen, pending)?;
    }
    Ok(())
}
