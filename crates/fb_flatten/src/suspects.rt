//! The names that can block a unit or reach themselves.
ghost use Rattle.std.specs.{Prelude.{◌≡◌, ℕ, List, None, ◌||◌, Contains, IfOk, OnOk, is_none}, FinMap.{get}, List.{list_any}};
ghost use Rattle.fb_types.specs.Library.Seen.{has_name, Opens};
ghost use Rattle.fb_flatten.specs.{Hints.{AreFaultless, AreRightHints}, Suspects.{AreSuspects, is_part_beyond, mentions_beyond, parts_beyond}};

use fb_types::library::{View, names_of, open_new, part_mentions, value_mentions};
use fb_types::text::Name;
use fb_types::{Hints, KnownFaultless, is_known_whole};
use std::alloc::{AllocError, Global};
use std::collections::BTreeSet;

/// Names that the unit rests on, in order, each once, among them all that block it or reach themselves: the unit itself and what is found
/// from it without going below units whose kept nets show that nothing blocks them and none of what they rest on reaches itself.
pub(crate) fn suspects<V: View, H: Hints>(
    alloc: Global,
    view: &V,
    hints: &H,
    unit: Name,
) -> Result<Vec<Name>, AllocError>
    requires { AreRightHints (V.sources view.now) (H.hints hints.now) }
    ensures { IfOk result
        (λ names. AreSuspects (H.hints hints.now) (V.sources view.now) unit names.items) }
{
    let mut seen = BTreeSet::new(alloc);
    seen.insert(unit)?;
    let mut pending = Vec::new(alloc);
    pending.push(unit)?;
    while let Some(name) = pending.pop() {
        open(view, hints, &name, &mut seen, &mut pending)?;
    }
    names_of(alloc, &seen)
}

/// Sees what the name mentions, unless its unit is known to be whole.
fn open<V: View, H: Hints>(
    view: &V,
    hints: &H,
    name: &Name,
    seen: &mut BTreeSet<Name>,
    pending: &mut Vec<Name>,
) -> Result<(), AllocError>
    ensures { OnOk result
        (Opens (mentions_beyond (H.hints hints.now) (V.sources view.now) name.now)
        seen.old.keys pending.old.items seen.new.keys pending.new.items) }
{
    if is_known_whole(hints, name) {
        return Ok(());
    }
    open_new(part_mentions(view, name), seen, pending)?;
    open_new(value_mentions(view, name), seen, pending)
}

/// If one of these names is absent, the parts of all of them that no kept net shows to be whole. If none is absent, they
/// are not needed.
pub(crate) fn parts_where_absent<V: View, K: Hints + KnownFaultless>(
    alloc: Global,
    view: &V,
    known: &K,
    names: &[Name],
) -> Result<BTreeSet<Name>, AllocError>
    requires right { AreRightHints (V.sources view.now) (K.hints known.now) }
    requires faultless { AreFaultless (V.sources view.now) (K.faultless known.now) }
    ensures { IfOk result (λ parts. (v : List ℕ) → Contains names.now v → get (V.sources view.now) v ≡ None
        → has_name parts.keys v ≡ is_part_beyond (K.hints known.now) (V.sources view.now) names.now v) }
{
    if has_absent(view, known, names) {
        all_parts(alloc, view, known, names)
    } else {
        Ok(BTreeSet::new(alloc))
    }
}

/// Whether no unit has one of the names.
fn has_absent<V: View, K: Hints + KnownFaultless>(view: &V, known: &K, names: &[Name]) -> bool
    requires right { AreRightHints (V.sources view.now) (K.hints known.now) }
    requires faultless { AreFaultless (V.sources view.now) (K.faultless known.now) }
    ensures { result ≡ list_any (λ n. is_none (get (V.sources view.now) n)) names.now }
{
    for name in names {
        if is_absent(view, known, name) {
            return true;
        }
    }
    false
}

fn is_absent<V: View, K: Hints + KnownFaultless>(view: &V, known: &K, name: &Name) -> bool
    requires right { AreRightHints (V.sources view.now) (K.hints known.now) }
    requires faultless { AreFaultless (V.sources view.now) (K.faultless known.now) }
    ensures { result ≡ is_none (get (V.sources view.now) name.now) }
{
    if is_known_whole(known, name) {
        return false;
    }
    if known.is_faultless(name) {
        return false;
    }
    view.get(name).is_none()
}

/// The parts of all of the names that no kept net shows to be whole.
fn all_parts<V: View, H: Hints>(
    alloc: Global,
    view: &V,
    hints: &H,
    names: &[Name],
) -> Result<BTreeSet<Name>, AllocError>
    ensures { IfOk result (λ parts. (v : List ℕ) → has_name parts.keys v
        ≡ is_part_beyond (H.hints hints.now) (V.sources view.now) names.now v) }
{
    let mut parts = BTreeSet::new(alloc);
    for name in names {
        insert_parts(view, hints, name, &mut parts)?;
    }
    Ok(parts)
}

/// Inserts the parts of the name, unless its unit is known to be whole.
fn insert_parts<V: View, H: Hints>(
    view: &V,
    hints: &H,
    name: &Name,
    parts: &mut BTreeSet<Name>,
) -> Result<(), AllocError>
    ensures { OnOk result ((v : List ℕ) → has_name parts.new.keys v
        ≡ (has_name parts.old.keys v
        || has_name (parts_beyond (H.hints hints.now) (V.sources view.now) name.now) v)) }
{
    if is_known_whole(hints, name) {
        return Ok(());
    }
    insert_all(part_mentions(view, name), parts)
}

fn insert_all(names: &[Name], parts: &mut BTreeSet<Name>) -> Result<(), AllocError>
    ensures { OnOk result ((v : List ℕ) → has_name parts.new.keys v
        ≡ (has_name parts.old.keys v || has_name names.now v)) }
{
    for name in names {
        parts.insert(*name)?;
    }
    Ok(())
}
