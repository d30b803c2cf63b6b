//! What keeps a unit from having a flat network.
ghost use Rattle.std.specs.Prelude.{◌≡◌, IfOk, filter};
ghost use Rattle.fb_types.specs.Library.Seen.{has_name};
ghost use Rattle.fb_flatten.specs.{Blocking.{is_blocking, is_some_name}, Hints.{AreFaultless, AreRightHints}};

use fb_faults::faults;
use fb_types::library::View;
use fb_types::text::Name;
use fb_types::{Hints, KnownFaultless, is_known_whole};
use std::alloc::{AllocError, Global};
use std::collections::BTreeSet;

/// Whether the name is that of a unit with faults, or no unit has it and it is among the parts.
fn blocks<V: View, K: Hints + KnownFaultless>(
    alloc: Global,
    view: &V,
    known: &K,
    parts: &BTreeSet<Name>,
    name: &Name,
) -> Result<bool, AllocError>
    requires right { AreRightHints (V.sources view.now) (K.hints known.now) }
    requires faultless { AreFaultless (V.sources view.now) (K.faultless known.now) }
    ensures { IfOk result (λ is. is ≡ is_blocking (V.sources view.now) (has_name parts.now.keys) name.now) }
{
    if is_known_whole(known, name) {
        return Ok(false);
    }
    if known.is_faultless(name) {
        return Ok(false);
    }
    if view.get(name).is_none() {
        return Ok(parts.contains(name));
    }
    let found = faults(alloc, view, name)?;
    Ok(!found.is_empty())
}

/// The names among these that are those of units with faults, or of no unit and among the parts, in the same order.
pub(crate) fn blocking<V: View, K: Hints + KnownFaultless>(
    alloc: Global,
    view: &V,
    known: &K,
    parts: &BTreeSet<Name>,
    names: &[Name],
) -> Result<Vec<Name>, AllocError>
    requires right { AreRightHints (V.sources view.now) (K.hints known.now) }
    requires faultless { AreFaultless (V.sources view.now) (K.faultless known.now) }
    ensures { IfOk result
        (λ found. found.items ≡ filter (is_blocking (V.sources view.now) (has_name parts.now.keys)) names.now) }
{
    let mut found = Vec::new(alloc);
    for name in names {
        if blocks(alloc, view, known, parts, name)? {
            found.push(*name)?;
        }
    }
    Ok(found)
}

/// Whether there is a name.
pub(crate) fn has_some(names: &[Name]) -> bool
    ensures { result ≡ is_some_name names.now }
{
    !names.is_empty()
}
