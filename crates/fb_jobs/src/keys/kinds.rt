//! All kinds of keys, and the keys of names with each of them.
ghost use Rattle.std.specs.Prelude.{◌≡◌, ◌++◌, IfOk, OnOk};
ghost use Rattle.fb_jobs.specs.Kinds.{all_kinds, all_keys, keys_near_and_far, keys_of_kind};

use crate::keys::key::{Key, Kind};
use fb_text::Name;
use std::alloc::{AllocError, Global};

const KINDS: [Kind; 3] = [Kind::Faults, Kind::Net, Kind::Deploy];

/// The kinds, in order.
pub fn all_kinds() -> &'static [Kind]
    ensures { result.now ≡ all_kinds }
{
    &KINDS
}

/// The names with one kind.
fn add_keys(keys: &mut Vec<Key>, names: &[Name], kind: Kind) -> Result<(), AllocError>
    ensures { OnOk result (keys.new.items ≡ keys.old.items ++ keys_of_kind names.now kind) }
{
    for name in names {
        keys.push(Key { kind, unit: *name })?;
    }
    Ok(())
}

/// For each kind these names with it: the far ones if its keys need all that their units rest on, otherwise the near ones.
pub fn keys_near_and_far(
    alloc: Global,
    nears: &[Name],
    fars: &[Name],
) -> Result<Vec<Key>, AllocError>
    ensures { IfOk result (λ keys. keys.items ≡ keys_near_and_far nears.now fars.now) }
{
    let mut keys = Vec::new(alloc);
    for kind in all_kinds() {
        if kind.needs_all() {
            add_keys(&mut keys, fars, *kind)?;
        } else {
            add_keys(&mut keys, nears, *kind)?;
        }
    }
    Ok(keys)
}

/// The names with each kind, by kind and then by name.
pub fn keys_by_name(alloc: Global, names: &[Name]) -> Result<Vec<Key>, AllocError>
    ensures { IfOk result (λ keys. keys.items ≡ all_keys names.now) }
{
    keys_near_and_far(alloc, names, names)
}
