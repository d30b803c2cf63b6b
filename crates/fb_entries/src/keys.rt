//! The keys of a library.
ghost use Rattle.std.specs.Prelude.{◌≡◌, ◌++◌, ◌∷◌, [], if◌then◌else◌, filter, not, IfOk, OnOk};
ghost use Rattle.fb_jobs.specs.{Keys.{has_key}, Kinds.{keys_near_and_far, keys_of_kind}};
ghost use Rattle.fb_jobs.specs.declared.keys.key.Kind.TheVariants as kind;

use fb_index::library::Library;
use fb_jobs::{Key, Kind, has_key, has_net_and_plan};
use fb_text::Name;
use std::alloc::{AllocError, Global};

/// The keys that the library has, and those that it doesn't have.
pub(crate) fn parted(
    alloc: Global,
    library: &Library,
    keys: &[Key],
) -> Result<(Vec<Key>, Vec<Key>), AllocError>
    ensures present { IfOk result (λ parts. parts.0.items ≡ filter (has_key library.now) keys.now) }
    ensures absent { IfOk result
        (λ parts. parts.1.items ≡ filter (λ key. not (has_key library.now key)) keys.now) }
{
    let mut present = Vec::new(alloc);
    let mut absent = Vec::new(alloc);
    for key in keys {
        if has_key(library, *key) {
            present.push(*key)?;
        } else {
            absent.push(*key)?;
        }
    }
    Ok((present, absent))
}

/// Adds the key of a unit, if it is there.
fn add_if(is_there: bool, kind: Kind, unit: &Name, keys: &mut Vec<Key>) -> Result<(), AllocError>
    ensures { OnOk result (keys.new.items ≡ keys.old.items ++ (if is_there then record { kind = kind; unit = unit.now } ∷ [] else [])) }
{
    if is_there {
        keys.push(Key { kind, unit: *unit })?;
    }
    Ok(())
}

/// The keys of the units' faults that the library has.
fn present_faults(alloc: Global, library: &Library, units: &[Name]) -> Result<Vec<Key>, AllocError>
    ensures { IfOk result
        (λ keys. keys.items ≡ filter (has_key library.now) (keys_of_kind units.now kind.Faults)) }
{
    let mut keys = Vec::new(alloc);
    for unit in units {
        let key = Key {
            kind: Kind::Faults,
            unit: *unit,
        };
        add_if(has_key(library, key), Kind::Faults, unit, &mut keys)?;
    }
    Ok(keys)
}

/// Adds the keys of the units' nets that the library has to some keys, and those of their plans to others.
fn add_nets_and_plans(
    library: &Library,
    units: &[Name],
    nets: &mut Vec<Key>,
    plans: &mut Vec<Key>,
) -> Result<(), AllocError>
    ensures nets { OnOk result (nets.new.items
        ≡ nets.old.items ++ filter (has_key library.now) (keys_of_kind units.now kind.Net)) }
    ensures plans { OnOk result (plans.new.items
        ≡ plans.old.items ++ filter (has_key library.now) (keys_of_kind units.now kind.Deploy)) }
{
    for unit in units {
        let (has_net, has_plan) = has_net_and_plan(library, unit);
        add_if(has_net, Kind::Net, unit, nets)?;
        add_if(has_plan, Kind::Deploy, unit, plans)?;
    }
    Ok(())
}

/// Those keys of near units' faults and of far units' nets and plans that the library has, in order.
pub(crate) fn present_keys(
    alloc: Global,
    library: &Library,
    nears: &[Name],
    fars: &[Name],
) -> Result<Vec<Key>, AllocError>
    ensures { IfOk result (λ present. present.items
        ≡ filter (has_key library.now) (keys_near_and_far nears.now fars.now)) }
{
    let mut keys = present_faults(alloc, library, nears)?;
    let mut plans = Vec::new(alloc);
    add_nets_and_plans(library, fars, &mut keys, &mut plans)?;
    keys.append(&mut plans)?;
    Ok(keys)
}
