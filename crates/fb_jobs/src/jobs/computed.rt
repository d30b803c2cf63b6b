//! The values that jobs compute.
ghost use Rattle.std.specs.Prelude.{◌≡◌, ℕ, true, Some, List, All, IfOk};
ghost use Rattle.std.specs.FinMap as map;
ghost use Rattle.fb_deploy.specs.{Flatten.Hints.{AreFaultless, AreRightHints}, Flatten.Inner.{IsInnerNet}, Flatten.Net.{plain_net}};
ghost use Rattle.fb_deploy.specs.{Flatten.Nets.{has_net_in, net_at}, Library.View.{Sources, tree_at}, Plans.{has_plan_in}};
ghost use Rattle.fb_jobs.specs.{Keys.{has_kind_at, scratch_of}, Values.{finding_of}, Work.{IsFoundIn, IsOwnIn, IsWork, known_faultless, known_hints}};
ghost use Rattle.fb_jobs.specs.declared.keys.key.Kind.TheVariants as kind;

use crate::kept::cached::{CachedNets, own_net_in};
use crate::kept::hints::Hint;
use crate::keys::key::{Key, Kind};
use crate::values::derivation::Derivation;
use crate::values::same::is_same_value;
use crate::values::value::Value;
use fb_deploy::faults::faults;
use fb_deploy::flatten::{Computed, Inner, Net, compute};
use fb_deploy::library::View;
use fb_deploy::plan_by_net;
use fb_text::Name;
use std::alloc::{AllocError, Global};
use std::sync::Arc;

/// A value, and the nets of other units that were computed on the way to it.
#[derive(Drop)]
pub(crate) struct Worked {
    pub(crate) value: Arc<Value>,
    pub(crate) found: Vec<Hint>,
}

/// The previous value if the new one equals it, or else the new one.
fn previous_or(
    alloc: Global,
    previous: &Option<Derivation>,
    value: Value,
) -> Result<Arc<Value>, AllocError>
    ensures { IfOk result (λ shared. finding_of shared.value ≡ finding_of value) }
{
    match previous {
        Some(it) if is_same_value(it.value(), &value) => Ok(it.value().clone()?),
        _ => Ok(Arc::new(alloc, value)?),
    }
}

/// The previous value if the net that is known already equals it, or else that net.
fn previous_or_own(
    previous: &Option<Derivation>,
    own: &Arc<Value>,
) -> Result<Arc<Value>, AllocError>
    ensures { IfOk result (λ shared. finding_of shared.value ≡ finding_of own.now.value) }
{
    match previous {
        Some(it) if is_same_value(it.value(), own) => Ok(it.value().clone()?),
        _ => Ok(own.clone()?),
    }
}

/// The nets that were computed on the way, each shared.
fn found_nets(alloc: Global, inner: Vec<Inner>) -> Result<Vec<Hint>, AllocError>
    ensures { IfOk result (λ found. (sources : Sources) (unit : List ℕ)
        → All (IsInnerNet sources unit) inner.items → All (IsFoundIn sources unit) found.items) }
{
    let mut found = Vec::new(alloc);
    for it in inner {
        found.push(Hint {
            unit: it.unit,
            value: Arc::new(alloc, Value::Net(it.net))?,
        })?;
    }
    Ok(found)
}

/// The faults of a unit.
fn faults_work<V: View>(
    alloc: Global,
    view: &V,
    unit: &Name,
    previous: &Option<Derivation>,
) -> Result<Worked, AllocError>
    ensures { IfOk result (IsWork kind.Faults (V.sources view.now) unit.now) }
{
    let found = faults(alloc, view, unit)?;
    Ok(Worked {
        value: previous_or(alloc, previous, Value::Faults(found))?,
        found: Vec::new(alloc),
    })
}

/// The net of a unit.
fn net_work<V: View>(
    alloc: Global,
    view: &V,
    unit: Name,
    known: &CachedNets<'_>,
    own: &Option<Arc<Value>>,
    previous: &Option<Derivation>,
) -> Result<Worked, AllocError>
    requires has { has_net_in (tree_at (V.sources view.now) unit) ≡ true }
    requires right { AreRightHints (V.sources view.now) (known_hints known.now) }
    requires faultless { AreFaultless (V.sources view.now) (known_faultless known.now) }
    requires own { IsOwnIn (V.sources view.now) unit own.now }
    ensures { IfOk result (IsWork kind.Net (V.sources view.now) unit) }
{
    if let Some(own) = own {
        return Ok(Worked {
            value: previous_or_own(previous, own)?,
            found: Vec::new(alloc),
        });
    }
    let Computed { net, inner } = compute(alloc, view, unit, known)?;
    Ok(Worked {
        value: previous_or(alloc, previous, Value::Net(net))?,
        found: found_nets(alloc, inner)?,
    })
}

/// The plan of a system by its net.
fn plan_value<V: View>(
    alloc: Global,
    view: &V,
    system: Name,
    net: &Net,
    previous: &Option<Derivation>,
) -> Result<Arc<Value>, AllocError>
    requires has { has_plan_in (tree_at (V.sources view.now) system) ≡ true }
    requires net { net_at (V.sources view.now) system ≡ Some (plain_net net.now) }
    ensures { IfOk result
        (λ value. finding_of value.value ≡ scratch_of kind.Deploy (V.sources view.now) system) }
{
    let deploy = plan_by_net(alloc, view, system, net)?;
    previous_or(alloc, previous, Value::Deploy(deploy))
}

/// The plan of a system.
fn plan_work<V: View>(
    alloc: Global,
    view: &V,
    system: Name,
    known: &CachedNets<'_>,
    own: &Option<Arc<Value>>,
    previous: &Option<Derivation>,
) -> Result<Worked, AllocError>
    requires has { has_plan_in (tree_at (V.sources view.now) system) ≡ true }
    requires right { AreRightHints (V.sources view.now) (known_hints known.now) }
    requires faultless { AreFaultless (V.sources view.now) (known_faultless known.now) }
    requires own { IsOwnIn (V.sources view.now) system own.now }
    ensures { IfOk result (IsWork kind.Deploy (V.sources view.now) system) }
{
    if let Some(net) = own_net_in(own) {
        return Ok(Worked {
            value: plan_value(alloc, view, system, net, previous)?,
            found: Vec::new(alloc),
        });
    }
    let Computed { net, inner } = compute(alloc, view, system, known)?;
    Ok(Worked {
        value: plan_value(alloc, view, system, &net, previous)?,
        found: found_nets(alloc, inner)?,
    })
}

/// The key's value, computed from scratch except for what is known already.
pub(crate) fn work_of<V: View>(
    alloc: Global,
    view: &V,
    key: Key,
    known: &CachedNets<'_>,
    own: &Option<Arc<Value>>,
    previous: &Option<Derivation>,
) -> Result<Worked, AllocError>
    requires has { has_kind_at key.kind (map.get (V.sources view.now) key.unit) ≡ true }
    requires right { AreRightHints (V.sources view.now) (known_hints known.now) }
    requires faultless { AreFaultless (V.sources view.now) (known_faultless known.now) }
    requires own { IsOwnIn (V.sources view.now) key.unit own.now }
    ensures { IfOk result (IsWork key.kind (V.sources view.now) key.unit) }
{
    match key.kind {
        Kind::Faults => faults_work(alloc, view, &key.unit, previous),
        Kind::Net => net_work(alloc, view, key.unit, known, own, previous),
        Kind::Deploy => plan_work(alloc, view, key.unit, known, own, previous),
    }
}
