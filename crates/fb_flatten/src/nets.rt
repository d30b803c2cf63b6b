//! The nets of units, without those that are found on the way.
//! Composition follows parts, blocking follows mentions of both sorts: so there are two searches for an order. The call has its own file, since
//! Rattle makes a module for each file and item, and `net` would meet the type `Net` there.
ghost use Rattle.std.specs.Prelude.{◌≡◌, IfOk, Some};
ghost use Rattle.fb_types.specs.Units.{HasNet};
ghost use Rattle.fb_flatten.specs.{Hints.{AreRightHints}, Net.{IsNet, plain_net}, Nets.{net_at}};

use crate::computing::{Computed, compute};
use fb_types::library::View;
use fb_types::text::Name;
use fb_types::{Hints, HintsOnly, Net, NoHints};
use std::alloc::{AllocError, Global};

/// The flat network of a subapplication or a system, or the first reason why it has none: units that it rests on have faults, or an absent one is a
/// part (the absent type of a value blocks nothing); types that it rests on contain themselves; it holds more than 4,096 instances.
pub fn net<V: View>(alloc: Global, view: &V, unit: Name) -> Result<Net, AllocError>
    requires { HasNet (V.sources view.now) unit }
    ensures is { IfOk result (λ net. IsNet (V.sources view.now) unit (plain_net net)) }
    ensures at { IfOk result (λ net. net_at (V.sources view.now) unit ≡ Some (plain_net net)) }
{
    net_with(alloc, view, unit, &NoHints)
}

/// As `net`, if the nets of some units are kept. What a unit rests on whose kept net is flat or too large is neither
/// checked nor composed.
pub fn net_with<V: View, H: Hints>(
    alloc: Global,
    view: &V,
    unit: Name,
    hints: &H,
) -> Result<Net, AllocError>
    requires net { HasNet (V.sources view.now) unit }
    requires right { AreRightHints (V.sources view.now) (H.hints hints.now) }
    ensures is { IfOk result (λ net. IsNet (V.sources view.now) unit (plain_net net)) }
    ensures at { IfOk result (λ net. net_at (V.sources view.now) unit ≡ Some (plain_net net)) }
{
    let Computed { net, inner: _ } = compute(alloc, view, unit, &HintsOnly { hints })?;
    Ok(net)
}
