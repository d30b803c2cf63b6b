//! What can be looked up by the names of types.
ghost use Rattle.std.specs.{Prelude.{◌≡◌}, Option.{option_copied}, BTreeMap.{get}};
ghost use Rattle.fb_tree.specs.Text.Order.{name_cmp};
ghost use Rattle.fb_network.specs.Network.{View};
ghost use Rattle.fb_network.specs.Ready as ready;

use crate::flat::Flat;
use crate::network::Network;
use fb_tree::text::Name;
use std::collections::BTreeMap;

/// Networks by the names of their types.
pub trait Networks {
    ghost networks: { Self → View };

    /// The network of a type.
    fn network(&self, name: &Name) -> Option<&Network>
        ensures { option_copied result ≡ networks self.now name.now };
}

/// Flat networks by the names of their types.
pub trait Nets {
    ghost nets: { Self → ready.Nets };

    /// The flat network of a type.
    fn net(&self, name: &Name) -> Option<&Flat>
        ensures { option_copied result ≡ nets self.now name.now };
}

impl Networks for BTreeMap<Name, Network> {
    ghost networks = { get name_cmp };

    fn network(&self, name: &Name) -> Option<&Network> {
        self.get(name)
    }
}

impl Nets for BTreeMap<Name, Flat> {
    ghost nets = { get name_cmp };

    fn net(&self, name: &Name) -> Option<&Flat> {
        self.get(name)
    }
}
