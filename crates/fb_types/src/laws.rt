//! Laws of networks as plain values.
ghost use Rattle.fb_types.specs.Local.{NetworksAreLocal};

/// The network, the applications and the kind of a unit depend only on its text.
pub fn networks_are_local()
    ensures { NetworksAreLocal }
{}
