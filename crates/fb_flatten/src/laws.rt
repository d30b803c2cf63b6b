//! Laws of flat networks of units.
ghost use Rattle.fb_flatten.specs.{Far.{FarIsAll, FarOfIsLocal}, Unchanged.{NetIsUnchanged}, Laws.{NetIsLocal, OneNet}, Locality.{FlatNetworksAreLocal}};
ghost use Rattle.fb_flatten.specs.Nets.{HasNetByText, NetAtIsLocal, NetAtIsNet};

/// The flat network of a network, and the number of its instances, depend only on the networks that it rests on.
pub fn flat_networks_are_local()
    ensures { FlatNetworksAreLocal }
{}

/// A unit has one net only.
pub fn one_net()
    ensures { OneNet }
{}

/// The net of a unit depends only on the texts that the unit rests on.
pub fn net_is_local()
    ensures { NetIsLocal }
{}

/// The names that opening finds are all that the unit rests on.
pub fn far_is_all()
    ensures { FarIsAll }
{}

/// The names that a unit rests on depend only on the texts that it rests on.
pub fn far_of_is_local()
    ensures { FarOfIsLocal }
{}

/// Whether a unit has a net follows from its own text.
pub fn has_net_by_text()
    ensures { HasNetByText }
{}

/// The computed net is the one net of the unit.
pub fn net_at_is_net()
    ensures { NetAtIsNet }
{}

/// The computed net depends only on the texts that the unit rests on.
pub fn net_at_is_local()
    ensures { NetAtIsLocal }
{}

/// A net that is neither blocked nor recursive stays the same if the new texts show networks the same and mention the same, and
/// all that its unit rests on is without faults.
pub fn net_is_unchanged()
    ensures { NetIsUnchanged }
{}
