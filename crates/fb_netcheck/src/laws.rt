//! Laws of the faults of networks.
ghost use Rattle.fb_netcheck.specs.{Clean.{ConnectionsAreRight, FaultlessNetworksAreClean}, Local.{NetFaultsAreLocal}};

/// The faults of the networks of a unit depend only on the texts of what is near it.
pub fn net_faults_are_local()
    ensures { NetFaultsAreLocal }
{}

/// If the networks of a unit have no faults, each connection joins ports of the right sides that are of one type, no own port of a
/// subapplication is joined to another, each data destination has one source and each adapter end one other end. What depends on a type
/// that is not usable is not checked.
pub fn faultless_networks_are_clean()
    ensures { FaultlessNetworksAreClean }
{}

/// If a unit has no faults in what it declares either, each type of an instance is usable, and each end of a connection is a port of
/// the right side.
pub fn connections_are_right()
    ensures { ConnectionsAreRight }
{}
