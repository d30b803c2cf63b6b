//! Laws of units without faults.
ghost use Rattle.fb_flatten.specs.{Clean.{ApplicationsAreClean, NetworksAreClean}, Nothing.{NothingIsReported}};

/// No check reports a fault of a unit without faults.
pub fn without_faults_nothing_is_reported()
    ensures { NothingIsReported }
{}

/// The network of a unit without faults is clean: each instance has its own name and a type that is declared and of the kind that the
/// instance requires, each connection has its ends on the right sides, those of adapters join plugs and sockets of one adapter type, and none
/// joins two own ports.
pub fn networks_are_clean()
    ensures { NetworksAreClean }
{}

/// The networks of the applications of a system without faults are clean too, and each application has its own name.
pub fn applications_are_clean()
    ensures { ApplicationsAreClean }
{}
