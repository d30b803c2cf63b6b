//! Laws of the nets of units: why one is not flat, by what its unit is made of.
ghost use Rattle.fb_laws.specs.MadeOf.{BlockedIsTold, BlockedUnitsHaveFaultsBelow, OtherNetsHaveNoFaultsBelow, OtherNetsHoldNothingInItself, RecursiveIsTold, WholeUnitsHaveNoFaultsBelow};

/// Nothing blocks a unit if and only if neither it nor anything that it is made of, through parts and the types of values, has a fault.
pub fn whole_units_have_no_faults_below()
    ensures { WholeUnitsHaveNoFaultsBelow }
{}

/// A blocked net names exactly the units with faults among what its unit is made of, and the absent types of instances in that, and there is one of
/// the first. Where a net is not blocked, nothing that its unit is made of has a fault.
#[tactic(auto, using(crate::proofs::MadeOf::blocked_told, crate::proofs::MadeOf::blocked_faulty, crate::proofs::MadeOf::others_faultless))]
pub fn blocked_is_told()
    ensures told { BlockedIsTold }
    ensures faulty { BlockedUnitsHaveFaultsBelow }
    ensures others { OtherNetsHaveNoFaultsBelow }
{}

/// A recursive net names exactly what its unit is made of that holds itself, through instances, plugs and sockets. If a net is neither blocked nor
/// recursive, nothing that its unit is made of does.
pub fn recursive_is_told()
    ensures told { RecursiveIsTold }
    ensures others { OtherNetsHoldNothingInItself }
{}
