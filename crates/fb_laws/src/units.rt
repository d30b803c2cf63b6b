//! Laws of the faults of units: where each code is reported, and by which part of the check.
ghost use Rattle.fb_laws.specs.UnitParts.{AbsentUnitsHaveNoFaults, BrokenTextsAreReported, BrokenTextsAreReportedAlone, CodesAreOfTheirParts, ConstantsAreOfTwoParts, PartsHaveAllOtherCodes, PartsHaveOwnCodes, PartsShareOneCode, WholeTextsAreNotReported, WholeUnitsHaveFaultsOfParts};
ghost use Rattle.fb_laws.specs.Mappings.{MappingsHaveHomes, MappingsHaveOwnPaths};

/// A mapping is a fault exactly where its path is that of an earlier one of the system.
pub fn mappings_have_own_paths()
    ensures { MappingsHaveOwnPaths }
{}

/// A mapping is a fault exactly where the first device of its device's name has no resource of its resource's name, or no device has that name.
pub fn mappings_have_homes()
    ensures { MappingsHaveHomes }
{}

/// Each part of the check reports codes of its own list alone.
pub fn parts_have_own_codes()
    ensures { PartsHaveOwnCodes }
{}

/// Two parts have no code in common but that of constants, which declarations and networks have.
pub fn parts_share_one_code()
    ensures { PartsShareOneCode }
{}

/// A unit that is present and not broken has exactly the faults of its parts.
pub fn whole_units_have_faults_of_parts()
    ensures { WholeUnitsHaveFaultsOfParts }
{}

/// A unit has a fault of a code that one part has if and only if this part reports it.
pub fn codes_are_of_their_parts()
    ensures { CodesAreOfTheirParts }
{}

/// A unit has a fault of a constant exactly where its declarations or its networks report it.
pub fn constants_are_of_two_parts()
    ensures { ConstantsAreOfTwoParts }
{}

/// A unit has the fault of a broken text exactly where its text is broken.
pub fn broken_texts_are_reported()
    ensures { BrokenTextsAreReported }
{}

/// A unit whose text is broken has that fault and no other.
pub fn broken_texts_are_reported_alone()
    ensures { BrokenTextsAreReportedAlone }
{}

/// The parts of the check together have every code but that of broken texts.
#[tactic(auto, using(crate::proofs::PartLemmas::all_other_codes))]
pub fn parts_have_all_other_codes()
    ensures { PartsHaveAllOtherCodes }
{}

/// A unit that is present and not broken has no fault of a broken text.
pub fn whole_texts_are_not_reported()
    ensures { WholeTextsAreNotReported }
{}

/// A unit that is absent has no faults.
#[tactic(auto, using(crate::proofs::PartLemmas::absent_clean))]
pub fn absent_units_have_no_faults()
    ensures { AbsentUnitsHaveNoFaults }
{}
