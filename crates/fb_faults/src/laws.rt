//! Laws of faults.
ghost use Rattle.fb_faults.specs.Faults.{BrokenTextsHaveOneFault, FaultsAreInOrder, FaultsAreLocal, FaultsAreThoseReported};

/// The faults of a unit depend only on the texts of what is near it.
pub fn faults_are_local()
    ensures { FaultsAreLocal }
{}

/// Each fault is below those after it, by place and then by the number of its code.
pub fn faults_are_in_order()
    ensures { FaultsAreInOrder }
{}

/// The faults of a unit are what the checks report, and nothing else.
pub fn faults_are_those_reported()
    ensures { FaultsAreThoseReported }
{}

/// A broken text has no fault but its place.
pub fn broken_texts_have_one_fault()
    ensures { BrokenTextsHaveOneFault }
{}
