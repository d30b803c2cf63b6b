//! Laws of the faults of charts.
ghost use Rattle.fb_ecc.specs.Local.{EccIsLocal};

/// The faults of a unit's chart depend only on the texts of what is near it.
pub fn ecc_is_local()
    ensures { EccIsLocal }
{}
