//! Laws of placements.
ghost use Rattle.fb_mapping.specs.Laws.{OnePlace, PlaceIsLocal};

/// A system has one placement only.
pub fn one_place()
    ensures { OnePlace }
{}

/// The placement of a system depends only on the texts that the system rests on.
pub fn place_is_local()
    ensures { PlaceIsLocal }
{}
