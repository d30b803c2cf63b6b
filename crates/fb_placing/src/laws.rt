//! Laws of homes.
ghost use Rattle.fb_placing.specs.Laws.{HomesAreNearest};

/// The home of a path is the resource of the mapping with the longest path that is this path or a prefix of it.
pub fn homes_are_nearest()
    ensures { HomesAreNearest }
{}
