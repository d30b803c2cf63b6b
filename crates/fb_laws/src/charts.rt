//! Laws of the faults of charts: where each code is reported.
ghost use Rattle.fb_laws.specs.Charts.{AlgorithmsAreDeclared, EventsAreKnown, StatesAreListed};

/// A state of a transition is a fault if no state of that name is listed.
pub fn states_are_listed()
    ensures { StatesAreListed }
{}

/// The event of a transition is a fault if it is known not to come in, and that of an action if it is known not to go out.
pub fn events_are_known()
    ensures { EventsAreKnown }
{}

/// The algorithm of an action is a fault if none of that name is declared.
pub fn algorithms_are_declared()
    ensures { AlgorithmsAreDeclared }
{}
