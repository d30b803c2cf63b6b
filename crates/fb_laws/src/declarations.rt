//! Laws of the faults of declarations: where each code is reported.
ghost use Rattle.fb_laws.specs.Declarations.{DuplicatesAreReported, MisfitsAreReported, MixedKindsAreReported, OtherNamesAreReported, RecursiveStructuresAreReported, UnknownTypesAreReported, UnknownWithsAreReported, WrongKindsAreReported};

/// The declared name is a fault if it is not the unit's.
pub fn other_names_are_reported()
    ensures { OtherNamesAreReported }
{}

/// A name is a fault at each place of a name space where an earlier place of the same space has it.
pub fn duplicates_are_reported()
    ensures { DuplicatesAreReported }
{}

/// The declared name is a fault where a block type has a section of states and one of block instances or of connections.
pub fn mixed_kinds_are_reported()
    ensures { MixedKindsAreReported }
{}

/// The type of an instance, plug or socket is a fault if it is absent or broken.
pub fn unknown_types_are_reported()
    ensures { UnknownTypesAreReported }
{}

/// The type of an instance, plug or socket is a fault if it is there and is of another kind.
pub fn wrong_kinds_are_reported()
    ensures { WrongKindsAreReported }
{}

/// A name after `WITH` is a fault if it means no data of the event's side.
pub fn unknown_withs_are_reported()
    ensures { UnknownWithsAreReported }
{}

/// A constant, or an element of a list, is a fault if it does not fit the type that it is the initial value of.
pub fn misfits_are_reported()
    ensures { MisfitsAreReported }
{}

/// The declared name is a fault where a structure carries itself.
pub fn recursive_structures_are_reported()
    ensures { RecursiveStructuresAreReported }
{}
