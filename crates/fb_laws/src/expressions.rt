//! Laws of the faults of expressions and statements: where each code is reported.
ghost use Rattle.fb_laws.specs.Expressions.{ClassesAreRight, ExpressionsHaveOneClass, MembersAreKnown, VariablesAreKnown};

/// A reference in a guard or an algorithm, or the name after `FOR`, is a fault if and only if it begins at no variable of the unit and at no data of an
/// own plug or socket, and rests on no type of one that is not usable.
pub fn variables_are_known()
    ensures { VariablesAreKnown }
{}

/// A further name of a reference is a fault exactly where those before it lead to a type that has no field of this name and is known: it is neither
/// generic nor absent or broken.
pub fn members_are_known()
    ensures { MembersAreKnown }
{}

/// An operator, a subscript, a guard, an expression in a statement, the variable of a `FOR`, or the `:=` of an assignment is a fault exactly
/// if it breaks its rule of classes.
pub fn classes_are_right()
    ensures { ClassesAreRight }
{}

/// Each expression of a block type has exactly one class.
pub fn expressions_have_one_class()
    ensures { ExpressionsHaveOneClass }
{}
