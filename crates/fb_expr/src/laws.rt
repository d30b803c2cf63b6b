//! Laws of the faults of expressions.
ghost use Rattle.fb_expr.specs.{Charts.{ExprFaultsAreLocal}, Demands.{FaultsAreUnmet}};

/// The faults of the expressions and statements of a unit depend only on the texts of what is near it.
pub fn expr_faults_are_local()
    ensures { ExprFaultsAreLocal }
{}

/// A block type has exactly the faults of what its guards and algorithms demand and is not met: that references and the variables of a
/// `FOR` name variables, and that operators, places and assignments have the classes that they ask for.
pub fn expr_faults_are_unmet()
    ensures { FaultsAreUnmet }
{}
