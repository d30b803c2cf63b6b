//! The faults of the expressions and statements of a unit.
#![tactic(auto)]

mod check;
mod classes;
mod expressions;
mod laws;
mod names;
mod references;
mod rules;
mod spans;
mod statements;

pub use check::{expr_faults, report_expressions};
pub use laws::{expr_faults_are_local, expr_faults_are_unmet};
