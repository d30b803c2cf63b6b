//! The check of mappings, and all faults of a unit.
#![tactic(auto)]

mod all;
mod laws;
mod mappings;

pub use all::faults;
pub use laws::{
    broken_texts_have_one_fault, faults_are_in_order, faults_are_local, faults_are_those_reported,
};
