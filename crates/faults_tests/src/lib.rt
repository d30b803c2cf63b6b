//! Tests of libraries and of the faults of units.
//!
//! A row of a table is a text, or a part of one, with its faults, as `plant` writes them.
#![tactic(auto)]

#[cfg(test)]
mod alone;
#[cfg(test)]
mod by_name;
#[cfg(test)]
mod carried;
#[cfg(test)]
mod charts;
#[cfg(test)]
mod checkers;
#[cfg(test)]
mod declarations;
#[cfg(test)]
mod expressions;
#[cfg(test)]
mod interfaces;
#[cfg(test)]
mod libraries;
#[cfg(test)]
mod mappings;
#[cfg(test)]
mod members;
#[cfg(test)]
mod networks;
#[cfg(test)]
mod operators;
#[cfg(test)]
mod plant;
#[cfg(test)]
mod refused;
#[cfg(test)]
mod structures;
#[cfg(test)]
mod units;
