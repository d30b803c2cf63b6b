//! Tests of jobs that are made from a library: their hints, what is kept of their reads, calls of which each allocation is refused in turn, and a plant
//! through the calls of all crates below.
#![tactic(auto)]

#[cfg(test)]
mod hints;
#[cfg(test)]
mod plant;
#[cfg(test)]
mod refused;
#[cfg(test)]
mod setup;
#[cfg(test)]
mod texts;
#[cfg(test)]
mod told;
