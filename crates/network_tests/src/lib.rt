//! Tests of the public calls of the networks' crates: the order of types, networks in plain, flat networks, placements and plans.
#![tactic(auto)]

#[cfg(test)]
mod beside;
#[cfg(test)]
mod composing;
#[cfg(test)]
mod kept;
#[cfg(test)]
mod nets;
#[cfg(test)]
mod order;
#[cfg(test)]
mod parts;
#[cfg(test)]
mod plain;
#[cfg(test)]
mod refused;
#[cfg(test)]
mod systems;
#[cfg(test)]
mod told;
#[cfg(test)]
mod units;
