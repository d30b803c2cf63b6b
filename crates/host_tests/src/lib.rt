//! Tests of hosts: peers come and go over loopback by texts of steps, and each step is compared.
#![tactic(auto)]

#[cfg(test)]
mod admission;
#[cfg(test)]
mod colleagues;
#[cfg(test)]
mod crowds;
#[cfg(test)]
mod epochs;
#[cfg(test)]
mod peers;
#[cfg(test)]
mod play;
#[cfg(test)]
mod proofs;
#[cfg(test)]
mod reads;
#[cfg(test)]
mod refused;
#[cfg(test)]
mod seats;
#[cfg(test)]
mod silent;
#[cfg(test)]
mod steps;
