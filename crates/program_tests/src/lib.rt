//! Tests of the program's arguments, its secret, its runs, sessions and servers.
#![tactic(auto)]

#[cfg(test)]
mod play;
#[cfg(test)]
mod program;
#[cfg(test)]
mod refused;
#[cfg(test)]
mod secrets;
#[cfg(test)]
mod servers;
