//! Calls of a workbench, of one thread and shared, and of its workers, of which each allocation is refused in turn; calls that make fewer than
//! a thousand; and a full history, which refuses all calls.
#![tactic(auto)]

#[cfg(test)]
mod full;
#[cfg(test)]
mod large;
#[cfg(test)]
mod making;
#[cfg(test)]
mod nest;
#[cfg(test)]
mod owners;
#[cfg(test)]
mod refused;
#[cfg(test)]
mod roll;
#[cfg(test)]
mod seated;
#[cfg(test)]
mod told;
#[cfg(test)]
mod ways;
#[cfg(test)]
mod working;
