//! Tests of the machine's and the lines' public calls: conversations of request lines and replies, with checkpoints too, streams that
//! fail, allocations that are refused, what a workbench shows after its calls, jobs with what they read, and who shares texts and values.
#![tactic(auto)]

#[cfg(test)]
mod calls;
#[cfg(test)]
mod checkpoints;
#[cfg(test)]
mod conversation;
#[cfg(test)]
mod cuts;
#[cfg(test)]
mod gone;
#[cfg(test)]
mod jobs;
#[cfg(test)]
mod kept;
#[cfg(test)]
mod left;
#[cfg(test)]
mod nets;
#[cfg(test)]
mod owners;
#[cfg(test)]
mod places;
#[cfg(test)]
mod plans;
#[cfg(test)]
mod refusals;
#[cfg(test)]
mod refused;
#[cfg(test)]
mod rounds;
#[cfg(test)]
mod streams;
#[cfg(test)]
mod structures;
#[cfg(test)]
mod units;
