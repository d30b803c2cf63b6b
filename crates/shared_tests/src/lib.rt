//! Tests of a workbench that is shared: its calls and their receipts, what closes it, how it is resumed, its workers, and threads that use it.
#![tactic(auto)]

#[cfg(test)]
mod calls;
#[cfg(test)]
mod closing;
#[cfg(test)]
mod desks;
#[cfg(test)]
mod gates;
#[cfg(test)]
mod long_jobs;
#[cfg(test)]
mod play;
#[cfg(test)]
mod reads;
#[cfg(test)]
mod resumed;
#[cfg(test)]
mod setup;
#[cfg(test)]
mod threads;
#[cfg(test)]
mod waiting;
#[cfg(test)]
mod waking;
#[cfg(test)]
mod watching;
#[cfg(test)]
mod workers;
