//! The check of execution control charts.
#![tactic(auto)]

mod algorithms;
mod charts;
mod events;
mod laws;
mod states;

pub use charts::{ecc_faults, report_charts};
pub use laws::ecc_is_local;
