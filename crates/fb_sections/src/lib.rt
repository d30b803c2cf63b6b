//! Reading the sections of declarations (IEC 61499-1, annex B): events, variables, instances,
//! connections, states, and the parts of systems.
//!
//! Each function reads one section from the beginning of the tokens, and gives it with the tokens after
//! it, or the tokens from the first one that does not continue.
#![tactic(auto)]

mod chart;
mod connecting;
mod constants;
mod frame;
mod instances;
mod interface;
mod skipped;
mod system_parts;

pub use chart::states;
pub use connecting::{connections, end};
pub use frame::section;
pub use instances::{blocks, plugs, sockets, subapplications};
pub use interface::{data_variables, events, fields, internal_variables};
pub use skipped::{service, skip};
pub use system_parts::{device, mappings, optional_semicolon};
