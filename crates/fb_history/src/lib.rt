//! The machine and its history: what each call answers, and the records of calls.
#![tactic(auto)]

mod answers;
mod event;
mod laws;
mod limits;
mod log;
mod reading;
mod record;
mod same;
mod start;

pub use answers::{Asked, CheckpointRefused, Committed, Delivered, GivenBack, Refused};
pub use event::Event;
pub use laws::{checkpoints_are_unseen, entries_follow_the_texts, reach_before_and_after};
pub use limits::Limits;
pub use log::History;
pub use reading::{Counts, Identity, Reader, Reading, Revision, Showing};
pub use record::{Call, Record, Reply, TextChange, Wanted};
pub use start::Start;
