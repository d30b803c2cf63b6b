//! The workbench of one thread: its five recorded calls, its entries and its history.
#![tactic(auto)]

mod answers;
mod bench;
mod commit;
mod desk;
mod found;
mod peek;
mod read;
mod request;
mod snapshot;
mod stale;

pub use answers::{Answered, Taken};
pub use bench::Bench;
pub use desk::{Desk, DeskCheckpointError, DeskError, Solo};
pub use fb_history::{
    Asked, Call, CheckpointRefused, Committed, Delivered, GivenBack, Identity, Limits, Reader,
    Reading, Record, Refused, Reply, Showing, Start, TextChange, Wanted, checkpoints_are_unseen,
    entries_follow_the_texts, reach_before_and_after,
};
pub use peek::Shown;
pub use read::MOST_CALLS;
pub use request::Request;
pub use snapshot::Snapshot;

/// Of `fb_parse`, for the crates above.
pub mod parse {
    pub use fb_entries::parse::Source;
}

/// Of `fb_library`, for the crates above.
pub mod library {
    pub use fb_entries::library::{Change, Library};
}

/// Of `fb_jobs`, for the crates above.
pub mod jobs {
    pub use fb_entries::jobs::{Finished, Job, Key};
}
