//! What is under the lock of a shared workbench, with its calls; the seats of its callers, and the receipts of their calls.
#![tactic(auto)]

mod callers;
mod close;
mod locked;
mod look;
mod read;
mod receipts;
mod resume;
mod roll;
mod seat;

pub use callers::lesser;
pub use close::{CloseError, Closed, NotClosed, close_for};
pub use locked::{Locked, SharedRefused};
pub use look::{Look, WorkEnd};
pub use read::SeatSnapshot;
pub use resume::{NotResumed, ResumeError};
pub use roll::rolls_are_unseen;
pub use seat::{Receipt, Seat};

/// Of `fb_parse`, for the crates above.
pub mod parse {
    pub use fb_bench::parse::Source;
}

/// Of `fb_library`, for the crates above.
pub mod library {
    pub use fb_bench::library::Change;
}

/// Of `fb_jobs`, for the crates above.
pub mod jobs {
    pub use fb_bench::jobs::{Finished, Job, Key};
}

/// Of `fb_bench`, for the crates above.
pub mod bench {
    pub use fb_bench::{
        Answered, Asked, Bench, Call, CheckpointRefused, Committed, Delivered, Desk,
        DeskCheckpointError, DeskError, GivenBack, Identity, Limits, MOST_CALLS, Reading, Record,
        Reply, Request, Showing, Start, Taken, TextChange, Wanted,
    };
}
