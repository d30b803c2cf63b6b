//! The line engine: conversations of requests and replies, line by line.
#![tactic(auto)]

mod answer;
mod change;
mod end;
mod laws;
mod line;
mod piece;
mod run;
mod run_error;

pub use end::RunEnd;
pub use fb_streams::{Feed, FromRead, IntoWrite, MemoryFeed, MemorySink, Sink, StreamError};
pub use laws::{one_conversation, one_script};
pub use line::write_all;
pub use run::{run_lines, run_script};
pub use run_error::{RunError, error_of};

/// Of `fb_jobs`, for the crates above.
pub mod jobs {
    pub use fb_messages::jobs::{Finished, Job, Key, Kind};
}

/// Of `fb_bench`, for the crates above.
pub mod bench {
    pub use fb_bench::{
        Answered, Asked, Bench, Call, CheckpointRefused, Delivered, Limits, Reply, Request, Shown,
        Start, Taken, TextChange,
    };
}
