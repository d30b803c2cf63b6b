//! Requests as they are read from JSON, and replies as they are written.
#![tactic(auto)]

mod laws;
mod read_reply;
mod reply;
mod request;
mod small_reply;
mod to_json;
mod value_reply;

pub use laws::limits_are_read;
pub use reply::{Refusal, Reply};
pub use request::{AskedChange, AskedReading, Request, request_in};

/// Of `fb_jobs`, for the crates above.
pub mod jobs {
    pub use fb_jobs::{Finished, Job, Key, Kind};
}
