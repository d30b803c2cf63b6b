//! What the five recorded calls answer.

use fb_entries::jobs::Job;
use fb_history::{Asked, Committed, Delivered, GivenBack};

/// A job that is then handed out, or nothing to do.
#[derive(Drop)]
pub enum Taken {
    Job(Job),
    Nothing,
}

/// The answer to any of the calls.
#[derive(Drop)]
pub enum Answered {
    Commit(Committed),
    Take(Taken),
    Deliver(Delivered),
    GiveBack(GivenBack),
    Ask(Asked),
}
