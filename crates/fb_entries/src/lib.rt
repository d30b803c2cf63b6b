//! What is kept of each key, and what a commit does to it.
#![tactic(auto)]

mod entries;
mod entry;
mod entry_map;
mod keys;
mod laws;
mod reach;
mod renewal;

pub use entries::{CommitEffects, Entries, Marks};
pub use entry::Entry;
pub use laws::an_index_finds_what_is_reached;
pub use renewal::Renewal;

/// Of `fb_parse`, for the crates above.
pub mod parse {
    pub use fb_jobs::parse::Source;
}

/// Of `fb_library`, for the crates above.
pub mod library {
    pub use fb_index::library::{Change, Library, Spot};
}

/// Of `fb_index`, for the crates above.
pub mod index {
    pub use fb_index::Index;
}

/// Of `fb_jobs`, for the crates above.
pub mod jobs {
    pub use fb_jobs::{
        Finished, Hint, Job, Key, Kind, Read, Value, current_nets, current_reads, locality,
    };
}
