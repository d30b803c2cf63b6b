//! Which units mention a name, directly or through others.
#![tactic(auto)]

mod index;
mod name_set;
mod tables;
mod users;

pub use index::Index;

/// Of `fb_library`, for the crates above.
pub mod library {
    pub use fb_library::{Change, Library, Spot, mentions_by_name};
}
