//! Keys and values of entries, what is read for a key, and jobs that work on shared sources, with their results.
#![tactic(auto)]

mod jobs;
mod kept;
mod keys;
mod laws;
mod values;

pub use jobs::job::Job;
pub use jobs::result::Finished;
pub use kept::cache::Cache;
pub use kept::hints::Hint;
pub use keys::key::{Key, Kind};
pub use keys::kinds::{all_kinds, keys_by_name, keys_near_and_far};
pub use keys::read::{Read, has_key, has_net_and_plan};
pub use keys::reads::needed;
pub use keys::texts::{TextRead, TextReads};
pub use laws::{
    current_nets, current_reads, kinds_in_order, least_stale, locality, needs_in_order,
};
pub use values::derivation::Derivation;
pub use values::same::{is_one_name, is_same_value};
pub use values::value::Value;

/// Of `fb_parse`, for the crates above.
pub mod parse {
    pub use fb_deploy::parse::Source;
}

/// Of `fb_library`, for the crates above.
pub mod library {
    pub use fb_deploy::library::{Change, Library, Version};
}

/// Of `fb_iface`, for the crates above.
pub mod iface {
    pub use fb_deploy::iface::Fault;
}

/// Of `fb_placing`, for the crates above.
pub mod placing {
    pub use fb_deploy::placing::Misplaced;
}

/// Of `fb_flatten`, for the crates above.
pub mod flatten {
    pub use fb_deploy::flatten::Net;
}

/// Of `fb_deploy`, for the crates above.
pub mod deploy {
    pub use fb_deploy::{Deploy, Plan, ResourcePlan};
}
