//! Units by name, and what they rest on; tables of values by name, and walks from name to name.
#![tactic(auto)]

mod change;
mod entries;
mod filed;
mod laws;
mod library;
mod look_up;
mod mentions;
mod parts;
mod placed;
mod seen;
mod shelves;
mod table;
mod walk;

pub use change::Change;
pub use filed::{Filed, Version};
pub use laws::{
    carried_is_all, carried_is_local, far_is_local, far_is_one_list, near_is_all, near_is_local,
};
pub use library::Library;
pub use look_up::{View, declaration_by_name, text_by_name, tree_by_name};
pub use mentions::{is_structure, mentions_by_name, part_mentions, value_mentions};
pub use parts::part_of;
pub use seen::{names_of, open_new};
pub use table::{Spot, Table};
pub use walk::{carried, far, near};

/// Of `fb_parse`, for the crates above.
pub mod parse {
    pub use fb_parse::{Body, ReadFault, Source};
}
