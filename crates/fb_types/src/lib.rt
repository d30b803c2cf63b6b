//! The networks that trees of units declare; which types reach themselves, and an order with inner types first; and what nets are made
//! of: counts of instances, stored nets, flat networks of types and applications.
#![tactic(auto)]

mod composed;
mod counts;
mod cycles;
mod flats;
mod graph;
mod hints;
mod holders;
mod interface_reuse;
mod kinds;
mod laws;
mod loops;
mod nets;
mod networks;
mod order_laws;
mod ports;
mod search;
mod systems;
mod tables;
mod uncached;

pub use composed::flat_of_applications;
pub use counts::{Counts, add_count, count_of_unit};
pub use flats::{add_flat, flat_of_type, is_missing};
pub use hints::{CachedFlats, Hints, HintsOnly, KnownFaultless, NoHints, is_known_whole};
pub use holders::Holders;
pub use interface_reuse::has_same_interface;
pub use kinds::{has_net, is_of_system, is_subapplication};
pub use laws::networks_are_local;
pub use loops::recursive;
pub use nets::Net;
pub use networks::network;
pub use order_laws::{ordered_is_not_recursive, recursion_is_local};
pub use search::{all_inner_first, inner_first};
pub use systems::{Application, applications};
pub use tables::{Table, networks_of};
pub use uncached::Uncached;

/// Of `fb_text`, for the crates above.
pub mod text {
    pub use fb_tree::text::Name;
}

/// Of `fb_parse`, for the crates above.
pub mod parse {
    pub use fb_iface::parse::Source;
}

/// Of `fb_library`, for the crates above.
pub mod library {
    pub use fb_iface::library::{
        Change, Library, Spot, Version, View, far, names_of, near, open_new, part_mentions,
        tree_by_name, value_mentions,
    };
}

/// Of `fb_iface`, for the crates above.
pub mod iface {
    pub use fb_iface::Fault;
}

/// Of `fb_network`, for the crates above.
pub mod plain {
    pub use fb_network::{Flat, INSTANCE_LIMIT};
}
