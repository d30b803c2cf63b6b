//! The flat networks of units (IEC 61499-1, 5.4: subapplication types; 7: systems). Units without faults have clean networks.
#![tactic(auto)]

mod blocking;
mod clean_laws;
mod computing;
mod counts;
mod far;
mod flats;
mod inner;
mod laws;
mod nets;
mod suspects;
mod units;

pub use clean_laws::{
    applications_are_clean, networks_are_clean, without_faults_nothing_is_reported,
};
pub use computing::{Computed, compute};
pub use far::all_far;
pub use fb_types::{
    Hints, HintsOnly, KnownFaultless, Net, NoHints, has_net, has_same_interface, is_of_system,
    is_subapplication,
};
pub use inner::Inner;
pub use laws::{
    far_is_all, far_of_is_local, flat_networks_are_local, has_net_by_text, net_at_is_local,
    net_at_is_net, net_is_local, net_is_unchanged, one_net,
};
pub use nets::{net, net_with};

/// Of `fb_text`, for the crates above.
pub mod text {
    pub use fb_types::text::Name;
}

/// Of `fb_parse`, for the crates above.
pub mod parse {
    pub use fb_types::parse::Source;
}

/// Of `fb_library`, for the crates above.
pub mod library {
    pub use fb_types::library::{Change, Library, Spot, Version, View, near, tree_by_name};
}

/// Of `fb_iface`, for the crates above.
pub mod iface {
    pub use fb_types::iface::Fault;
}

/// Of `fb_faults`, for the crates above.
pub mod faults {
    pub use fb_faults::faults;
}
