//! The check of networks: connections and parameters.
#![tactic(auto)]

mod connections;
mod ends;
mod laws;
mod mappings;
mod networks;
mod parameters;
mod paths;
mod repeats;
mod setting;
mod sides;
mod spellings;
mod types;

pub use laws::{connections_are_right, faultless_networks_are_clean, net_faults_are_local};
pub use networks::{net_faults, report_network, report_networks};
pub use paths::{Placed, report_repeated};
pub use setting::Setting;

/// Of `fb_parse`, for the crates above.
pub mod parse {
    pub use fb_iface::parse::Body;
}

/// Of `fb_library`, for the crates above.
pub mod library {
    pub use fb_iface::library::{View, tree_by_name};
}

/// Of `fb_iface`, for the crates above.
pub mod iface {
    pub use fb_iface::{
        Code, Fault, Ports, Scope, Structures, is_beside, is_suited, ports_of, report_constant,
        report_declarations, sorted_faults,
    };
}
