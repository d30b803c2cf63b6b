//! Faults, the interfaces of units, what names mean in networks, and the check of what a unit declares.
#![tactic(auto)]

mod by_name;
mod classes;
mod code;
mod declarations;
mod fault;
mod initial_values;
mod instance_types;
mod instances;
mod interfaces;
mod literals;
mod named;
mod names;
mod ports;
mod recursion;
mod repeats;
mod scope;
mod structures;
mod used;
mod withs;

pub use by_name::PortsByName;
pub use classes::{Class, class_by_form, class_by_use, class_of, class_of_constant, is_taken};
pub use code::Code;
pub use declarations::{iface_faults, report_declarations};
pub use fault::{Fault, sorted_faults};
pub use instances::is_suited;
pub use interfaces::{interface, ports_of};
pub use literals::report_constant;
pub use ports::{
    DeclaredEvent, DeclaredInstance, DeclaredVariable, Ports, is_beside, is_same_role, is_same_side,
};
pub use scope::Scope;
pub use structures::{Behind, FieldTable, Structures};
pub use used::{UsedName, UsedType};

/// Of `fb_parse`, for the crates above.
pub mod parse {
    pub use fb_library::parse::{Body, Source};
}

/// Of `fb_library`, for the crates above.
pub mod library {
    pub use fb_library::{
        Change, Library, Spot, Version, View, far, names_of, near, open_new, part_mentions,
        part_of, text_by_name, tree_by_name, value_mentions,
    };
}
