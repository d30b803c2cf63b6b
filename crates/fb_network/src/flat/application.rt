//! Applications of a system.

use crate::flat::Flat;
use fb_tree::text::Name;

/// An application of a system, with the flat network of its network.
#[derive(Debug)]
pub struct FlatApplication {
    pub name: Name,
    pub flat: Flat,
}

impl Drop for FlatApplication {
    fn drop(self) {
        let Self { name: _, flat: _ } = self;
    }
}
