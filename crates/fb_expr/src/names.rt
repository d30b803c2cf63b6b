//! What the names of expressions mean.

use fb_iface::{Scope, Structures};

/// Names of the unit and of its plugs and sockets, and fields of structures.
#[derive(Clone, Copy)]
pub struct Names<'a> {
    pub scope: &'a Scope<'a>,
    pub structures: &'a Structures<'a>,
}
