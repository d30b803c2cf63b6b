//! The setting of a network.

use fb_iface::Scope;
use fb_tree::UnitKind;
use fb_tree::text::Name;

/// The setting of a network: the unit, its kind, and what names mean in the network.
pub struct Setting<'a> {
    pub unit: Name,
    pub kind: UnitKind,
    pub scope: Scope<'a>,
}

impl<'a> Drop for Setting<'a> {
    fn drop(self) {
        let Self {
            unit: _,
            kind: _,
            scope: _,
        } = self;
    }
}
