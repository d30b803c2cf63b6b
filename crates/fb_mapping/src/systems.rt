//! Which units are systems.
ghost use Rattle.std.specs.Prelude.{◌≡◌, ◌↔◌, IsTrue};
ghost use Rattle.fb_flatten.specs.{Library.View.{tree_at}, Tables.{is_system_in}};
ghost use Rattle.fb_mapping.specs.Placed.{IsSystem};

use fb_flatten::is_of_system;
use fb_flatten::library::{View, tree_by_name};
use fb_flatten::text::Name;

/// Whether the unit is a system, which has a placement and a plan.
pub fn is_system<V: View>(view: &V, unit: &Name) -> bool
    ensures is { IsTrue result ↔ IsSystem (V.sources view.now) unit.now }
    ensures told { result ≡ is_system_in (tree_at (V.sources view.now) unit.now) }
{
    match tree_by_name(view, unit) {
        Some(decl) => is_of_system(decl),
        None => false,
    }
}
