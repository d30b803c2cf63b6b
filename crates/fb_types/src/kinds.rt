//! Which units have nets.
ghost use Rattle.std.specs.Prelude.{◌≡◌, ◌↔◌, IsTrue};
ghost use Rattle.fb_iface.specs.Library.View.{tree_at};
ghost use Rattle.fb_tree.specs.Tree.{decl_tree};
ghost use Rattle.fb_types.specs.{Tables.{is_subapplication_in, is_subapplication_tree, is_system_tree}, Units.{HasNet, has_net_in, has_net_tree}};

use fb_iface::library::{View, tree_by_name};
use fb_tree::Decl;
use fb_tree::text::Name;

fn is_of_net(decl: &Decl) -> bool
    ensures { result ≡ has_net_tree (decl_tree decl.now) }
{
    match decl {
        Decl::Block(_) | Decl::Adapter(_) | Decl::Structure(_) => false,
        Decl::Subapplication(_) | Decl::System(_) => true,
    }
}

/// Whether the unit is a subapplication or a system.
pub fn has_net<V: View>(view: &V, unit: &Name) -> bool
    ensures is { IsTrue result ↔ HasNet (V.sources view.now) unit.now }
    ensures told { result ≡ has_net_in (tree_at (V.sources view.now) unit.now) }
{
    match tree_by_name(view, unit) {
        Some(decl) => is_of_net(decl),
        None => false,
    }
}

/// Whether a unit is a system.
pub fn is_of_system(decl: &Decl) -> bool
    ensures { result ≡ is_system_tree (decl_tree decl.now) }
{
    match decl {
        Decl::Block(_) | Decl::Adapter(_) | Decl::Subapplication(_) | Decl::Structure(_) => false,
        Decl::System(_) => true,
    }
}

pub(crate) fn is_of_subapplication(decl: &Decl) -> bool
    ensures { result ≡ is_subapplication_tree (decl_tree decl.now) }
{
    match decl {
        Decl::Block(_) | Decl::Adapter(_) | Decl::System(_) | Decl::Structure(_) => false,
        Decl::Subapplication(_) => true,
    }
}

/// Whether the unit is a subapplication.
pub fn is_subapplication<V: View>(view: &V, unit: &Name) -> bool
    ensures { result ≡ is_subapplication_in (tree_at (V.sources view.now) unit.now) }
{
    match tree_by_name(view, unit) {
        Some(decl) => is_of_subapplication(decl),
        None => false,
    }
}
