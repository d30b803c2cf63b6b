//! The kinds of units.

ghost use Rattle.fb_tree.specs.{Mentions.{unit_kind_of}, Tree.{decl_tree}};
ghost use Rattle.std.specs.Prelude.{◌≡◌};

use crate::declaration::Decl;

/// The kinds of units.
#[derive(Clone, Copy, Debug, PartialEq, Eq)]
pub enum UnitKind {
    Block,
    Adapter,
    Subapplication,
    System,
    Structure,
}

/// The kind of a declaration.
pub fn kind(decl: &Decl) -> UnitKind
    ensures { result ≡ unit_kind_of (decl_tree decl.now) }
{
    match decl {
        Decl::Block(_) => UnitKind::Block,
        Decl::Adapter(_) => UnitKind::Adapter,
        Decl::Subapplication(_) => UnitKind::Subapplication,
        Decl::System(_) => UnitKind::System,
        Decl::Structure(_) => UnitKind::Structure,
    }
}
