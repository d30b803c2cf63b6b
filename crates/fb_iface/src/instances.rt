//! Which kinds of units the types of instances, plugs and sockets may be.
ghost use Rattle.std.specs.Prelude.{◌≡◌};
ghost use Rattle.fb_iface.specs.Types.{suits};

use fb_tree::{Role, UnitKind};

/// Whether a unit of this kind may be the type of an instance in this role.
pub fn is_suited(role: Role, kind: UnitKind) -> bool
    ensures { result ≡ suits role kind }
{
    match (role, kind) {
        (Role::Plug | Role::Socket, UnitKind::Adapter) => true,
        (Role::Block, UnitKind::Block) => true,
        (Role::Subapplication, UnitKind::Subapplication) => true,
        _ => false,
    }
}
