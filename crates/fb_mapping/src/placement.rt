//! The placement of systems. `plan` of `fb_deploy` goes the same way, by the flat network and `homes_of`; what each makes of the homes is of another type.
ghost use Rattle.std.specs.Prelude.{◌≡◌, IfOk};
ghost use Rattle.fb_mapping.specs.Placed.{IsPlaced, IsSystem, flat_placed, plain_placed};

use fb_flatten::library::View;
use fb_flatten::text::Name;
use fb_flatten::{Net, net};
use fb_placing::plain::{Flat, Link};
use fb_placing::{Home, Homes, Misplaced, cuts_of, homes_of};
use std::alloc::{AllocError, Global};

/// On which resource each block of a system is.
#[derive(Drop)]
pub enum Placed {
    /// There is no flat network.
    Stopped(Net),
    /// Blocks and mappings do not meet.
    Faulty(Vec<Misplaced>),
    /// The homes of the blocks, in the order of the blocks, and the links whose two homes differ.
    On { homes: Vec<Home>, cuts: Vec<Link> },
}

/// The placement of a system by its flat network.
fn place_flat<V: View>(
    alloc: Global,
    view: &V,
    system: &Name,
    flat: &Flat,
) -> Result<Placed, AllocError>
    ensures { IfOk result
        (λ placed. plain_placed placed ≡ flat_placed (V.sources view.now) system.now flat.now) }
{
    match homes_of(alloc, view, system, flat)? {
        Homes::Faulty(found) => Ok(Placed::Faulty(found)),
        Homes::On(homes) => {
            let cuts = cuts_of(alloc, homes.as_slice(), flat)?;
            Ok(Placed::On { homes, cuts })
        }
    }
}

/// The resource on which each block of a system is, by the longest path of a mapping that is the block's or a prefix of it, and the
/// links between resources; or why there is no flat network, or what is misplaced.
pub fn place<V: View>(alloc: Global, view: &V, system: Name) -> Result<Placed, AllocError>
    requires { IsSystem (V.sources view.now) system }
    ensures { IfOk result (λ placed. IsPlaced (V.sources view.now) system (plain_placed placed)) }
{
    match net(alloc, view, system)? {
        Net::Flat(flat) => place_flat(alloc, view, &system, &flat),
        stopped => Ok(Placed::Stopped(stopped)),
    }
}
