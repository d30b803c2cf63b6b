//! The flat network of a system (IEC 61499-1, clause 7).
ghost use Rattle.std.specs.Prelude.{◌≡◌, IfOk};
ghost use Rattle.fb_network.specs.SystemFlat.{IsSystemFlat};

use crate::composition::draft::{Draft, finish, take_in};
use crate::flat::Flat;
use crate::flat::application::FlatApplication;
use std::alloc::{AllocError, Global};

/// The flat network of a system: what its applications hold, each inside the application's name. It has no borders.
pub fn join(alloc: Global, applications: &[FlatApplication]) -> Result<Flat, AllocError>
    ensures { IfOk result (IsSystemFlat applications.now) }
{
    let mut draft = Draft::new(alloc);
    for application in applications {
        take_in(alloc, &mut draft, &application.name, &application.flat)?;
    }
    finish(alloc, draft, Vec::new(alloc))
}
