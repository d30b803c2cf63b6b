//! The applications of systems as plain values (IEC 61499-1, clause 7: system configurations).
ghost use Rattle.std.specs.Prelude.{◌≡◌, IfOk, map};
ghost use Rattle.fb_tree.specs.Tree.{application_tree, decl_tree};
ghost use Rattle.fb_types.specs.Applications.{applications_of, plain_application};

use crate::networks::network_with;
use fb_network::Network;
use fb_tree as trees;
use fb_tree::Decl;
use fb_tree::text::Name;
use std::alloc::{AllocError, Global};

/// An application of a system with its network, which has no ports.
#[derive(Debug)]
pub struct Application {
    pub name: Name,
    pub network: Network,
}

impl Drop for Application {
    fn drop(self) {
        let Self {
            name: _,
            network: _,
        } = self;
    }
}

/// The applications of a system, in the order of the text. A type or a structure has none.
pub fn applications(alloc: Global, decl: &Decl) -> Result<Vec<Application>, AllocError>
    ensures { IfOk result
        (λ applications. applications.items ≡ applications_of (decl_tree decl.now)) }
{
    match decl {
        Decl::Block(_) | Decl::Adapter(_) | Decl::Subapplication(_) | Decl::Structure(_) => {
            Ok(Vec::new(alloc))
        }
        Decl::System(system) => applications_in(alloc, system.applications.as_slice()),
    }
}

fn applications_in(
    alloc: Global,
    applications: &[trees::Application],
) -> Result<Vec<Application>, AllocError>
    ensures { IfOk result
        (λ found. found.items
        ≡ map (λ a. plain_application (application_tree a)) applications.now) }
{
    let mut found = Vec::new(alloc);
    for application in applications {
        let network = network_with(alloc, Vec::new(alloc), &application.network)?;
        found.push(Application {
            name: application.name.name.name(),
            network,
        })?;
    }
    Ok(found)
}
