//! The interface of a unit.
ghost use Rattle.std.specs.Prelude.{◌≡◌, IfOk};
ghost use Rattle.fb_tree.specs.Tree.{decl_tree};
ghost use Rattle.fb_iface.specs.Ports.{meanings_in, meanings_of};

use crate::by_name::PortsByName;
use crate::ports::Ports;
use fb_library::parse::{Body, Source};
use fb_tree::Decl;
use std::alloc::{AllocError, Global};

/// The ports of a unit. A broken text has none, and those of a system or a structure are empty.
pub fn interface(alloc: Global, source: &Source) -> Result<Option<Ports<'_>>, AllocError>
    ensures { IfOk result (λ ports. ports ≡ meanings_of source.now.text) }
{
    match source.body() {
        Body::Tree(decl) => Ok(Some(ports_of(alloc, decl)?)),
        Body::Broken(_) => Ok(None),
    }
}

/// The ports of a declaration.
pub fn ports_of(alloc: Global, decl: &Decl) -> Result<Ports<'_>, AllocError>
    ensures { IfOk result (λ ports. ports ≡ meanings_in (decl_tree decl.now)) }
{
    match decl {
        Decl::Block(declared) | Decl::Adapter(declared) | Decl::Subapplication(declared) => {
            Ports::of_type(alloc, declared)
        }
        Decl::System(_) | Decl::Structure(_) => Ok(Ports::new(alloc)),
    }
}

/// What names mean among the ports of a declaration.
pub(crate) fn ports_by_name(alloc: Global, decl: &Decl) -> Result<PortsByName<'_>, AllocError>
    ensures { IfOk result (λ ports. ports ≡ meanings_in (decl_tree decl.now)) }
{
    match decl {
        Decl::Block(declared) | Decl::Adapter(declared) | Decl::Subapplication(declared) => {
            PortsByName::of_type(alloc, declared)
        }
        Decl::System(_) | Decl::Structure(_) => Ok(PortsByName::by_tables(Ports::new(alloc))),
    }
}
