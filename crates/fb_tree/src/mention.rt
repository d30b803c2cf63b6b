//! The types that a declaration mentions.

ghost use Rattle.fb_tree.specs.{Mentions.{instance_types, parts_of}, Tree.{decl_tree}};
ghost use Rattle.std.specs.{List.{flat_map}, Prelude.{◌≡◌, IfOk, map}};

use crate::declaration::Decl;
use crate::network::Instance;
use crate::system::Application;
use fb_text::{Name, sorted_names};
use std::alloc::{AllocError, Global};

/// The names of the types of all instances, plugs and sockets among them, in the order of their bytes, each once.
pub fn mentions(alloc: Global, decl: &Decl) -> Result<Vec<Name>, AllocError>
    ensures { IfOk result (λ names. names.items ≡ parts_of (decl_tree decl.now)) }
{
    let names = instance_types(alloc, decl)?;
    sorted_names(alloc, names.as_slice())
}

/// The names of the types of all instances, plugs and sockets among them, in the order of the text.
#[tactic(auto, using(crate::proofs::MentionLemmas::types_of_instances, crate::proofs::MentionLemmas::application_types))]
fn instance_types(alloc: Global, decl: &Decl) -> Result<Vec<Name>, AllocError>
    ensures { IfOk result (λ names. names.items ≡ instance_types (decl_tree decl.now)) }
{
    match decl {
        Decl::Block(declared) | Decl::Adapter(declared) | Decl::Subapplication(declared) => {
            types_of(alloc, declared.network.instances.as_slice())
        }
        Decl::System(system) => types_in_applications(alloc, system.applications.as_slice()),
        Decl::Structure(_) => Ok(Vec::new(alloc)),
    }
}

/// The name of the type of each instance.
fn types_of(alloc: Global, instances: &[Instance]) -> Result<Vec<Name>, AllocError>
    ensures { IfOk result (λ names. names.items ≡ map (λ i. i.type_name.name) instances.now) }
{
    instances
        .iter()
        .map(|instance| instance.type_name.name.name())
        .collect(alloc)
}

/// The name of the type of each instance of each application.
fn types_in_applications(
    alloc: Global,
    applications: &[Application],
) -> Result<Vec<Name>, AllocError>
    ensures { IfOk result
        (λ names. names.items
        ≡ flat_map (λ a. map (λ i. i.type_name.name) a.network.instances.items) applications.now) }
{
    let mut names = Vec::new(alloc);
    for application in applications {
        let types = types_of(alloc, application.network.instances.as_slice())?;
        names.extend_from_slice(types.as_slice())?;
    }
    Ok(names)
}
