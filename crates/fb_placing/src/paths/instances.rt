//! Instances by their names, so that each is found without a walk over those before it.
ghost use Rattle.std.specs.{Prelude.{◌≡◌, map, IfOk, Some}, HashMap.{get_by_text}};
ghost use Rattle.fb_tree.specs.Tree.{application_tree, decl_tree, instance_tree};
ghost use Rattle.fb_library.specs.View.{tree_at};
ghost use Rattle.fb_placing.specs.{Resolved.{inner_instances, instance_called}, Systems.{applications_in}, Tables.{AreApplications, instance_at}};

use crate::first_entry::insert_first;
use fb_library::{View, tree_by_name};
use fb_tree::text::Name;
use fb_tree::{Application, Decl, Instance};
use std::alloc::{AllocError, Global};
use std::collections::{BTreeMap, HashMap};

/// Instances by their names, of those of one name the first.
pub(crate) type Instances<'a> = HashMap<String, &'a Instance>;

/// The instances of each application of a system, by the names of these, of those of one name the first.
pub(crate) type Applications<'a> = HashMap<String, Instances<'a>>;

/// The instances of the units that were looked into, by the names of these.
pub(crate) type Units<'a> = BTreeMap<Name, Instances<'a>>;

/// The table of these instances.
pub(crate) fn instances_by_name<'a>(
    alloc: Global,
    instances: &'a [Instance],
) -> Result<Instances<'a>, AllocError>
    ensures { IfOk result
        (λ table. instance_at table ≡ instance_called (map instance_tree instances.now)) }
{
    let mut table = HashMap::new(alloc);
    for instance in instances {
        let text = String::from_str(alloc, instance.name.name.as_str())?;
        insert_first(&mut table, text, instance)?;
    }
    Ok(table)
}

/// The table of these applications.
fn applications_by_name<'a>(
    alloc: Global,
    applications: &'a [Application],
) -> Result<Applications<'a>, AllocError>
    ensures { IfOk result
        (λ table. AreApplications (map application_tree applications.now) (get_by_text table)) }
{
    let mut table = HashMap::new(alloc);
    for application in applications {
        let text = String::from_str(alloc, application.name.name.as_str())?;
        let instances = instances_by_name(alloc, application.network.instances.as_slice())?;
        insert_first(&mut table, text, instances)?;
    }
    Ok(table)
}

/// The applications of a system.
fn applications_of<'a, V: View>(view: &'a V, system: &Name) -> &'a [Application]
    ensures { map application_tree result.now
        ≡ applications_in (tree_at (V.sources view.now) system.now) }
{
    match tree_by_name(view, system) {
        Some(Decl::System(it)) => it.applications.as_slice(),
        _ => &[],
    }
}

/// The instances of the applications of a system.
pub(crate) fn applications_in<'a, V: View>(
    alloc: Global,
    view: &'a V,
    system: &Name,
) -> Result<Applications<'a>, AllocError>
    ensures { IfOk result
        (λ table. AreApplications (applications_in (tree_at (V.sources view.now) system.now))
        (get_by_text table)) }
{
    applications_by_name(alloc, applications_of(view, system))
}

/// The instances of a subapplication type.
fn inner_instances(decl: &Decl) -> &[Instance]
    ensures { map instance_tree result.now ≡ inner_instances (Some (decl_tree decl.now)) }
{
    match decl {
        Decl::Subapplication(declared) => declared.network.instances.as_slice(),
        Decl::Block(_) | Decl::Adapter(_) | Decl::System(_) | Decl::Structure(_) => &[],
    }
}

/// The instances of a unit.
pub(crate) fn instances_of<'a, V: View>(view: &'a V, unit: &Name) -> &'a [Instance]
    ensures { map instance_tree result.now
        ≡ inner_instances (tree_at (V.sources view.now) unit.now) }
{
    match tree_by_name(view, unit) {
        Some(decl) => inner_instances(decl),
        None => &[],
    }
}
