//! How many instances units hold, counted by their declarations.
ghost use Rattle.std.specs.{Prelude.{◌≡◌, ◌+◌, true, false, min, unwrap_or, OnOk, Some, map}, BTreeMap.{get}};
ghost use Rattle.fb_iface.specs.Library.View.{tree_at};
ghost use Rattle.fb_network.specs.declared.flat.count.TheConstants as limits;
ghost use Rattle.fb_tree.specs.{Text.Order.{name_cmp}, Tree.{DeclTree, application_tree, decl_tree, instance_tree}};
ghost use Rattle.fb_types.specs.{Applications.{plain_application}, Counts.{CountsAll, CountsOn, HasCount, counted_with, plain_instances}};
ghost use Rattle.fb_types.specs.{Networks.{plain_instance}, Tables.{SameOthers, is_subapplication_in, is_subapplication_tree}};
ghost use Rattle.fb_types.specs.Units.{instances_in, own_instances};

use crate::kinds::is_of_subapplication;
use fb_iface::library::{View, tree_by_name};
use fb_network::INSTANCE_LIMIT;
use fb_tree::text::Name;
use fb_tree::{Application, Decl, Instance, Role};
use std::alloc::AllocError;
use std::collections::BTreeMap;

/// How many instances types hold, by their names.
pub type Counts = BTreeMap<Name, u32>;

fn count_at(counts: &Counts, name: &Name) -> u32
    ensures { result ≡ unwrap_or (get name_cmp counts.now name.now) 0 }
{
    match counts.get(name) {
        Some(count) => *count,
        None => 0,
    }
}

/// A count, with one more instance and those that are in it.
fn counted_up(so_far: u32, inside: u32) -> u32
    ensures { result ≡ min (so_far + 1 + inside) (limits.INSTANCE_LIMIT + 1) }
{
    let total = so_far as u64 + 1 + inside as u64;
    if total <= INSTANCE_LIMIT as u64 {
        total as u32
    } else {
        INSTANCE_LIMIT + 1
    }
}

/// A count, with one more instance and those that are in it, by the instance's role; plugs and sockets are not counted.
fn count_instance(counts: &Counts, so_far: u32, instance: &Instance) -> u32
    ensures { result
        ≡ counted_with (get name_cmp counts.now) so_far (plain_instance (instance_tree instance.now)) }
{
    match instance.role {
        Role::Plug | Role::Socket => so_far,
        Role::Block => counted_up(so_far, 0),
        Role::Subapplication => counted_up(
            so_far,
            count_at(counts, &instance.type_name.name.name()),
        ),
    }
}

/// A count, with these instances and those that are in them.
fn count_instances(counts: &Counts, so_far: u32, instances: &[Instance]) -> u32
    ensures { CountsOn (get name_cmp counts.now) so_far
        (plain_instances (map instance_tree instances.now)) result }
{
    let mut count = so_far;
    for instance in instances {
        count = count_instance(counts, count, instance);
    }
    count
}

/// How many instances applications hold, from nothing on.
fn count_applications(counts: &Counts, applications: &[Application]) -> u32
    ensures { CountsAll (get name_cmp counts.now)
        (instances_in (map (λ a. plain_application (application_tree a)) applications.now)) result }
{
    let mut count = 0;
    for application in applications {
        count = count_instances(counts, count, application.network.instances.as_slice());
    }
    count
}

/// How many instances a unit holds at all depths, up to one past the limit, by the counts of the types of its parts.
pub fn count_of_unit(counts: &Counts, decl: &Decl) -> u32
    ensures { CountsAll (get name_cmp counts.now) (own_instances (decl_tree decl.now)) result }
{
    match decl {
        Decl::Block(_) | Decl::Adapter(_) | Decl::Structure(_) => 0,
        Decl::Subapplication(declared) => {
            count_instances(counts, 0, declared.network.instances.as_slice())
        }
        Decl::System(system) => count_applications(counts, system.applications.as_slice()),
    }
}

/// Adds how many instances a unit holds, if it is a subapplication.
pub fn add_count<V: View>(view: &V, counts: &mut Counts, name: &Name) -> Result<(), AllocError>
    ensures others { OnOk result
        (SameOthers (get name_cmp counts.old) (get name_cmp counts.new) name.now) }
    ensures kept { OnOk result
        (is_subapplication_in (tree_at (V.sources view.now) name.now) ≡ false
        → get name_cmp counts.new name.now ≡ get name_cmp counts.old name.now) }
    ensures counted { OnOk result
        ((tree : DeclTree) → tree_at (V.sources view.now) name.now ≡ Some tree
        → is_subapplication_tree tree ≡ true
        → HasCount (get name_cmp counts.old) (get name_cmp counts.new) tree name.now) }
{
    let Some(decl) = tree_by_name(view, name) else {
        return Ok(());
    };
    if is_of_subapplication(decl) {
        let count = count_of_unit(counts, decl);
        counts.insert(*name, count)?;
    }
    Ok(())
}
