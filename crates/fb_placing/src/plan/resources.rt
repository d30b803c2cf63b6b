//! The resources of a system.
ghost use Rattle.std.specs.Prelude.{◌≡◌, ◌++◌, map, IfOk, OnOk};
ghost use Rattle.fb_tree.specs.Tree.{device_tree, resource_tree};
ghost use Rattle.fb_library.specs.View.{tree_at};
ghost use Rattle.fb_network.specs.Places.{dotted};
ghost use Rattle.fb_placing.specs.{Systems.{devices_in}, Resources.{resources_of}};

use fb_library::{View, tree_by_name};
use fb_network::Path;
use fb_tree::text::Name;
use fb_tree::{Decl, Device, Resource};
use std::alloc::{AllocError, Global};

/// The devices of a system.
fn devices_of<'a, V: View>(view: &'a V, system: &Name) -> &'a [Device]
    ensures { map device_tree result.now ≡ devices_in (tree_at (V.sources view.now) system.now) }
{
    match tree_by_name(view, system) {
        Some(Decl::System(it)) => it.devices.as_slice(),
        _ => &[],
    }
}

/// Adds the resources of a device.
fn push_resources(
    alloc: Global,
    device: &Name,
    resources: &[Resource],
    paths: &mut Vec<Path>,
) -> Result<(), AllocError>
    ensures { OnOk result (paths.new.items ≡ paths.old.items
        ++ map (λ r. dotted device.now r.name.name) (map resource_tree resources.now)) }
{
    for resource in resources {
        paths.push(Path::of_two(alloc, device, &resource.name.name.name())?)?;
    }
    Ok(())
}

/// The resources of devices, in the order of the text.
fn resources_in(alloc: Global, devices: &[Device]) -> Result<Vec<Path>, AllocError>
    ensures { IfOk result (λ paths. paths.items ≡ resources_of (map device_tree devices.now)) }
{
    let mut paths = Vec::new(alloc);
    for device in devices {
        push_resources(
            alloc,
            &device.name.name.name(),
            device.resources.as_slice(),
            &mut paths,
        )?;
    }
    Ok(paths)
}

/// The resources of a system, in the order of the text.
pub(crate) fn resources_of<V: View>(
    alloc: Global,
    view: &V,
    system: &Name,
) -> Result<Vec<Path>, AllocError>
    ensures { IfOk result (λ paths. paths.items
        ≡ resources_of (devices_in (tree_at (V.sources view.now) system.now))) }
{
    resources_in(alloc, devices_of(view, system))
}
