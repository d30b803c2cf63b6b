//! The check of mappings (IEC 61499-1, clause 7: system configurations).
ghost use Rattle.std.specs.{Prelude.{◌≡◌, ◌++◌, ◌&&◌, ◌||◌, IfOk, OnOk, List, map, ℕ}, BTreeSet.{contains}, List.{flat_map}};
ghost use Rattle.fb_tree.specs.Tree.{device_tree, mapping_tree, system_tree};
ghost use Rattle.fb_netcheck.specs.Iface.Names.{has_name, is_same};
ghost use Rattle.fb_faults.specs.{Mappings.{has_resource, home_faults, home_span, system_mapping_faults}, Pairs.{pair_cmp}};

use fb_netcheck::iface::{Code, Fault};
use fb_netcheck::report_repeated;
use fb_tree::text::{Name, Span};
use fb_tree::{Device, Mapping, Resource, System};
use std::alloc::{AllocError, Global};
use std::collections::BTreeSet;

/// Reports paths that are mapped twice, and mappings to what is no resource of the system, as they are found.
pub fn report_mappings(
    alloc: Global,
    system: &System,
    found: &mut Vec<Fault>,
) -> Result<(), AllocError>
    ensures { OnOk result
        (found.new.items ≡ found.old.items ++ system_mapping_faults (system_tree system.now)) }
{
    let mappings = system.mappings.as_slice();
    report_repeated(alloc, Code::MappedTwice, mappings, found)?;
    let resources = resources_of(alloc, system.devices.as_slice())?;
    report_homes(&resources, mappings, found)
}

/// Each resource with its device. The name of a device means its first declaration.
fn resources_of(alloc: Global, devices: &[Device]) -> Result<BTreeSet<(Name, Name)>, AllocError>
    ensures { IfOk result (λ resources. (device resource : List ℕ)
        → contains pair_cmp resources (device, resource)
        ≡ has_resource (map device_tree devices.now) device resource) }
{
    let mut seen = BTreeSet::new(alloc);
    let mut resources = BTreeSet::new(alloc);
    for device in devices {
        let name = device.name.name.name();
        if seen.insert(name)? {
            add_resources(&name, device.resources.as_slice(), &mut resources)?;
        }
    }
    Ok(resources)
}

/// Adds the resources of a device.
fn add_resources(
    device: &Name,
    own: &[Resource],
    resources: &mut BTreeSet<(Name, Name)>,
) -> Result<(), AllocError>
    ensures { OnOk result
        ((name resource : List ℕ) → contains pair_cmp resources.new (name, resource)
        ≡ (contains pair_cmp resources.old (name, resource)
        || (is_same device.now name && has_name (map (λ r. r.name) own.now) resource))) }
{
    for resource in own {
        resources.insert((*device, resource.name.name.name()))?;
    }
    Ok(())
}

/// Reports mappings to what is none of the resources.
fn report_homes(
    resources: &BTreeSet<(Name, Name)>,
    mappings: &[Mapping],
    found: &mut Vec<Fault>,
) -> Result<(), AllocError>
    ensures { OnOk result (found.new.items ≡ found.old.items
        ++ flat_map
        (λ m. home_faults (contains pair_cmp resources.now (m.device.name, m.resource.name))
        (mapping_tree m)) mappings.now) }
{
    for mapping in mappings {
        let home = (mapping.device.name.name(), mapping.resource.name.name());
        report_home(resources.contains(&home), mapping, found)?;
    }
    Ok(())
}

fn report_home(
    is_resource: bool,
    mapping: &Mapping,
    found: &mut Vec<Fault>,
) -> Result<(), AllocError>
    ensures { OnOk result
        (found.new.items ≡ found.old.items ++ home_faults is_resource (mapping_tree mapping.now)) }
{
    if !is_resource {
        found.push(Fault {
            code: Code::NoSuchResource,
            span: span_of_home(mapping),
        })?;
    }
    Ok(())
}

/// From the device's name through the resource's.
fn span_of_home(mapping: &Mapping) -> Span
    ensures { result ≡ home_span (mapping_tree mapping.now) }
{
    mapping.device.span.through(mapping.resource.span).span()
}
