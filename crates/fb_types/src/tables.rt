//! Networks of types.
ghost use Rattle.std.specs.{Prelude.{IfOk, OnOk}, BTreeMap.{get}};
ghost use Rattle.fb_tree.specs.Text.Order.{name_cmp};
ghost use Rattle.fb_types.specs.Tables.{Grows, Has, HasAdapter, HasAdapters, HasType, IsTable, IsDeclaredIn};

use crate::networks::network;
use fb_iface::library::{View, tree_by_name};
use fb_network::{Network, Port};
use fb_tree::text::Name;
use std::alloc::{AllocError, Global};
use std::collections::BTreeMap;

/// Networks by the names of their types.
pub type Table = BTreeMap<Name, Network>;

/// Adds the network of an adapter that is not there.
fn add_adapter<V: View>(
    alloc: Global,
    view: &V,
    table: &mut Table,
    name: &Name,
) -> Result<(), AllocError>
    requires { IsDeclaredIn (V.sources view.now) (get name_cmp table.old) }
    ensures grows { OnOk result
        (Grows (V.sources view.now) (get name_cmp table.old) (get name_cmp table.new)) }
    ensures has { OnOk result (Has (V.sources view.now) (get name_cmp table.new) name.now) }
{
    if table.contains_key(name) {
        return Ok(());
    }
    if let Some(decl) = tree_by_name(view, name) {
        let it = network(alloc, decl)?;
        table.insert(*name, it)?;
    }
    Ok(())
}

/// Adds the network of the adapter of a plug or socket.
fn add_adapter_of<V: View>(
    alloc: Global,
    view: &V,
    table: &mut Table,
    port: &Port,
) -> Result<(), AllocError>
    requires { IsDeclaredIn (V.sources view.now) (get name_cmp table.old) }
    ensures grows { OnOk result
        (Grows (V.sources view.now) (get name_cmp table.old) (get name_cmp table.new)) }
    ensures has { OnOk result
        (HasAdapter (V.sources view.now) (get name_cmp table.new) port.now.adapter) }
{
    match &port.adapter {
        Some(adapter) => add_adapter(alloc, view, table, adapter),
        None => Ok(()),
    }
}

/// Adds the networks of the adapters of ports.
fn add_adapters<V: View>(
    alloc: Global,
    view: &V,
    table: &mut Table,
    ports: &[Port],
) -> Result<(), AllocError>
    requires { IsDeclaredIn (V.sources view.now) (get name_cmp table.old) }
    ensures grows { OnOk result
        (Grows (V.sources view.now) (get name_cmp table.old) (get name_cmp table.new)) }
    ensures has { OnOk result
        (HasAdapters (V.sources view.now) (get name_cmp table.new) ports.now) }
{
    for port in ports {
        add_adapter_of(alloc, view, table, port)?;
    }
    Ok(())
}

/// Adds the network of a type and those of the adapters of its ports.
fn add_type<V: View>(
    alloc: Global,
    view: &V,
    table: &mut Table,
    name: &Name,
) -> Result<(), AllocError>
    requires { IsDeclaredIn (V.sources view.now) (get name_cmp table.old) }
    ensures grows { OnOk result
        (Grows (V.sources view.now) (get name_cmp table.old) (get name_cmp table.new)) }
    ensures has { OnOk result (HasType (V.sources view.now) (get name_cmp table.new) name.now) }
{
    if let Some(decl) = tree_by_name(view, name) {
        let it = network(alloc, decl)?;
        add_adapters(alloc, view, table, it.ports())?;
        table.insert(*name, it)?;
    }
    Ok(())
}

/// The networks of these types and of the adapters of their ports.
pub fn networks_of<V: View>(alloc: Global, view: &V, names: &[Name]) -> Result<Table, AllocError>
    ensures { IfOk result (λ table. IsTable (V.sources view.now) (get name_cmp table) names.now) }
{
    let mut table = BTreeMap::new(alloc);
    for name in names {
        add_type(alloc, view, &mut table, name)?;
    }
    Ok(table)
}
