//! Adapters: which one a plug or socket has (IEC 61499-1, 5.5).
ghost use Rattle.std.specs.{Prelude.{◌≡◌, [], ◌∷◌}, Option.{option_copied, option_and_then}, BTreeMap.{get}};
ghost use Rattle.fb_tree.specs.Text.Order.{name_cmp};
ghost use Rattle.fb_network.specs.{Network.{place_of}, Clean.{adapter_at, port_named}, Standing.{HasInstances}};

use crate::network::look_up::Networks;
use crate::network::table::Table;
use crate::network::{End, Network, Port, is_same_sort};
use fb_tree::Sort;
use fb_tree::text::{Name, same_name};

/// The plug or socket of that name.
fn find_adapter_port<'a>(network: &'a Network, name: &Name) -> Option<&'a Port>
    ensures { option_copied result ≡ port_named network.now.ports Sort.Adapter name.now }
{
    network.ports().iter().find(|port| is_same_sort(port.sort, Sort::Adapter)
        && same_name(&port.name, name))
}

/// The adapter of the plug or socket that a type has under that name.
fn find_port_adapter<'a, V: Networks>(
    view: &'a V,
    network: &Network,
    name: &Name,
) -> Option<&'a Network>
    ensures { option_copied result ≡ adapter_at (V.networks view.now) network.now (name.now ∷ []) }
{
    match find_adapter_port(network, name) {
        Some(port) => match &port.adapter {
            Some(adapter) => view.network(adapter),
            None => None,
        },
        None => None,
    }
}

/// The network of the type of an instance.
fn find_type<'a, V: Networks>(view: &'a V, table: &Table, name: &Name) -> Option<&'a Network>
    ensures { option_copied result
        ≡ option_and_then
        (λ s. V.networks view.now s.instance.type_name) (get name_cmp table.now name.now) }
{
    match table.get(name) {
        Some(standing) => view.network(&standing.instance.type_name),
        None => None,
    }
}

/// The adapter of the plug or socket at an end of a connection.
pub fn find_adapter<'a, V: Networks>(
    view: &'a V,
    network: &Network,
    table: &Table,
    end: &End,
) -> Option<&'a Network>
    requires { HasInstances (get name_cmp table.now) network.now.instances }
    ensures { option_copied result
        ≡ adapter_at (V.networks view.now) network.now (place_of end.now) }
{
    match end {
        End::Own(port) => find_port_adapter(view, network, port),
        End::Of(name, port) => match find_type(view, table, name) {
            Some(inner) => find_port_adapter(view, inner, port),
            None => None,
        },
    }
}
