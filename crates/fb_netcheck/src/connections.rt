//! Faults of connections.
ghost use Rattle.std.specs.{Prelude.{◌≡◌, ◌++◌, OnOk}, BTreeMap.{get}, List.{flat_map}};
ghost use Rattle.fb_netcheck.specs.{Connections.{connection_faults, joined_faults}, Known.{AreSpellings, part_cmp}, Settings.{place_in}, Types.{joined_types}};

use crate::ends::{Position, Target, target_at};
use crate::setting::Setting;
use crate::sides::{report_end, report_pass_through};
use crate::spellings::Spellings;
use crate::types::report_type;
use fb_iface::Fault;
use fb_iface::library::View;
use fb_tree::{Connection, UnitKind};
use std::alloc::{AllocError, Global};
use std::collections::BTreeMap;

/// Reports ends that are no ports or of the wrong side, and own ports that are joined; and after these connections whose ends are of the
/// right sides and of two types.
pub fn report_connections<V: View>(
    alloc: Global,
    view: &V,
    here: &Setting<'_>,
    connections: &[Connection],
    found: &mut Vec<Fault>,
) -> Result<(), AllocError>
    ensures { OnOk result (found.new.items ≡ found.old.items
        ++ flat_map (connection_faults (place_in here.now)) connections.now
        ++ flat_map (joined_types (V.sources view.now) (place_in here.now)) connections.now) }
{
    let mut known = BTreeMap::new(alloc);
    let mut of_types = Vec::new(alloc);
    for connection in connections {
        report_connection(
            alloc,
            view,
            here,
            connection,
            &mut known,
            found,
            &mut of_types,
        )?;
    }
    found.extend_from_slice(of_types.as_slice())?;
    Ok(())
}

/// What the ends of a connection name is looked up once for both.
fn report_connection<V: View>(
    alloc: Global,
    view: &V,
    here: &Setting<'_>,
    connection: &Connection,
    known: &mut Spellings,
    found: &mut Vec<Fault>,
    of_types: &mut Vec<Fault>,
) -> Result<(), AllocError>
    requires { AreSpellings (V.sources view.now) (get part_cmp known.old) }
    ensures kept { OnOk result (AreSpellings (V.sources view.now) (get part_cmp known.new)) }
    ensures reported { OnOk result
        (found.new.items
        ≡ found.old.items ++ connection_faults (place_in here.now) connection.now) }
    ensures typed { OnOk result (of_types.new.items ≡ of_types.old.items
        ++ joined_types (V.sources view.now) (place_in here.now) connection.now) }
{
    let source = target_at(here, connection.sort, &connection.source);
    let destination = target_at(here, connection.sort, &connection.destination);
    report_joined(here.kind, connection, &source, &destination, found)?;
    report_type(
        alloc,
        view,
        here,
        connection,
        &source,
        &destination,
        known,
        of_types,
    )
}

/// Reports a connection whose ends name these.
fn report_joined(
    kind: UnitKind,
    connection: &Connection,
    source: &Target<'_>,
    destination: &Target<'_>,
    found: &mut Vec<Fault>,
) -> Result<(), AllocError>
    ensures { OnOk result (found.new.items
        ≡ found.old.items ++ joined_faults kind connection.now source.now destination.now) }
{
    report_end(Position::Source, &connection.source, source, found)?;
    report_end(
        Position::Destination,
        &connection.destination,
        destination,
        found,
    )?;
    report_pass_through(kind, connection, source, destination, found)
}
