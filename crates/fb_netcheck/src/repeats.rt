//! Ends of connections that are ends of an earlier one.
ghost use Rattle.std.specs.{Prelude.{◌≡◌, ◌++◌, IfOk, OnOk}, List.{list_any}};
ghost use Rattle.fb_netcheck.specs.{Ends.{last_name}, Repeats.{all_adapter_ends, data_destinations, end_path, path_named, second_adapters, second_sources}};
ghost use Rattle.fb_netcheck.specs.{Paths.{same_path}, Again.{brings, same_port, source_faults}, Iface.Names.{is_same}};

use crate::paths::{Placed, report_repeated};
use crate::sides::fault_at;
use fb_iface::{Code, Fault};
use fb_tree::text::{Name, NameUse, Span, WideUse};
use fb_tree::{Connection, End, Sort};
use std::alloc::{AllocError, Global};
use std::marker::Model;

/// Up to this number of connections are compared with each other; of more, the ends are kept in a set.
const FEW: usize = 16;

/// A copy of an end. A contract sees it as the end.
#[derive(Clone, Copy, Debug)]
struct WideEnd {
    name: WideUse,
    port: Option<WideUse>,
}

impl Model for WideEnd {
    ghost use Rattle.fb_tree.specs.declared.network.End.{End as Copied};

    ghost Value = { Copied };

    ghost view = { λ e. record { name = e.name; port = e.port } };

    ghost inverse = { λ e. record { name = e.name; port = e.port } };
}

impl WideEnd {
    fn of(end: &End) -> WideEnd
        ensures { result ≡ end.now }
    {
        let port = match &end.port {
            Some(port) => Some(WideUse::of(port)),
            None => None,
        };
        WideEnd {
            name: WideUse::of(&end.name),
            port,
        }
    }
}

impl Placed for WideEnd {
    ghost use Rattle.fb_netcheck.specs.Repeats.{end_path};

    ghost path_of = { end_path };

    fn path(&self, alloc: Global) -> Result<Vec<Name>, AllocError> {
        path_by_names(alloc, self.name, self.port)
    }

    fn place(&self) -> Span {
        span_by_names(self.name, self.port)
    }
}

fn path_by_names(
    alloc: Global,
    name: WideUse,
    port: Option<WideUse>,
) -> Result<Vec<Name>, AllocError>
    ensures { IfOk result (λ path. path.items ≡ path_named name port) }
{
    let mut path = Vec::with_capacity(alloc, 2)?;
    path.push(*name.name())?;
    if let Some(port) = port {
        path.push(*port.name())?;
    }
    Ok(path)
}

fn span_by_names(name: WideUse, port: Option<WideUse>) -> Span
    ensures { result ≡ record { start = name.span.start; end = (last_name name port).span.end } }
{
    match port {
        Some(port) => name.place().through(port.place()).span(),
        None => name.place().span(),
    }
}

/// Reports the destinations of data connections that an earlier one has.
pub fn report_second_sources(
    alloc: Global,
    connections: &[Connection],
    found: &mut Vec<Fault>,
) -> Result<(), AllocError>
    ensures { OnOk result (found.new.items ≡ found.old.items ++ second_sources connections.now) }
{
    if connections.len() <= FEW {
        return report_sources(connections, found);
    }
    let ends = destinations_of_data(alloc, connections)?;
    report_repeated(alloc, Code::SecondSource, ends.as_slice(), found)
}

/// Reports them by comparing each destination with those before it.
fn report_sources(connections: &[Connection], found: &mut Vec<Fault>) -> Result<(), AllocError>
    ensures { OnOk result (found.new.items ≡ found.old.items ++ second_sources connections.now) }
{
    for i in 0..connections.len() {
        report_source(&connections[..i], &connections[i], found)?;
    }
    Ok(())
}

/// Reports the destination of a data connection if it has a source in those before.
fn report_source(
    before: &[Connection],
    connection: &Connection,
    found: &mut Vec<Fault>,
) -> Result<(), AllocError>
    ensures { OnOk result
        (found.new.items ≡ found.old.items ++ source_faults before.now connection.now) }
{
    match connection.sort {
        Sort::Data => {
            if has_source(before, &connection.destination) {
                found.push(fault_at(Code::SecondSource, &connection.destination))?;
            }
        }
        Sort::Event | Sort::Adapter => {}
    }
    Ok(())
}

/// Whether one of the connections brings data to an end.
fn has_source(connections: &[Connection], end: &End) -> bool
    ensures { result ≡ list_any (brings (end_path end.now).names) connections.now }
{
    connections
        .iter()
        .any(|connection| brings_data(connection, end))
}

/// Whether a connection brings data to an end.
fn brings_data(connection: &Connection, end: &End) -> bool
    ensures { result ≡ brings (end_path end.now).names connection.now }
{
    match connection.sort {
        Sort::Data => is_same_end(&connection.destination, end),
        Sort::Event | Sort::Adapter => false,
    }
}

/// Whether two ends have the same names.
fn is_same_end(end: &End, other: &End) -> bool
    ensures { result ≡ same_path (end_path end.now).names (end_path other.now).names }
{
    is_same_name(&end.name, &other.name) && is_same_port(&end.port, &other.port)
}

fn is_same_port(port: &Option<NameUse>, other: &Option<NameUse>) -> bool
    ensures { result ≡ same_port port.now other.now }
{
    match (port, other) {
        (Some(port), Some(other)) => is_same_name(port, other),
        (None, None) => true,
        _ => false,
    }
}

/// Whether two names are the same.
pub fn is_same_name(name: &NameUse, other: &NameUse) -> bool
    ensures { result ≡ is_same name.now.name other.now.name }
{
    name.name.as_str() == other.name.as_str()
}

fn destinations_of_data(
    alloc: Global,
    connections: &[Connection],
) -> Result<Vec<WideEnd>, AllocError>
    ensures { IfOk result (λ ends. ends.items ≡ data_destinations connections.now) }
{
    let mut ends = Vec::new(alloc);
    for connection in connections {
        match connection.sort {
            Sort::Data => ends.push(WideEnd::of(&connection.destination))?,
            Sort::Event | Sort::Adapter => {}
        }
    }
    Ok(ends)
}

/// Reports the ends of adapter connections that are connected already.
pub fn report_second_adapters(
    alloc: Global,
    connections: &[Connection],
    found: &mut Vec<Fault>,
) -> Result<(), AllocError>
    ensures { OnOk result (found.new.items ≡ found.old.items ++ second_adapters connections.now) }
{
    let ends = ends_of_adapters(alloc, connections)?;
    report_repeated(alloc, Code::SecondAdapter, ends.as_slice(), found)
}

fn ends_of_adapters(alloc: Global, connections: &[Connection]) -> Result<Vec<WideEnd>, AllocError>
    ensures { IfOk result (λ ends. ends.items ≡ all_adapter_ends connections.now) }
{
    let mut ends = Vec::new(alloc);
    for connection in connections {
        match connection.sort {
            Sort::Adapter => {
                ends.push(WideEnd::of(&connection.source))?;
                ends.push(WideEnd::of(&connection.destination))?;
            }
            Sort::Event | Sort::Data => {}
        }
    }
    Ok(ends)
}
