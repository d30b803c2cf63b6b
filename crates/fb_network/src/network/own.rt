//! The texts of a network's own: names of instances, and ends of connections.
ghost use Rattle.std.specs.Prelude.{◌≡◌, ◌++◌, IfOk, OnOk, map};
ghost use Rattle.fb_network.specs.Standing.{end_text, own_texts};

use crate::network::{Connection, End, Instance, Network};
use crate::paths::path::Path;
use std::alloc::{AllocError, Global};

fn end_path(alloc: Global, end: &End) -> Result<Path, AllocError>
    ensures { IfOk result (λ path. path ≡ end_text end.now) }
{
    match end {
        End::Own(port) => Path::of(alloc, port),
        End::Of(name, port) => Path::of_two(alloc, name, port),
    }
}

fn push_names(
    alloc: Global,
    texts: &mut Vec<Path>,
    instances: &[Instance],
) -> Result<(), AllocError>
    ensures { OnOk result (texts.new.items ≡ texts.old.items ++ map (λ i. i.name) instances.now) }
{
    for instance in instances {
        texts.push(Path::of(alloc, &instance.name)?)?;
    }
    Ok(())
}

fn push_sources(
    alloc: Global,
    texts: &mut Vec<Path>,
    connections: &[Connection],
) -> Result<(), AllocError>
    ensures { OnOk result
        (texts.new.items ≡ texts.old.items ++ map (λ c. end_text c.source) connections.now) }
{
    for connection in connections {
        texts.push(end_path(alloc, &connection.source)?)?;
    }
    Ok(())
}

fn push_destinations(
    alloc: Global,
    texts: &mut Vec<Path>,
    connections: &[Connection],
) -> Result<(), AllocError>
    ensures { OnOk result
        (texts.new.items ≡ texts.old.items ++ map (λ c. end_text c.destination) connections.now) }
{
    for connection in connections {
        texts.push(end_path(alloc, &connection.destination)?)?;
    }
    Ok(())
}

/// The names of the instances, then the sources and then the destinations of the connections.
pub fn texts_of(alloc: Global, network: &Network) -> Result<Vec<Path>, AllocError>
    ensures { IfOk result (λ texts. texts.items ≡ own_texts network.now) }
{
    let mut texts = Vec::new(alloc);
    push_names(alloc, &mut texts, network.instances())?;
    push_sources(alloc, &mut texts, network.connections())?;
    push_destinations(alloc, &mut texts, network.connections())?;
    texts.shrink_to_fit();
    Ok(texts)
}
