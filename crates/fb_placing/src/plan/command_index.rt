//! Commands by the numbers of what they are about.
ghost use Rattle.std.specs.Prelude.{◌≡◌, IfOk, map, slice_get};
ghost use Rattle.fb_network.specs.{Laid.{text_or_nothing}, Numbered.{link_numbered}};
ghost use Rattle.fb_placing.specs.{CommandIndexes.{command_text}, TextParts.{joined}};

use crate::plan::command::Command;
use fb_network::{Flat, Link, Path};
use std::alloc::{AllocError, Global};

/// A command, by the number of what it is about.
#[derive(Clone, Copy, Debug)]
pub(crate) enum CommandIndex {
    /// Makes a block.
    Create(u32),
    /// Sets a parameter.
    Write(u32),
    /// Makes a link.
    Connect(u32),
    /// Starts the resource.
    Start,
}

/// A resource, as `DEVICE.RESOURCE`, with its commands in their order.
#[derive(Debug, Drop)]
pub(crate) struct ResourceCommands {
    pub name: Path,
    pub items: Vec<CommandIndex>,
}

/// The command of that number. After the last one there is no text.
fn write_text(writes: &[Command], number: u32) -> &str
    ensures { result.now ≡ text_or_nothing (slice_get writes.now number) }
{
    match writes.get(number as usize) {
        Some(command) => command.as_str(),
        None => "",
    }
}

/// The parts of the text of a command.
pub(crate) fn parts_of<'a>(
    flat: &'a Flat,
    writes: &'a [Command],
    name: &'a Path,
    item: CommandIndex,
) -> [&'a str; 6]
    ensures { joined result ≡ command_text flat.now writes.now name.now item }
{
    match item {
        CommandIndex::Create(block) => {
            let (start, end) = flat.block_path(block);
            ["CREATE FB ", start, end, " ", flat.block_type(block), ""]
        }
        CommandIndex::Write(number) => [write_text(writes, number), "", "", "", "", ""],
        CommandIndex::Connect(link) => {
            let (start, end) = flat.link_from(link);
            let (to_start, to_end) = flat.link_to(link);
            ["CREATE CONNECTION ", start, end, " ", to_start, to_end]
        }
        CommandIndex::Start => ["START ", name.as_str(), "", "", "", ""],
    }
}

/// A link as a plain value.
fn plain_link(alloc: Global, flat: &Flat, number: u32) -> Result<Link, AllocError>
    ensures { IfOk result (λ link. link ≡ link_numbered flat.now number) }
{
    let (start, end) = flat.link_from(number);
    let from = Path::of_parts(alloc, start, end)?;
    let (start, end) = flat.link_to(number);
    let to = Path::of_parts(alloc, start, end)?;
    Ok(Link {
        sort: flat.link_sort(number),
        from,
        to,
    })
}

/// Links as plain values.
pub(crate) fn plain_links(
    alloc: Global,
    flat: &Flat,
    numbers: &[u32],
) -> Result<Vec<Link>, AllocError>
    ensures { IfOk result (λ links. links.items ≡ map (link_numbered flat.now) numbers.now) }
{
    let mut links = Vec::with_capacity(alloc, numbers.len())?;
    for number in numbers {
        links.push(plain_link(alloc, flat, *number)?)?;
    }
    Ok(links)
}
