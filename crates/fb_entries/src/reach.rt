//! The index of what each unit mentions, after changes.
ghost use Rattle.std.specs.Prelude.{◌≡◌, None, IfOk, OnOk};
ghost use Rattle.fb_jobs.specs.Reach.{first_repeated, AgreeApartFrom};
ghost use Rattle.fb_index.specs.{Indexed.{IsIndexedAs}, Library.Texts.{sources_of}, Library.View.{mentioned_at}};
ghost use Rattle.fb_tree.specs.Mentions.{mentioned, nothing_mentioned};
ghost use Rattle.fb_entries.specs.Indexed.{IsIndexOf, IsUpdated};

use fb_index::Index;
use fb_index::library::{Library, mentions_by_name};
use fb_text::Name;
use fb_tree::Mentions;
use std::alloc::{AllocError, Global};

/// The index of the library after, which has other texts than the one before only under these names.
pub(crate) fn reindexed(
    alloc: Global,
    index: &Index,
    before: &Library,
    after: &Library,
    units: &[Name],
) -> Result<Index, AllocError>
    requires known { IsIndexOf before.now index.now }
    requires once { first_repeated units.now ≡ None }
    requires others { AgreeApartFrom units.now before.now after.now }
    ensures { IfOk result (IsIndexOf after.now) }
{
    let mut index = index.copy()?;
    let none = Mentions {
        parts: Vec::new(alloc),
        of_values: Vec::new(alloc),
        is_structure: false,
    };
    for unit in units {
        update(
            alloc,
            &mut index,
            unit,
            mentions_or(before, unit, &none),
            after,
        )?;
    }
    Ok(index)
}

/// Indexes the unit as in the library after, or takes it out if it is not there; `old` is what it mentioned before.
fn update(
    alloc: Global,
    index: &mut Index,
    unit: &Name,
    old: &Mentions,
    after: &Library,
) -> Result<(), AllocError>
    requires known { IsIndexedAs index.old unit.now (mentioned old.now) }
    ensures { OnOk result (IsUpdated after.now unit.now index.old index.new) }
{
    match after.source(unit) {
        Some(source) => index.replace(alloc, *unit, old, source.mentions()),
        None => index.remove(alloc, unit, old),
    }
}

/// What the unit mentions; nothing if it is absent.
fn mentions_or<'a>(library: &'a Library, unit: &Name, none: &'a Mentions) -> &'a Mentions
    requires nothing { mentioned none.now ≡ nothing_mentioned }
    ensures { mentioned result.now ≡ mentioned_at (sources_of library.now) unit.now }
{
    match mentions_by_name(library, unit) {
        Some(mentions) => mentions,
        None => none,
    }
}
