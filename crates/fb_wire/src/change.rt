//! The changes of a commit, with their names and texts read.
ghost use Rattle.std.specs.Prelude.{map};
ghost use Rattle.fb_messages.specs.{RequestView.{change_view}, Requests.{puts, removes}};
ghost use Rattle.fb_wire.specs.{Progress.{ChangeMade, ChangesMade}, Conversations.{edit_in, edits_in}};

use fb_library::Change;
use fb_library::parse::{ReadFault, Source};
use fb_messages::{AskedChange, Refusal};
use fb_text::Name;
use std::alloc::Global;

/// Why a change was not made.
#[derive(Clone, Copy)]
pub(crate) enum ChangeError {
    Refused(Refusal),
    Memory,
}

fn put_of(alloc: Global, unit: &str, base: u64, text: &str) -> Result<Change, ChangeError>
    ensures { ChangeMade (edit_in (puts unit.now base text.now)) result }
{
    let Ok(unit) = Name::read(unit) else {
        return Err(ChangeError::Refused(Refusal::BadName));
    };
    match Source::read(alloc, unit, text) {
        Ok(source) => Ok(Change::Put { base, source }),
        Err(ReadFault::TextTooLong) => Err(ChangeError::Refused(Refusal::TextTooLong)),
        Err(ReadFault::Memory) => Err(ChangeError::Memory),
    }
}

fn remove_of(unit: &str, base: u64) -> Result<Change, ChangeError>
    ensures { ChangeMade (edit_in (removes unit.now base)) result }
{
    match Name::read(unit) {
        Ok(unit) => Ok(Change::Remove { unit, base }),
        Err(_) => Err(ChangeError::Refused(Refusal::BadName)),
    }
}

fn change_of(alloc: Global, asked: &AskedChange<'_>) -> Result<Change, ChangeError>
    ensures { ChangeMade (edit_in (change_view asked.now)) result }
{
    match asked {
        AskedChange::Put { unit, base, text } => put_of(alloc, unit, *base, text),
        AskedChange::Remove { unit, base } => remove_of(unit, *base),
    }
}

/// The changes that are asked for, or the first refusal.
pub(crate) fn changes_of(
    alloc: Global,
    asked: &[AskedChange<'_>],
) -> Result<Vec<Change>, ChangeError>
    ensures { ChangesMade (edits_in (map change_view asked.now)) result }
{
    let mut changes = Vec::new(alloc);
    for one in asked {
        let change = match change_of(alloc, one) {
            Ok(change) => change,
            Err(fault) => return Err(fault),
        };
        match changes.push(change) {
            Ok(()) => {}
            Err(_) => return Err(ChangeError::Memory),
        }
    }
    Ok(changes)
}
