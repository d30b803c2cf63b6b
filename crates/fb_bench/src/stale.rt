//! What a result has read that is not so any longer.
ghost use Rattle.std.specs.Prelude.{◌≡◌};
ghost use Rattle.fb_entries.specs.{Jobs.Reads.{stale, is_current}, Jobs.Values.{all_seen, seen_of}};

use fb_entries::jobs::Read;
use fb_entries::library::{Library, Spot};
use fb_text::Name;

/// The first read that is not as the library has it.
pub(crate) fn first_stale(library: &Library, reads: &[Read]) -> Option<Name>
    ensures { result ≡ stale library.now (all_seen reads.now) }
{
    let mut spot = Spot::first();
    for read in reads {
        if !is_current(library, read, &mut spot) {
            return Some(read.name());
        }
    }
    None
}

/// Whether the unit is absent now as then, or present with the same revision and the same text.
fn is_current(library: &Library, read: &Read, spot: &mut Spot) -> bool
    ensures { result ≡ is_current library.now (seen_of read.now) }
{
    match (library.filed_near(&read.name(), spot), &read.source) {
        (None, None) => true,
        (Some(now), Some(then)) => now.revision() == read.revision
            && now.source().text() == then.text(),
        _ => false,
    }
}
