//! Places: paths by numbers.
ghost use Rattle.std.specs.{Prelude.{◌≡◌, ◌≤◌, ◌^◌, IfOk, OnErr, OnOk, string_bytes}, Ordering.{eq_by_cmp}};
ghost use Rattle.fb_tree.specs.Text.Order.{name_cmp};
ghost use Rattle.fb_network.specs.Laid.{path_at, place_moved};

use crate::paths::compare::{compare_parts, is_same_text};
use crate::paths::path::Path;
use crate::paths::prefixes::Prefixes;
use std::alloc::{AllocError, Global};
use std::cmp::Ordering;

/// A path by the number of its prefix, and by that of the text after it among the prefix's ends.
#[derive(Clone, Copy, Debug)]
pub struct Place {
    pub prefix: u32,
    pub end: u32,
}

/// The path at a place.
pub fn path_of(alloc: Global, prefixes: &Prefixes, place: &Place) -> Result<Path, AllocError>
    ensures { IfOk result (λ path. path ≡ path_at prefixes.now place.now) }
{
    let (start, end) = prefixes.parts(place);
    Path::of_parts(alloc, start, end)
}

/// Writes the path at a place over a text.
pub fn put_path(prefixes: &Prefixes, place: &Place, text: &mut String) -> Result<(), AllocError>
    ensures { OnOk result (string_bytes text.new ≡ path_at prefixes.now place.now) }
{
    let (start, end) = prefixes.parts(place);
    text.clear();
    text.push_str(start)?;
    text.push_str(end)
}

/// The order of the paths at two places. Those of one prefix differ only in their ends.
pub fn compare_places(prefixes: &Prefixes, a: &Place, b: &Place) -> Ordering
    ensures { result ≡ name_cmp (path_at prefixes.now a.now) (path_at prefixes.now b.now) }
{
    if a.prefix == b.prefix {
        return prefixes.compare_ends(a.prefix, a.end, b.end);
    }
    let (start, end) = prefixes.parts(a);
    let (other_start, other_end) = prefixes.parts(b);
    compare_parts(start, end, other_start, other_end)
}

/// Whether the paths at two places, each among its own prefixes, are equal.
pub fn is_same_place(prefixes: &Prefixes, a: &Place, others: &Prefixes, b: &Place) -> bool
    ensures { result ≡ eq_by_cmp name_cmp (path_at prefixes.now a.now) (path_at others.now b.now) }
{
    let (start, end) = prefixes.parts(a);
    let (other_start, other_end) = others.parts(b);
    is_same_text(start, end, other_start, other_end)
}

/// The place with `by` added to the number of its prefix.
pub fn moved(place: &Place, by: u32) -> Result<Place, AllocError>
    ensures { IfOk result (λ there. there ≡ place_moved by place.now) }
{
    match place.prefix.checked_add(by) {
        Some(prefix) => Ok(Place {
            prefix,
            end: place.end,
        }),
        None => Err(AllocError),
    }
}

/// A number of 32 bits. A larger one is refused, as if memory were short.
pub fn number(count: usize) -> Result<u32, AllocError>
    ensures same { IfOk result (λ n. n ≡ count) }
    ensures refused { OnErr result (2 ^ 32 ≤ count) }
{
    u32::try_from(count).map_err(|_| AllocError)
}
