//! The paths of mappings.
ghost use Rattle.std.specs.{Prelude.{◌≡◌, ◌-◌, IfOk, length, map, slice_get}, Option.{option_map_or}};

use crate::paths::Placed;
use fb_tree::Mapping;
use fb_tree::text::{Name, NameUse, Span};
use std::alloc::{AllocError, Global};

impl Placed for Mapping {
    ghost use Rattle.fb_netcheck.specs.Paths.{path_of_names};

    ghost path_of = { λ m. path_of_names m.path.items };

    fn path(&self, alloc: Global) -> Result<Vec<Name>, AllocError> {
        names_of(alloc, self.path.as_slice())
    }

    fn place(&self) -> Span {
        let names = self.path.as_slice();
        Span {
            start: start_of(names),
            end: end_of(names),
        }
    }
}

fn names_of(alloc: Global, names: &[NameUse]) -> Result<Vec<Name>, AllocError>
    ensures { IfOk result (λ path. path.items ≡ map (λ n. n.name) names.now) }
{
    names.iter().map(|name| name.name.name()).collect(alloc)
}

/// Where the first name begins.
fn start_of(names: &[NameUse]) -> usize
    ensures { result ≡ option_map_or (λ n. n.span.start) (slice_get names.now 0) 0 }
{
    match names.first() {
        Some(name) => name.span.start() as usize,
        None => 0,
    }
}

/// Where the last name ends.
fn end_of(names: &[NameUse]) -> usize
    ensures { result ≡ option_map_or
        (λ n. n.span.end) (slice_get names.now (length names.now - 1)) 0 }
{
    match names.last() {
        Some(name) => name.span.end() as usize,
        None => 0,
    }
}
