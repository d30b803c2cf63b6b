//! Nets that were computed on the way to another value.
ghost use Rattle.std.specs.Prelude.{◌≡◌, IfOk, map};
ghost use Rattle.fb_bench.specs.Founds.{KeepsAgreement, said};

use fb_entries::Entries;
use fb_entries::jobs::{Hint, Key, Kind};
use std::alloc::{AllocError, Global};

/// Shares of the nets.
pub(crate) fn shares_of(alloc: Global, found: &[Hint]) -> Result<Vec<Hint>, AllocError>
    ensures { IfOk result (λ shares. map said shares.items ≡ map said found.now) }
{
    let mut shares = Vec::with_capacity(alloc, found.len())?;
    for hint in found {
        shares.push(Hint {
            unit: hint.unit,
            value: hint.value.clone()?,
        })?;
    }
    Ok(shares)
}

/// Keeps each for its unit's key, if that is pending.
pub(crate) fn keep_all(entries: &mut Entries, found: Vec<Hint>)
    ensures { KeepsAgreement found.items entries.old entries.new }
{
    for it in found {
        let key = Key {
            kind: Kind::Net,
            unit: it.unit,
        };
        entries.store_precomputed(&key, it.value);
    }
}
