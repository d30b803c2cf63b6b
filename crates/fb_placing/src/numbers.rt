//! Numbers of items.
ghost use Rattle.std.specs.Prelude.{◌≡◌, ◌≤◌, ◌^◌, IfOk, OnErr};

use std::alloc::AllocError;

/// A number of 32 bits. It never refuses, since there are fewer items.
pub(crate) fn number(count: usize) -> Result<u32, AllocError>
    ensures same { IfOk result (λ n. n ≡ count) }
    ensures refused { OnErr result (2 ^ 32 ≤ count) }
{
    u32::try_from(count).map_err(|_| AllocError)
}
