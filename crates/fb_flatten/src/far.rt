//! What a unit rests on, by the function of the specs.
ghost use Rattle.std.specs.Prelude.{◌≡◌, IfOk};
ghost use Rattle.fb_flatten.specs.Far.{far_of};

use fb_types::library::{View, far};
use fb_types::text::Name;
use std::alloc::{AllocError, Global};

/// All names that the unit rests on, itself and absent ones included, in order, each once.
pub fn all_far<V: View>(alloc: Global, view: &V, unit: Name) -> Result<Vec<Name>, AllocError>
    ensures { IfOk result (λ names. names.items ≡ far_of (V.sources view.now) unit) }
{
    far(alloc, view, unit)
}
