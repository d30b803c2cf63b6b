//! Why reading stops.

ghost use Rattle.fb_grammar.specs.declared.stop.Stop.TheVariants.{Memory};
ghost use Rattle.std.specs.Prelude.{◌≡◌};

use std::alloc::{AllocError, AllocFailed};

/// Memory ran out, or the tokens from the next one on don't continue as the grammar requires.
#[derive(Clone, Copy, Debug)]
pub enum Stop {
    Memory,
    Broken,
}

impl From<AllocError> for Stop {
    ghost from_gives = { λ _ e. e ≡ Memory };

    fn from(_e: AllocError) -> Self {
        Stop::Memory
    }
}

impl<T: Drop> From<AllocFailed<T>> for Stop {
    ghost from_gives = { λ _ e. e ≡ Memory };

    fn from(_e: AllocFailed<T>) -> Self {
        Stop::Memory
    }
}
