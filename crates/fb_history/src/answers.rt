//! The results of the five recorded calls.
ghost use Rattle.std.specs.Prelude.{◌≡◌};
ghost use Rattle.fb_history.specs.declared.answers.Refused.TheVariants.{Memory};
ghost use Rattle.fb_history.specs.declared.answers.CheckpointRefused.TheVariants as checkpoint;

use fb_jobs::Value;
use fb_text::Name;
use std::alloc::AllocError;
use std::sync::Arc;

/// The result of a commit: its number, or the first reason against it.
#[derive(Clone, Copy, PartialEq, Eq)]
pub enum Committed {
    /// The count of good commits, this one included, which is the revision of the units put.
    Done(u64),
    NoChange,
    /// More than sixteen.
    TooManyChanges,
    /// The unit of the first change whose unit an earlier change has.
    SameUnitTwice(Name),
    /// `current` is the unit's revision, 0 if it is absent.
    StaleBase { unit: Name, current: u64 },
    NoSuchUnit(Name),
    /// More units after all changes than the limits allow.
    TooManyUnits,
}

/// The result of a delivery: accepted, or the first reason against it.
#[derive(Clone, Copy, PartialEq, Eq)]
pub enum Delivered {
    Accepted,
    NoSuchKey,
    NotPending,
    /// The least name that was read and has changed.
    Stale(Name),
}

/// The result of a give-back: whether the key was handed out.
#[derive(Clone, Copy, PartialEq, Eq)]
pub enum GivenBack {
    Returned,
    NothingOut,
}

/// What is known of a key.
#[derive(Drop)]
pub enum Asked {
    Value(Arc<Value>),
    Pending,
    NoSuchKey,
}

/// Why a call is not recorded. It then changes nothing.
#[derive(Clone, Copy, PartialEq, Eq, Debug)]
pub enum Refused {
    HistoryFull,
    Memory,
}

impl From<AllocError> for Refused {
    ghost from_gives = { λ _ refused. refused ≡ Memory };

    fn from(_error: AllocError) -> Refused {
        Refused::Memory
    }
}

/// Why the present state is not made the start of a history. Nothing is changed then.
#[derive(Clone, Copy, PartialEq, Eq, Debug)]
pub enum CheckpointRefused {
    /// This number of units is present, more than the new limit.
    UnitsOver(u64),
    /// The last number and the new limit of the history together are no `u64`.
    NumbersOver,
    Memory,
}

impl From<AllocError> for CheckpointRefused {
    ghost from_gives = { λ _ refused. refused ≡ checkpoint.Memory };

    fn from(_error: AllocError) -> CheckpointRefused {
        CheckpointRefused::Memory
    }
}
