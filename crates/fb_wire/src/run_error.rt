//! Why a run fails.
//! The texts are here because the crates of the program and of both servers print them.
ghost use Rattle.std.specs.Prelude.{◌≡◌};
ghost use Rattle.fb_wire.specs.RunErrors.{error_of};

use crate::end::RunEnd;
use thiserror::Error;

/// Why a run did not reach the end of its input.
#[derive(Clone, Copy, Debug, PartialEq, Eq, Error)]
pub enum RunError {
    #[error("line too long")]
    LineTooLong,
    #[error("read failed")]
    ReadFailed,
    #[error("write failed")]
    WriteFailed,
    #[error("too many reads")]
    TurnsOver,
    #[error("out of memory")]
    Memory,
}

/// The fault of an end, or none if the input ended.
pub fn error_of(end: RunEnd) -> Option<RunError>
    ensures { result ≡ error_of end }
{
    match end {
        RunEnd::End => None,
        RunEnd::LineTooLong => Some(RunError::LineTooLong),
        RunEnd::ReadFailed => Some(RunError::ReadFailed),
        RunEnd::WriteFailed => Some(RunError::WriteFailed),
        RunEnd::TurnsOver => Some(RunError::TurnsOver),
        RunEnd::Memory => Some(RunError::Memory),
    }
}
