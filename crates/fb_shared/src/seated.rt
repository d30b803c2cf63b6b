//! A shared workbench as the desk of one seat.
ghost use Rattle.std.specs.Prelude.{◌≡◌};
ghost use Rattle.fb_shared.specs.Seated.{desk_refusal};

use crate::shared::Shared;
use fb_locked::bench::{
    Answered, Desk, DeskCheckpointError, DeskError, Limits, Reading, Request, Showing,
};
use fb_locked::{Receipt, Seat, SharedRefused};
use std::alloc::AllocError;
use std::marker::Model;
use std::sync::Wait;

/// A shared workbench as the desk of one seat. Each call that is answered adds its receipt after those that there are.
#[derive(Drop)]
pub struct Seated<'a, R: Wait> {
    pub rt: &'a R,
    pub shared: &'a Shared,
    pub seat: Seat,
    pub receipts: Vec<Receipt>,
}

impl<'a, R: Wait> Model for Seated<'a, R> {
    ghost use Rattle.fb_shared.specs.Seated.{SeatedView};

    ghost Value = { SeatedView };

    ghost view = { λ it. record { seat = it.seat; receipts = it.receipts.items } };
}

/// The name that a desk gives a cause.
fn named(refused: SharedRefused) -> DeskError
    ensures { result ≡ desk_refusal refused }
{
    match refused {
        SharedRefused::SeatDiffers { .. } | SharedRefused::Behind { .. } => DeskError::Behind,
        SharedRefused::HistoryFull => DeskError::HistoryFull,
        SharedRefused::Memory => DeskError::Memory,
    }
}

impl<R: Wait> Desk for Seated<'_, R> {
    ghost use Rattle.std.specs.Prelude.{Err, IfOk, false};
    ghost use Rattle.fb_locked.specs.Bench.{Calls.{Fits, NoRead, Serves, ServesCheckpoint}, Requests.{call_for, reply_in}};
    ghost use Rattle.fb_locked.specs.Refusals.{refusal_of};
    ghost use Rattle.fb_shared.specs.{Seated.{IsCallSeated, IsCheckpointSeated, RefusedAtDesk}, UnderLock.{UnderLock}};

    ghost step = { IsCallSeated };

    ghost checkpoint_step = { IsCheckpointSeated };

    ghost read_step = { NoRead };

    ghost has_reads = { false };

    fn answers_reads(&self) -> bool {
        false
    }

    /// It answers no reads.
    fn read(&mut self, _reading: &Reading, _wait: u64) -> Result<Option<Showing>, AllocError> {
        Err(AllocError)
    }

    fn perform(&mut self, request: &Request<'_>) -> Result<Answered, DeskError>
        ensures fits { IfOk result (λ answer. Fits (call_for request.now) (reply_in answer)) }
        ensures step { Serves IsCallSeated self.old (call_for request.now) reply_in
            result self.new }
        ensures refused { UnderLock (λ locked. RefusedAtDesk (refusal_of locked self.old.seat)
            result) }
    {
        let shared = self.shared;
        match shared.perform_into(self.rt, &mut self.seat, &mut self.receipts, request) {
            Ok(answer) => Ok(answer),
            Err(refused) => Err(named(refused)),
        }
    }

    /// A seat is not alone at its workbench: others may hold receipts of the records that would go at a checkpoint.
    fn checkpoint(&mut self, _limits: Limits) -> Result<u64, DeskCheckpointError>
        ensures step { ServesCheckpoint IsCheckpointSeated self.old _limits result self.new }
        ensures alone { result ≡ Err DeskCheckpointError.NotAlone }
    {
        Err(DeskCheckpointError::NotAlone)
    }
}
