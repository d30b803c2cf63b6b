//! Laws of histories, of the receipts of their calls, and of seats.
ghost use Rattle.std.specs.Prelude.{◌≡◌, ℕ, List, Some, slice_get};
ghost use Rattle.fb_locked.specs.{History.BenchView.{BenchView, AreTurns}, Closing.{AreReceiptsRight, NumbersRise, EnoughShowAll}, Resuming.{IsUpToDate}};
ghost use Rattle.fb_locked.specs.Seats.{AreSeatsAt, ReceiptView, LockedView, SeatView};

/// In a history, whose turns count their callers' calls, numbers rise with the turns of a caller.
pub fn numbers_rise_with_turns()
    ensures { (bench : BenchView) → AreTurns bench → NumbersRise bench }
{}

/// A caller with one receipt for each of its records since the start has shown them all: each of these records has a receipt.
pub fn all_calls_are_shown()
    ensures { (bench : BenchView) (receipts : List ReceiptView) → AreReceiptsRight bench receipts
        → EnoughShowAll bench receipts }
{}

/// The seats that a workbench is resumed with fit it: only a full history or lack of memory can refuse the next call with one of them.
pub fn resumed_seats_fit()
    ensures { (locked : LockedView) (n : ℕ) (seats : List SeatView) → AreSeatsAt locked.bench n seats
        → (k : ℕ) (seat : SeatView) → slice_get seats k ≡ Some seat → IsUpToDate locked seat }
{}
