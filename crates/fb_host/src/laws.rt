//! Laws of the reads of sessions.
ghost use Rattle.std.specs.Prelude.{ℕ, ◌≤◌, All, List};
ghost use Rattle.fb_locked.specs.{History.Reads.{Showing}, History.declared.reading.Identity.{Identity}, History.declared.reading.Reading.{Reading}, Reads.{IsReadAt}, Seats.{SeatView, ReceiptView}};
ghost use Rattle.fb_host.specs.HostSessions.{IsHostRun};

/// A later read of a session shows no earlier moment, and the calls that the session made between the two are before it.
pub fn reads_go_on()
    ensures { (workbench : Identity) (seat mid after later : SeatView) (first second : Reading) (shown again : Showing) (receipts : List ReceiptView)
        → IsReadAt workbench seat first shown mid → IsHostRun mid receipts after → IsReadAt workbench after second again later
        → (mid.seen ≤ later.seen) × All (λ receipt. receipt.number ≤ later.seen) receipts }
{}
