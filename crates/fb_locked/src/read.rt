//! Reads with a seat.
ghost use Rattle.std.specs.Prelude.{◌≡◌, ◌↔◌, IsTrue};
ghost use Rattle.fb_locked.specs.{Book.{SeatFits}, Reads.{IsShown, Reads, ReadsAt, Snapshots, SnapshotsAt}};

use crate::locked::Locked;
use crate::seat::Seat;
use fb_bench::{Identity, Reader, Reading, Showing, Snapshot};
use std::alloc::{AllocError, Global};

/// What is shared of the workbench under the lock for one seat, which shows it when the lock is free again.
#[derive(Drop)]
pub struct SeatSnapshot {
    alloc: Global,
    snapshot: Snapshot,
    /// The number of the last call then.
    last_number: u64,
}

impl SeatSnapshot {
    /// What the read shows. The seat has then seen the last call.
    pub fn showing(self, seat: &mut Seat) -> Result<Showing, AllocError>
        ensures { IsShown self seat.old result seat.new }
    {
        let showing = self.snapshot.showing(self.alloc)?;
        seat.seen = self.last_number;
        Ok(showing)
    }
}

impl Locked {
    /// Reads, without a record, and the seat has then seen the last call. None if the history is not one that the seat has seen.
    pub fn read(
        &self,
        seat: &mut Seat,
        workbench: Identity,
        reading: &Reading,
    ) -> Result<Option<Showing>, AllocError>
        ensures reads { Reads self.now workbench seat.old reading.now result seat.new }
        ensures at { ReadsAt workbench seat.old reading.now result seat.new }
    {
        match self.snapshot(seat, workbench, reading)? {
            None => Ok(None),
            Some(snapshot) => Ok(Some(snapshot.showing(seat)?)),
        }
    }

    /// As `read`, with what takes long left for later. This takes the same short time for each workbench.
    pub fn snapshot(
        &self,
        seat: &Seat,
        workbench: Identity,
        reading: &Reading,
    ) -> Result<Option<SeatSnapshot>, AllocError>
        ensures reads { Snapshots self.now workbench seat.now reading.now result }
        ensures at { SnapshotsAt workbench seat.now reading.now result }
    {
        // For the proof: each recorded answer is the machine's, from a start that a workbench may have.
        self.bench.start();
        self.bench.len();
        if !self.fits(seat) {
            return Ok(None);
        }
        let reader = Reader {
            session: seat.caller(),
            workbench,
        };
        let snapshot = self.bench.snapshot(reader, reading)?;
        Ok(Some(SeatSnapshot {
            alloc: self.alloc,
            snapshot,
            last_number: self.bench.last_number(),
        }))
    }

    /// Whether the history is one that the seat may have seen.
    pub fn fits(&self, seat: &Seat) -> bool
        ensures { IsTrue result ↔ SeatFits self.now seat.now }
    {
        let turns = seat.turns();
        let book = self.book(seat.caller());
        if book != turns {
            return false;
        }
        seat.seen() <= self.bench.last_number()
    }
}
