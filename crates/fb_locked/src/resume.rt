//! A workbench that is put under a lock with the calls that it has.
ghost use Rattle.std.specs.Prelude.{◌≡◌, false, None, IfErr, IfOk, OnOk};
ghost use Rattle.fb_locked.specs.{Closing.{IsLeast}, Resuming.{is_left_out, IsResumeFault}, Seats.{AreSeatsAt}};

use crate::callers::left_out;
use crate::locked::{Locked, first_seats};
use crate::seat::Seat;
use fb_bench::Bench;
use std::alloc::Global;

/// Why a workbench is not put under a lock.
#[derive(Clone, Copy, PartialEq, Eq, Debug)]
pub enum ResumeError {
    /// The least caller that has made a call and would get no seat.
    CallersFew(u32),
    /// Each caller would get its seat, and there is no room for the seats.
    Memory,
}

/// What is handed back if a workbench is not put under a lock.
#[derive(Drop)]
pub struct NotResumed {
    pub fault: ResumeError,
    pub bench: Bench,
}

impl Locked {
    /// Puts a workbench under a lock with the calls that it has, and gives the seats of callers 1 to `callers`: each with the calls
    /// that its caller has made, and as if it had seen the last one of all.
    pub fn resume(
        alloc: Global,
        bench: Bench,
        callers: u32,
    ) -> Result<(Locked, Vec<Seat>), NotResumed>
        ensures locked { IfOk result
            (λ made. made.0 ≡ record { bench = bench; callers = callers; stopped = false }) }
        ensures seats { IfOk result (λ made. AreSeatsAt bench callers made.1.items) }
        ensures all_seated { OnOk result (IsLeast (is_left_out bench callers) None) }

        ensures fault { IfErr result (λ refused. IsResumeFault bench callers refused.fault) }
        ensures back { IfErr result (λ refused. refused.bench ≡ bench) }
    {
        if let Some(caller) = left_out(&bench, callers) {
            return Err(NotResumed {
                fault: ResumeError::CallersFew(caller),
                bench,
            });
        }
        match first_seats(alloc, &bench, callers) {
            Ok(seats) => {
                let locked = Locked::of(alloc, bench, callers);
                Ok((locked, seats))
            }
            Err(_) => Err(NotResumed {
                fault: ResumeError::Memory,
                bench,
            }),
        }
    }
}
