//! Laws of the machine in other words.
ghost use Rattle.std.specs.Prelude.{List};
ghost use Rattle.fb_jobs.specs.declared.keys.key.Key.{Key};
ghost use Rattle.fb_history.specs.{Limits.{Bounds}, Machine.{State, Call}, BenchView.{BenchView, IsOrigin}};
ghost use Rattle.fb_laws.specs.DueByPlaces.{IsDueByPlaces, DueGoesOn};

/// A key waits if and only if a place in the list of calls marks it and none after that marks or settles it, or if it was pending
/// at the beginning and no place marks or settles it; and it still waits after a checkpoint.
#[tactic(auto, using(crate::proofs::ByPlaces::due_by_places, crate::proofs::ByPlaces::due_goes_on))]
pub fn keys_wait_by_places()
    ensures places { (state : State) (calls : List Call) (key : Key) → IsDueByPlaces state calls key }
    ensures goes_on { (limits : Bounds) (bench : BenchView) → IsOrigin bench.origin → DueGoesOn limits bench }
{}
