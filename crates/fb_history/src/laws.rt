//! Laws of a workbench: its entries follow its texts, whatever the calls are.
ghost use Rattle.std.specs.Prelude.{ℕ, List};
ghost use Rattle.fb_history.specs.{Machine.{State}, BenchView.{Origin, BenchView, IsOrigin, empty_origin}, Limits.{Bounds}};
ghost use Rattle.fb_history.specs.{Checkpoints.{checkpointed, IsUnseen, AreOne, NumbersGoOn}, Laws.{EntriesFollow, RefusalsStay, ReachAnywhere}};

/// The headline: after any list of commits, questions, takings, returns and worker results from any sessions and workers, stale, repeated and foreign results
/// included, every entry not pending equals what reading, checking, flattening and mapping the present texts from scratch gives; an entry is pending exactly
/// while no current result has come since the last commit that reaches it or made its key; and a refused call changes no text or entry, and no handed-out mark.
pub fn entries_follow_the_texts()
    ensures entries { (origin : Origin) → IsOrigin origin → EntriesFollow origin }
    ensures begins { (most_units : ℕ) → IsOrigin (empty_origin most_units) }
    ensures goes_on { (limits : Bounds) (bench : BenchView) → IsOrigin bench.origin → IsOrigin (checkpointed limits bench).origin }
    ensures refused { (state : State) → RefusalsStay state }
{}

/// Changed names reach a key in the texts before the change if and only if they reach it in those after it.
pub fn reach_before_and_after()
    ensures { (changed : List (List ℕ)) → ReachAnywhere changed }
{}

/// Later calls don't notice a checkpoint, except for its limits; two in a row do what the second one does; numbers and turns continue.
pub fn checkpoints_are_unseen()
    ensures unseen { (limits : Bounds) (bench : BenchView) → IsOrigin bench.origin → IsUnseen limits bench }
    ensures one { (first second : Bounds) (bench : BenchView) → IsOrigin bench.origin → AreOne first second bench }
    ensures numbers { (limits : Bounds) (bench : BenchView) → NumbersGoOn limits bench }
{}
