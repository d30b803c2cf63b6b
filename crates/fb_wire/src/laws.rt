//! What decides a conversation.
ghost use Rattle.std.specs.Prelude.{◌≡◌, ℕ, Bool, List, false};
ghost use Rattle.fb_bench.specs.{Calls.{Exchange}, Solo.{IsStep}, History.BenchView.{BenchView}};
ghost use Rattle.fb_wire.specs.{Ends.{AnsweredAll, IsBetweenLines, OutputAt}, Conversations.{Runs, answers_of}, declared.end.RunEnd.{RunEnd}};

/// The bytes and the answers decide which calls, checkpoints and reads are made and what is written, at each end that comes between two lines.
pub fn one_conversation()
    ensures { (has_reads : Bool) (stop : RunEnd) (bytes : List ℕ) (pairs others : List Exchange) (out written : List ℕ)
        → IsBetweenLines stop → OutputAt has_reads stop bytes pairs out → OutputAt has_reads stop bytes others written
        → answers_of pairs ≡ answers_of others → (pairs ≡ others) × (out ≡ written) }
{}

/// The bytes and the workbench decide which calls and checkpoints are made, what is written and how the workbench is then.
pub fn one_script()
    ensures { (caller : ℕ) (bytes : List ℕ) (pairs others : List Exchange) (out written : List ℕ) (start left right : BenchView)
        → AnsweredAll false bytes pairs out → Runs (IsStep caller) start pairs left
        → AnsweredAll false bytes others written → Runs (IsStep caller) start others right
        → (pairs ≡ others) × (out ≡ written) × (left ≡ right) }
{}
