//! What a request of a checkpoint may ask for.
ghost use Rattle.std.specs.{Prelude.{ℕ}, Option.{SomeIff}};
ghost use Rattle.fb_history.specs.Limits.{AreLimits};
ghost use Rattle.fb_messages.specs.Requests.{limits_of};

/// Two numbers are the limits of a checkpoint if and only if a workbench may have these limits.
#[tactic(auto, using(std::proofs::lemmas::Bool::Decides::nat_tests))]
pub fn limits_are_read()
    ensures { (units history : ℕ)
        → SomeIff (limits_of units history) (AreLimits units history)
        (record { units = units; history = history }) }
{}
