//! What admission does next, and what becomes of a connection after a look at it.
ghost use Rattle.std.specs.Prelude.{◌≡◌, ◌≢◌, ◌↔◌, ◌+◌, ◌*◌, ◌<◌, ◌≤◌, if◌then◌else◌, nat_lt};
ghost use Rattle.fb_admission.specs.declared.looks.Came.TheVariants as found;
ghost use Rattle.fb_admission.specs.declared.looks.Fate.TheVariants as fates;
ghost use Rattle.fb_admission.specs.declared.looks.Step.TheVariants as steps;

/// How many looks a connection has at least before it gives way to others.
const LOOKS: usize = 64;

/// What admission does next.
#[derive(Clone, Copy, PartialEq, Eq)]
pub(crate) enum Step {
    /// It ends: the last session has begun.
    End,
    /// It waits for a connection without end, since none is there.
    Wait,
    /// It looks at the connections that are there, and for further ones.
    Look,
}

/// What comes next while this number of sessions is left and this number of connections is there.
pub(crate) fn next_step(left: u64, arrivals: usize) -> Step
    ensures ends { (result ≡ steps.End) ↔ (left ≡ 0) }
    ensures waits { (result ≡ steps.Wait) ↔ (0 < left) × (arrivals ≡ 0) }
{
    if left == 0 {
        return Step::End;
    }
    if arrivals == 0 {
        Step::Wait
    } else {
        Step::Look
    }
}

/// How many connections come in between two looks if this number may be there at once, so that each has 64 looks at least.
pub(crate) fn at_once(most: usize) -> usize
    ensures some { 0 < result }
    ensures looks { 1 < result → result * 64 ≤ most }
    ensures all { most < (result + 1) * 64 }
{
    (most / LOOKS).max(1)
}

/// What a look at a connection finds.
#[derive(Clone, Copy, PartialEq, Eq)]
pub(crate) enum Came {
    /// Nothing has come since the last look.
    Nothing,
    /// Bytes have come.
    Bytes,
    /// Its input has ended.
    End,
    /// It can't be read, or there is no memory for what has come.
    Failure,
}

/// What becomes of a connection.
#[derive(Clone, Copy, PartialEq, Eq)]
pub(crate) enum Fate {
    /// It waits on.
    Waits,
    /// It is checked by what it has said.
    IsChecked,
    /// It is closed.
    Ends,
}

/// What becomes of a connection that has been there for `passed` milliseconds, of `timeout`, and may have said enough.
pub(crate) fn fate_of(came: Came, is_enough: bool, passed: u64, timeout: u64) -> Fate
    ensures failed { came ≡ found.Failure → result ≡ fates.Ends }
    ensures ended { came ≡ found.End → result ≡ fates.IsChecked }
    ensures open { came ≢ found.Failure → came ≢ found.End
        → result ≡ (if is_enough then fates.IsChecked
        else (if nat_lt passed timeout then fates.Waits else fates.Ends)) }
{
    match came {
        Came::Failure => Fate::Ends,
        Came::End => Fate::IsChecked,
        Came::Nothing | Came::Bytes => {
            if is_enough {
                Fate::IsChecked
            } else if passed < timeout {
                Fate::Waits
            } else {
                Fate::Ends
            }
        }
    }
}
