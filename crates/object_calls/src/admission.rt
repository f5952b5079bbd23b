//! Which calls and fetches are let through.
ghost use Rattle.std.specs.Prelude.{◌≡◌, ◌≤◌, ◌<◌, IfOk, IfErr};
ghost use Rattle.timeline.specs.Limits.{most_depth, most_calls};
ghost use Rattle.timeline.specs.Steps.{refusal};
ghost use Rattle.object_calls.specs.Admission.{IsRefused, thrown_for};

/// The greatest depth of a call. A request has depth 0, a call from a task one more than its task.
pub const MOST_DEPTH: u32 = 16;

/// The most calls and fetches of one task that are let through.
pub const MOST_CALLS: u32 = 1_000;

/// Why a call or a fetch isn't let through. Either is thrown where it was made.
#[derive(Clone, Copy, Debug, Drop, PartialEq, Eq)]
pub enum CallFault {
    /// The call is deeper than [`MOST_DEPTH`].
    Depth,
    /// The task has made [`MOST_CALLS`] calls and fetches.
    TooManyCalls,
}

/// Whether a call of this depth is let through, where so many calls and fetches of the task were. A fetch has depth 0.
pub fn admit(depth: u32, made: u32) -> Result<(), CallFault>
    ensures within { IfOk result (λ _. (depth ≤ most_depth) × (made < most_calls)) }
    ensures fault { IfErr result (λ fault. IsRefused fault depth made) }
    ensures refusal { refusal depth made ≡ thrown_for result }
{
    if depth > MOST_DEPTH {
        Err(CallFault::Depth)
    } else if made >= MOST_CALLS {
        Err(CallFault::TooManyCalls)
    } else {
        Ok(())
    }
}
