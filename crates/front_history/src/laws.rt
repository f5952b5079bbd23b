//! Laws of a front that is paired with its back. A call costs nothing and tells its caller the law.
ghost use Rattle.front_history.specs.Turns.{TurnSteps, FrontBegins, BackStepsKeep, HalvesAreSaid, HalvesAreWhole};

use object_history::laws;

/// The halves of a slot that was just mounted are paired.
pub fn front_begins()
    ensures { FrontBegins }
{
    laws::pair_begins();
}

/// A front that turns stays paired with its back: a turn gives what the laws of a pair ask of a front's step, also where memory was
/// wanting.
pub fn turn_steps()
    ensures { TurnSteps }
{
    laws::logs_grow();
    laws::front_keeps_pair();
    laws::notices_fit();
}

/// They stay paired whatever step the back makes.
pub fn back_steps()
    ensures { BackStepsKeep }
{
    laws::back_keeps_pair();
}

/// What each incarnation has said begins what it says in all, also where memory was wanting.
pub fn halves_are_said()
    ensures { HalvesAreSaid }
{
    laws::telling_tells();
    laws::pair_is_said();
}

/// What the incarnation of a front that goes on has said is whole where the front waits for no notice, and begins with the failures that
/// the one before left.
pub fn halves_are_whole()
    ensures { HalvesAreWhole }
{
    laws::telling_tells();
}
