//! Laws of one object's history. A call costs nothing and tells its caller the law.
ghost use Rattle.object_history.specs.Laws.{TellingGoesOn, TellingTells, StepsSayWell, LogsGrow, PairBegins, FrontKeepsPair, NoticesFit, BackKeepsPair, PairIsSaid};
ghost use Rattle.object_history.specs.GateSteps.{FlushSteps, ReleaseSteps, MendSteps, BackIsRear, TakeSteps};

use do_disk::Disk;
use output_gate::Back;

/// A front that serves goes on telling what its script tells over its map, event by event and answer by answer.
pub fn telling_goes_on()
    ensures { TellingGoesOn }
{}

/// What it has said begins what its script tells, and is the whole of it where it waits for no answer.
pub fn telling_tells()
    ensures { TellingTells }
{}

/// A step of an object says nothing that is waited for but the one entry that its state has.
pub fn steps_say_well()
    ensures { StepsSayWell }
{}

/// What one item more adds to a front's logs.
pub fn logs_grow()
    ensures { LogsGrow }
{}

/// The halves of a slot that was just mounted are a pair.
pub fn pair_begins()
    ensures { PairBegins }
{}

/// They stay one whatever the front takes.
pub fn front_keeps_pair()
    ensures { FrontKeepsPair }
{}

/// Each notice under way is one that the front waits for.
pub fn notices_fit()
    ensures { NoticesFit }
{}

/// They stay a pair whatever step the back makes.
pub fn back_keeps_pair()
    ensures { BackKeepsPair }
{}

/// What each incarnation of a pair has said begins what it says in all.
pub fn pair_is_said()
    ensures { PairIsSaid }
{}

/// A flush of any back is a step of which these laws speak, with whatever maps the back is seen.
pub fn flush_steps<D: Disk>(back: &Back<D>)
    ensures { FlushSteps D.moment_of D.left_since D.told D.image D.faults_of back.now }
{
    let _ = back;
}

/// What any back lets go is a step of which these laws speak.
pub fn release_steps<D: Disk>(back: &Back<D>)
    ensures { ReleaseSteps D.moment_of D.left_since D.told D.image D.faults_of back.now }
{
    let _ = back;
}

/// A mounting of any back is a step of which these laws speak.
pub fn mend_steps<D: Disk>(back: &Back<D>)
    ensures { MendSteps D.moment_of D.left_since D.told D.image D.faults_of back.now }
{
    let _ = back;
}

/// What these laws take for granted of a back is so of any that is seen with the map that is due.
pub fn back_is_rear<D: Disk>(back: &Back<D>)
    ensures { BackIsRear D.moment_of D.left_since D.told D.image D.faults_of back.now }
{
    let _ = back;
}

/// An entry that any back takes, where it doesn't leave it stuck, is a step of which these laws speak: the front is told what the map
/// says.
pub fn take_steps<D: Disk>(back: &Back<D>)
    ensures { TakeSteps D.moment_of D.left_since D.told D.image D.faults_of back.now }
{
    let _ = back;
}
