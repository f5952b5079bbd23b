//! What holds of each object, for whoever holds one. A call costs nothing and tells its caller the law.
ghost use Rattle.object_core.specs.Classless.{OneWithoutClass};
ghost use Rattle.object_core.specs.Drops.{OneDrops};
ghost use Rattle.object_core.specs.Fetches.{OneWaitsForFetches};
ghost use Rattle.object_core.specs.Leaving.{OneLeaves, OneRests};
ghost use Rattle.object_core.specs.Once.{OneServesOnce};
ghost use Rattle.object_core.specs.Owing.{OneIsOwed, OneSticks};
ghost use Rattle.object_core.specs.Shown.{AllShow, FreshAreOne};
ghost use Rattle.object_core.specs.Unended.{OneTellsNoEnd};
ghost use Rattle.object_core.specs.Laws.{HalvesAreFresh, OneIsHistory, OneHasClass, OneHasGot, OneHasIntake, OneHasLeft, OneHasLetGo, OneHasTold, OneIsLimited, OneIsQuiet, OneIsWhole};
ghost use Rattle.object_core.specs.Unmoved.{AllAreOwed, AllSayNothing};

use crate::object::Core;
use do_disk::Disk;
use front_history::laws;
use object_front::laws as front_laws;
use object_messages::laws as names;
use output_gate::Back;

/// The halves of a slot that was just mounted, for whoever makes an object of them.
pub fn halves_are_fresh<D: Disk>(back: &Back<D>)
    ensures { HalvesAreFresh back.now }
{
    let _ = back;
}

/// What an object's logs show is its history: what was said, taken, kept and released.
pub fn one_is_history<D: Disk>(core: &Core<D>)
    ensures { OneIsHistory D.moment_of D.left_since D.told D.image D.faults_of core.now }
{
    laws::halves_are_said();
    let _ = core;
}

/// What its front has taken, and that it was let through by the input gate.
pub fn one_has_intake<D: Disk>(core: &Core<D>)
    ensures { OneHasIntake D.moment_of D.left_since D.told D.image D.faults_of core.now }
{
    let _ = core;
}

/// What became of the events that its front got.
pub fn one_has_got<D: Disk>(core: &Core<D>)
    ensures { OneHasGot D.moment_of D.left_since D.told D.image D.faults_of core.now }
{
    let _ = core;
}

/// The class by which its script runs, and the object that its slot has.
pub fn one_has_class<D: Disk>(core: &Core<D>)
    ensures { OneHasClass D.moment_of D.left_since D.told D.image D.faults_of core.now }
{
    let _ = core;
}

/// Where what was said is all that is to be said.
pub fn one_is_whole<D: Disk>(core: &Core<D>)
    ensures { OneIsWhole D.moment_of D.left_since D.told D.image D.faults_of core.now }
{
    laws::halves_are_whole();
    let _ = core;
}

/// Where no step has anything to do, its logs are those of a quiet object.
pub fn one_is_quiet<D: Disk>(core: &Core<D>)
    ensures { OneIsQuiet D.moment_of D.left_since D.told D.image D.faults_of core.now }
{
    laws::halves_are_whole();
    let _ = core;
}

/// Where no step has anything to do, it has let go all that passes.
pub fn one_has_let_go<D: Disk>(core: &Core<D>)
    ensures { OneHasLetGo D.moment_of D.left_since D.told D.image D.faults_of core.now }
{
    let _ = core;
}

/// The messages that wait to be collected are the last that left.
pub fn one_has_left<D: Disk>(core: &Core<D>)
    ensures { OneHasLeft D.moment_of D.left_since D.told D.image D.faults_of core.now }
{
    let _ = core;
}

/// How many bytes its journal may have: as many as when its slot was mounted.
pub fn one_is_limited<D: Disk>(core: &Core<D>)
    ensures { OneIsLimited D.moment_of D.left_since D.told D.image D.faults_of core.now }
{
    let _ = core;
}

/// What has left, and what a crash leaves.
pub fn one_has_told<D: Disk>(core: &Core<D>)
    ensures { OneHasTold D.moment_of D.left_since D.told D.image D.faults_of core.now }
{
    let _ = core;
}

/// Whom and what the messages that left name.
pub fn one_is_owed<D: Disk>(core: &Core<D>)
    ensures { OneIsOwed D.moment_of D.left_since D.told D.image D.faults_of core.now }
{
    names::replies_are_owed();
    names::passed_is_taken();
    laws::halves_are_said();
    let _ = core;
}

/// Where its front stands still: at an answer to what it didn't ask.
pub fn one_sticks<D: Disk>(core: &Core<D>)
    ensures { OneSticks D.moment_of D.left_since D.told D.image D.faults_of core.now }
{
    let _ = core;
}

/// What its front may have dropped of events that fit it.
pub fn one_drops<D: Disk>(core: &Core<D>)
    ensures { OneDrops D.moment_of D.left_since D.told D.image D.faults_of core.now }
{
    let _ = core;
}

/// What it leaves at rest.
pub fn one_leaves<D: Disk>(core: &Core<D>)
    ensures { OneLeaves D.moment_of D.left_since D.told D.image D.faults_of core.now }
{
    laws::halves_are_whole();
    let _ = core;
}

/// Where no step has anything to do, its front waits for nothing.
pub fn one_rests<D: Disk>(core: &Core<D>)
    ensures { OneRests D.moment_of D.left_since D.told D.image D.faults_of core.now }
{
    laws::halves_are_whole();
    let _ = core;
}

/// Where no incarnation has stopped, no message that left tells of an end.
pub fn one_tells_no_end<D: Disk>(core: &Core<D>)
    ensures { OneTellsNoEnd D.moment_of D.left_since D.told D.image D.faults_of core.now }
{
    names::ends_are_needed();
    names::unended_pass_as_taken();
    laws::halves_are_said();
    let _ = core;
}

/// Where no step has anything to do, who called it once got one reply or is left.
pub fn one_serves_once<D: Disk>(core: &Core<D>)
    ensures { OneServesOnce D.moment_of D.left_since D.told D.image D.faults_of core.now }
{
    laws::halves_are_whole();
    let _ = core;
}

/// Whom and what the messages that left name, of every object, and that none left where no event came.
pub fn all_are_owed<D: Disk>()
    ensures owed { AllAreOwed D.moment_of D.left_since D.told D.image D.faults_of }
    ensures nothing { AllSayNothing D.moment_of D.left_since D.told D.image D.faults_of }
{
    names::replies_are_owed();
    names::passed_is_taken();
    names::unmoved_says_nothing();
    laws::halves_are_said();
}

/// What the logs of every object show, also of one whose lanes are gone.
pub fn all_show<D: Disk>()
    ensures { AllShow D.moment_of D.left_since D.told D.image D.faults_of }
{
    names::ends_are_needed();
    names::unended_pass_as_taken();
    names::replies_are_owed();
    names::passed_is_taken();
    laws::halves_are_said();
}

/// Halves that were just mounted are those of an object through whose lanes nothing went.
pub fn fresh_are_one<D: Disk>()
    ensures { FreshAreOne D.moment_of D.left_since D.told D.image D.faults_of }
{
    laws::front_begins();
    front_laws::events_come();
}

/// What an object says and leaves that has no class, and one whose class its script hasn't.
pub fn one_without_class<D: Disk>(core: &Core<D>)
    ensures { OneWithoutClass D.moment_of D.left_since D.told D.image D.faults_of core.now }
{
    let _ = core;
}

/// What a fetch is at which it leaves a call at rest.
pub fn one_waits_for_fetches<D: Disk>(core: &Core<D>)
    ensures { OneWaitsForFetches D.moment_of D.left_since D.told D.image D.faults_of core.now }
{
    laws::halves_are_whole();
    let _ = core;
}
