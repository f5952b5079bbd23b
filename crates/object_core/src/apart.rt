//! What holds of halves that ran apart, for whoever joins them. A call costs nothing and tells its caller the law.
ghost use Rattle.object_core.specs.Apart.{ApartMeet};

use front_history::laws;
use object_front::laws as front_laws;
use object_messages::laws as names;

/// Halves that ran apart are paired as if they had run together.
pub fn halves_meet()
    ensures { ApartMeet }
{
    laws::front_begins();
    laws::turn_steps();
    laws::back_steps();
    front_laws::events_come();
    names::early_is_unasked();
    names::drops_are_answered();
}
