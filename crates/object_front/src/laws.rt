//! Laws of a front, for whoever holds one. A call costs nothing and tells its caller the law.
ghost use Rattle.object_front.specs.Came.{EventsCome};
ghost use Rattle.object_front.specs.Classed.{ClassComes};

use crate::front::Front;

/// A turn accounts for each event that a front gets, and delivers calls in the order in which they came.
pub fn events_come()
    ensures { EventsCome }
{}

/// A turn leaves a front the class that it has by the events that were delivered to it.
pub fn class_comes()
    ensures { ClassComes }
{}

fn is_sent<T: Send>() {}

/// A front may go to another thread, which then makes its turns.
pub fn front_is_sent() {
    is_sent::<Front>();
}
