//! The rule of a lane.
use crossbeam_queue::protocol::{Join, Lesson, Outcome, Protocol, Split};
use std::collections::LinkedList;

// What a pass may do (send, take), what it was told of, what it has sent and what it has taken. No value of it is made.
pub struct Log<T> {
    pub sends: bool,
    pub takes: bool,
    pub void: bool,
    pub told: LinkedList<T>,
    pub sent: LinkedList<T>,
    pub got: LinkedList<T>,
}

pub struct InOrder;

impl<T> Protocol<T, Log<T>> for InOrder {
    ghost use Rattle.std.specs.Prelude.{true, []};
    ghost use Rattle.lane.specs.Order.{log, Ordered};

    ghost holds = { Ordered };

    ghost first = { log true true [] [] [] };
}

// One pass sends, and the other takes.
pub struct Roles;

impl<T> Split<Log<T>> for Roles {
    ghost use Rattle.std.specs.Prelude.{true, false, []};
    ghost use Rattle.lane.specs.Order.{log};

    ghost left = { λ v. log true false [] v.sent [] };

    ghost right = { λ v. log false true [] [] v.got };
}

impl<T> Join<Log<T>> for Roles {
    ghost use Rattle.std.specs.Prelude.{true, false, []};
    ghost use Rattle.lane.specs.Order.{log};

    ghost both = { λ v w. log true true [] v.sent w.got };

    ghost spent = { log false false [] [] [] };
}

// A note of what was sent, for the pass that takes.
pub struct Notes;

impl<T> Split<Log<T>> for Notes {
    ghost use Rattle.std.specs.Prelude.{false, []};
    ghost use Rattle.lane.specs.Order.{log};

    ghost left = { λ v. v };

    ghost right = { λ v. log false false v.sent [] [] };
}

impl<T> Join<Log<T>> for Notes {
    ghost use Rattle.std.specs.Prelude.{false, []};
    ghost use Rattle.lane.specs.Order.{log};

    ghost both = { λ v w. log v.sends v.takes w.told v.sent v.got };

    ghost spent = { log false false [] [] [] };
}

// Two passes that both take, or both send: there are none.
pub struct Clash;

impl<T> Join<Log<T>> for Clash {
    ghost use Rattle.std.specs.Prelude.{false, []};
    ghost use Rattle.lane.specs.Order.{log, void_log};

    ghost both = { λ v w. void_log [] };

    ghost spent = { log false false [] [] [] };
}

impl<T> Lesson<T, Log<T>> for Clash {
    ghost use Rattle.std.specs.Prelude.{◌≡◌, true};

    ghost fact = { λ v items. v.void ≡ true → ⊥ };
}

pub struct Sends;

impl<T> Outcome<T, Log<T>> for Sends {
    ghost use Rattle.std.specs.Prelude.{◌≡◌, [], ◌∷◌, ◌++◌};
    ghost use Rattle.lane.specs.Order.{log};

    ghost then = { λ v x w. w ≡ log v.sends v.takes v.told (v.sent ++ x ∷ []) v.got };
}

pub struct Takes;

impl<T> Outcome<T, Log<T>> for Takes {
    ghost use Rattle.std.specs.Prelude.{◌≡◌, [], ◌∷◌, ◌++◌};
    ghost use Rattle.lane.specs.Order.{log};

    ghost then = { λ v x w. w ≡ log v.sends v.takes v.told v.sent (v.got ++ x ∷ []) };
}

// What a take learns where it finds nothing: all that it was told of has come, and a pass that may send too knows that all it
// sent was taken.
impl<T> Lesson<T, Log<T>> for Takes {
    ghost use Rattle.std.specs.Prelude.{◌≡◌, true, ◌++◌};
    ghost use Rattle.lane.specs.Lanes.{StartsWith};

    ghost fact = { λ v items. v.takes ≡ true → (v.sends ≡ true → v.sent ≡ v.got ++ items) × StartsWith (v.got ++ items) v.told };
}

// What a pass that may send and take knows at any moment: what was taken begins what was sent.
pub struct Begins;

impl<T> Lesson<T, Log<T>> for Begins {
    ghost use Rattle.std.specs.Prelude.{◌≡◌, true};
    ghost use Rattle.lane.specs.Lanes.{StartsWith};

    ghost fact = { λ v items. v.sends ≡ true → v.takes ≡ true → StartsWith v.sent v.got };
}
