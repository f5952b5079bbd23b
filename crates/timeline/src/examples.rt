//! Examples of what objects say: functions without a body, for their clauses. The scripts stand in `specs/Examples.antt` and
//! among the examples of what scripts mean.
ghost use Rattle.std.specs.Prelude.{◌≡◌, pos, false, true, [], ◌∷◌, codes, Some, None, Err};
ghost use Rattle.do_value.specs.Tree as tree;
ghost use Rattle.do_value.specs.declared.value.Value.TheVariants as value;
ghost use Rattle.script_mean.specs.Examples.{puts, own_write, slow, undo, over, alarm, arm, counter, counts, sets, soft, quick, both_marked};
ghost use Rattle.script_ops.specs.Errors.{fetch_failed, no_number};
ghost use Rattle.script_mean.specs.Storing.{value_of};
ghost use Rattle.storage_map.specs.declared.ask.StoreAsk.TheVariants.{Get, Alarm};
ghost use Rattle.storage_map.specs.declared.op.Op.TheVariants.{SetAlarm, ClearAlarm, Put};
ghost use Rattle.timeline.specs.Examples.{calls, calls_at, fetched, ticks, evicts, number, word, writes, writes_early, replies, fails, fetches, arms, reads};
ghost use Rattle.timeline.specs.Examples.{unless_bad, goes, rearms, looks, request, starts_by_fetch, shows, succeeds, lives, runs_to, replies_body};
ghost use Rattle.timeline.specs.Examples.{says};
ghost use Rattle.timeline.specs.Histories.{defers, left_of};
ghost use Rattle.timeline.specs.Told.{batch};
ghost use Rattle.timeline.specs.declared.event.Event.TheVariants as event;
ghost use Rattle.timeline.specs.declared.notice.Waits.TheVariants as waits;
ghost use Rattle.timeline.specs.declared.caller.Cause.TheVariants as cause;
ghost use Rattle.timeline.specs.declared.caller.Failure.TheVariants as failure;
ghost use Rattle.timeline.specs.declared.entry.Body.TheVariants as body;

/// Its own write is seen before it is durable.
#[tactic(auto, unfolding(script_mean::specs::Examples::own_write, script_mean::specs::Limits::most_helpers, crate::specs::Steps::most_refused, crate::specs::Told::most_waits))]
pub fn own_write_is_seen()
    ensures { says (own_write ∷ []) [] (calls 1 0 [] ∷ []) ≡ writes "n" 1 ∷ replies 1 (number 1) ∷ [] }
{}

/// A fetch leaves the input gate open: one of two updates is lost.
#[tactic(auto, unfolding(script_mean::specs::Examples::slow, script_ops::specs::Binary::binary, script_mean::specs::Limits::most_helpers, crate::specs::Steps::most_refused, crate::specs::Told::most_waits))]
pub fn update_is_lost_over_fetches()
    ensures { says (slow ∷ []) [] (calls 1 0 [] ∷ calls 2 0 [] ∷ fetched 1 0 ∷ fetched 2 0 ∷ [])
        ≡ fetches 1 ∷ fetches 2 ∷ writes "n" 1 ∷ replies 1 (number 1) ∷ writes "n" 1 ∷ replies 2 (number 1) ∷ [] }
{}

/// A transaction that throws leaves nothing.
#[tactic(auto, unfolding(script_mean::specs::Examples::undo, script_mean::specs::Limits::most_helpers, crate::specs::Steps::most_refused, crate::specs::Told::most_waits))]
pub fn transaction_is_undone()
    ensures { says (undo ∷ []) [] (calls 1 0 [] ∷ []) ≡ replies 1 (value.List (tree.text (codes "no") ∷ tree.undefined ∷ [])) ∷ [] }
{}

/// A number out of range is thrown, and the caller gets it.
#[tactic(auto, unfolding(script_mean::specs::Examples::over, script_ops::specs::Binary::binary, script_mean::specs::Limits::most_helpers, crate::specs::Steps::most_refused, crate::specs::Told::most_waits))]
pub fn throw_reaches_the_caller()
    ensures { says (over ∷ []) [] (calls 1 0 [] ∷ []) ≡ fails 1 (failure.Thrown (value_of no_number)) ∷ [] }
{}

/// A constructor reads what was stored, also after an eviction.
#[tactic(auto, unfolding(script_mean::specs::Examples::counter, script_mean::specs::Examples::counts, script_ops::specs::Binary::binary, script_mean::specs::Limits::most_helpers, crate::specs::Steps::most_refused, crate::specs::Told::most_waits))]
pub fn counter_survives_eviction()
    ensures { says (counter ∷ counts ∷ []) [] (calls 1 1 [] ∷ calls 2 1 [] ∷ evicts ∷ calls 3 1 [] ∷ [])
        ≡ writes "value" 1 ∷ replies 1 (number 1) ∷ writes "value" 2 ∷ replies 2 (number 2) ∷ writes "value" 3 ∷ replies 3 (number 3) ∷ [] }
{}

/// A handler that throws is tried again, later each time.
#[tactic(auto, unfolding(script_mean::specs::Examples::arm, script_mean::specs::Examples::alarm, script_ops::specs::Binary::binary, script_mean::specs::Limits::most_helpers, crate::specs::Steps::most_refused, crate::specs::Told::most_waits))]
pub fn handler_is_tried_again()
    ensures { says (arm ∷ alarm ∷ []) [] (calls 1 0 (number 1000 ∷ []) ∷ ticks 1000 ∷ ticks 3000 ∷ [])
        ≡ arms 1000 0 ∷ replies 1 (number 1000) ∷ writes "n" 1 ∷ arms 3000 1 ∷ writes "n" 2 ∷ arms 7000 2 ∷ [] }
{}

/// A throw out of a block ends the incarnation without an answer, and what was written before it stays. Nothing is delivered
/// behind it.
#[tactic(auto, unfolding(crate::specs::Examples::unless_bad, crate::specs::Examples::goes, crate::specs::Examples::reads, script_ops::specs::Binary::binary, script_mean::specs::Limits::most_helpers, crate::specs::Steps::most_refused, crate::specs::Told::most_waits))]
pub fn block_that_throws_ends_the_incarnation()
    ensures { (runs_to (unless_bad ∷ goes ∷ reads ∷ []) [] (calls 1 1 [] ∷ calls 2 2 (word "k" ∷ []) ∷ [])).says
        ≡ body.Ask (Get (codes "bad")) false ∷ body.Batch (puts "k" 1 ∷ []) None true ∷ body.Halt cause.BlockThrew ∷ [] }
{}

/// The next incarnation reads it. A constructor that throws ends that one, and the call that started it isn't answered.
#[tactic(auto, unfolding(crate::specs::Examples::unless_bad, script_mean::specs::Examples::sets, crate::specs::Examples::reads, script_ops::specs::Binary::binary, script_mean::specs::Limits::most_helpers, crate::specs::Steps::most_refused, crate::specs::Told::most_waits))]
pub fn constructor_that_throws_ends_the_incarnation()
    ensures { (runs_to (unless_bad ∷ sets ∷ reads ∷ []) (puts "k" 1 ∷ [])
        (calls 2 2 (word "k" ∷ []) ∷ calls 3 1 (word "bad" ∷ value.Bool true ∷ []) ∷ evicts ∷ calls 4 2 (word "k" ∷ []) ∷ [])).says
        ≡ body.Ask (Get (codes "bad")) false ∷ body.Ask (Get (codes "k")) false ∷ replies_body 2 (number 1)
        ∷ body.Batch (Put (codes "bad") (value.Bool true) ∷ []) None true ∷ replies_body 3 (value.Bool true)
        ∷ body.Ask (Get (codes "bad")) false ∷ body.Halt cause.StartThrew ∷ [] }
{}

/// A running handler sees no alarm until it sets one, and what it set stays. A tick before its time does nothing.
#[tactic(auto, unfolding(script_mean::specs::Examples::arm, crate::specs::Examples::rearms, crate::specs::Examples::looks, script_ops::specs::Binary::binary, script_mean::specs::Limits::most_helpers, crate::specs::Steps::most_refused, crate::specs::Told::most_waits))]
pub fn handler_arms_itself_again()
    ensures { says (arm ∷ rearms ∷ looks ∷ []) [] (calls 1 0 (number 10 ∷ []) ∷ ticks 10 ∷ calls_at 10 2 2 [] ∷ ticks 49 ∷ calls_at 49 3 2 [] ∷ [])
        ≡ arms 10 0 ∷ replies 1 (number 10) ∷ batch (Put (codes "g") (value.Bool true) ∷ SetAlarm (pos 50) 0 ∷ []) true
        ∷ replies 2 (value.List (tree.boolean true ∷ tree.number (pos 50) ∷ [])) ∷ replies 3 (value.List (tree.boolean true ∷ tree.number (pos 50) ∷ [])) ∷ [] }
{}

/// A constructor that fetches holds its event and every other one back; the answer ends it, and then the event runs.
#[tactic(auto, unfolding(crate::specs::Examples::starts_by_fetch, crate::specs::Examples::shows, script_mean::specs::Limits::most_helpers, crate::specs::Steps::most_refused, crate::specs::Told::most_waits))]
pub fn constructor_waits_for_its_fetch()
    ensures said { says (starts_by_fetch ∷ shows ∷ []) [] (calls 1 1 [] ∷ fetched 1 7 ∷ calls 2 1 [] ∷ [])
        ≡ fetches 1 ∷ replies 1 (number 7) ∷ replies 2 (number 7) ∷ [] }
    ensures deferred { defers (runs_to (starts_by_fetch ∷ shows ∷ []) [] (calls 1 1 [] ∷ [])).state (calls 2 1 []) ≡ true }
    ensures left { left_of (starts_by_fetch ∷ shows ∷ []) (calls 1 1 [] ∷ []) (calls 2 1 [] ∷ [])
        ≡ (request 1, waits.Block) ∷ (request 2, waits.Block) ∷ [] }
{}

/// A handler that succeeds clears its alarm, in a batch of its own. A class without a handler clears an alarm that is due and starts
/// nothing.
#[tactic(auto, unfolding(crate::specs::Examples::succeeds, crate::specs::Examples::starts_by_fetch, script_mean::specs::Limits::most_helpers, crate::specs::Steps::most_refused, crate::specs::Told::most_waits))]
pub fn alarm_is_cleared()
    ensures handler { says (succeeds ∷ []) (SetAlarm (pos 5) 0 ∷ []) (ticks 5 ∷ ticks 6 ∷ []) ≡ writes "n" 1 ∷ batch (ClearAlarm ∷ []) true ∷ [] }
    ensures none { says (starts_by_fetch ∷ []) (SetAlarm (pos 5) 0 ∷ []) (ticks 4 ∷ ticks 5 ∷ ticks 6 ∷ []) ≡ batch (ClearAlarm ∷ []) true ∷ [] }
{}

/// A fetch that fails throws, and so ends a task that doesn't catch it.
#[tactic(auto, unfolding(script_mean::specs::Examples::slow, script_ops::specs::Binary::binary, script_mean::specs::Limits::most_helpers, crate::specs::Steps::most_refused, crate::specs::Told::most_waits))]
pub fn failed_fetch_is_thrown()
    ensures { says (slow ∷ []) [] (calls 1 0 [] ∷ event.Answer 1 1 (Err failure.NoFetch) (pos 0) ∷ [])
        ≡ fetches 1 ∷ fails 1 (failure.Thrown (value_of fetch_failed)) ∷ [] }
{}

/// An open read is asked as another, so that no update is lost.
#[tactic(auto, unfolding(script_mean::specs::Examples::soft, script_ops::specs::Binary::binary, script_mean::specs::Limits::most_helpers, crate::specs::Steps::most_refused, crate::specs::Told::most_waits))]
pub fn open_reads_are_asked_as_others()
    ensures { says (soft ∷ []) [] (calls 1 0 [] ∷ calls 2 0 [] ∷ [])
        ≡ writes "n" 1 ∷ replies 1 (number 1) ∷ writes "n" 2 ∷ replies 2 (number 2) ∷ [] }
{}

/// A batch of writes with `allowUnconfirmed` alone is said as unconfirmed.
#[tactic(auto, unfolding(script_mean::specs::Examples::quick, script_mean::specs::Examples::both_marked, script_mean::specs::Limits::most_helpers, crate::specs::Steps::most_refused, crate::specs::Told::most_waits))]
pub fn batches_are_said_with_their_marks()
    ensures quick { says (quick ∷ []) [] (calls 1 0 (number 5 ∷ []) ∷ []) ≡ writes_early "n" 5 ∷ replies 1 (number 5) ∷ [] }
    ensures both { says (both_marked ∷ []) [] (calls 1 0 (number 5 ∷ []) ∷ [])
        ≡ batch (puts "n" 5 ∷ puts "m" 5 ∷ []) true ∷ replies 1 (number 5) ∷ [] }
{}
