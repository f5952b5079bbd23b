//! What may enter is what is eligible: a function without a body, for its clauses.
ghost use Rattle.std.specs.Prelude.{◌≡◌, ℕ, ◌==◌, Bool, true, false};
ghost use Rattle.timeline.specs.Eligible.{has_block, is_eligible_while, resumes_block};
ghost use Rattle.timeline.specs.Object.{Object, task_under};
ghost use Rattle.timeline.specs.declared.event.Event.{Event};
ghost use Rattle.input_gate.specs.Deferring.{may_enter};
ghost use Rattle.input_gate.specs.declared.deferred.Entering.TheVariants.{Any, AnswerUnder, BindAlone, NoEviction};

/// With no block, all events may enter or all but evictions, as the object is at rest or not. While a block is open, a `Bind` and the
/// answers under the number of its task; a `Bind` alone where it waits under none.
pub fn eligible_events_enter()
    ensures rests { (resumes : Bool) (event : Event) → is_eligible_while false resumes true event ≡ may_enter Any event }
    ensures runs { (resumes : Bool) (event : Event) → is_eligible_while false resumes false event ≡ may_enter NoEviction event }
    ensures blocked { (o : Object) (number : ℕ) → ((k : ℕ) → has_block (task_under k o.tasks) ≡ (k == number))
        → (rests : Bool) (event : Event) → is_eligible_while true (resumes_block o event) rests event ≡ may_enter (AnswerUnder number) event }
    ensures waits_for_none { (o : Object) → ((k : ℕ) → has_block (task_under k o.tasks) ≡ false)
        → (rests : Bool) (event : Event) → is_eligible_while true (resumes_block o event) rests event ≡ may_enter BindAlone event }
{}
