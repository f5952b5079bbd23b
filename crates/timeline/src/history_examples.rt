//! Examples of what is kept and what leaves, of what waits, of entries and of posts: functions without a body, for their
//! clauses. The logs stand in `specs/Histories.antt`.
ghost use Rattle.std.specs.Prelude.{◌≡◌, pos, false, true, [], ◌∷◌, drop, codes, Some, None, Ok, Err};
ghost use Rattle.do_value.specs.declared.value.Value.TheVariants as value;
ghost use Rattle.script_mean.specs.Builders.{script_of};
ghost use Rattle.script_mean.specs.Examples.{puts, own_write, slow};
ghost use Rattle.script_mean.specs.Task as task;
ghost use Rattle.storage_map.specs.declared.ask.StoreAsk.TheVariants.{Get};
ghost use Rattle.storage_map.specs.declared.answer.Reading.TheVariants.{One};
ghost use Rattle.timeline.specs.Examples.{lives, request, calls, number, word, held, ping, runs_to};
ghost use Rattle.timeline.specs.Histories.{entry, reply, sends, leaves, failed_disk, acknowledged, downed, added_again, filled, early, sure, middle, middle_failed, read_fails, defers, left_of};
ghost use Rattle.timeline.specs.Histories.{sent_for, task_for, two_slots, line_calls, script_c, with_a, fetching, line_fails, line_ticks};
ghost use Rattle.timeline.specs.History.{line, lines, resets};
ghost use Rattle.timeline.specs.Intake.{delivered, noticed};
ghost use Rattle.timeline.specs.Lines as line_out;
ghost use Rattle.timeline.specs.Object.{begun, ended};
ghost use Rattle.timeline.specs.Passed.{passed};
ghost use Rattle.timeline.specs.Steps.{on_turn, rests};
ghost use Rattle.timeline.specs.Switch.{accepts, routes};
ghost use Rattle.timeline.specs.declared.caller.Cause.TheVariants as cause;
ghost use Rattle.timeline.specs.declared.caller.Failure.TheVariants as failure;
ghost use Rattle.timeline.specs.declared.entry.Body.TheVariants as body;
ghost use Rattle.timeline.specs.declared.event.Event.TheVariants as event;
ghost use Rattle.timeline.specs.declared.message.Message.TheVariants as message;
ghost use Rattle.timeline.specs.declared.notice.Notice.TheVariants.{Read, Fresh};
ghost use Rattle.timeline.specs.declared.notice.Waits.TheVariants as waits;

/// A reply leaves behind its batch.
pub fn reply_needs_its_batch()
    ensures passed { passed acknowledged ≡ leaves (reply 1 (Ok (number 3))) 1 1 ∷ [] }
    ensures line { line acknowledged ≡ (puts "x" 1 ∷ puts "y" 2 ∷ []) ∷ [] }
{}

/// A failed flight resets the reply behind it; then the object is down.
pub fn failed_flight_resets_then_down()
    ensures passed { passed downed ≡ leaves (reply 1 (Err (failure.Reset failed_disk))) 0 1 ∷ leaves (reply 2 (Err (failure.Down 2 3))) 0 1 ∷ [] }
    ensures resets { resets downed ≡ [] }
{}

/// The next incarnation starts from the whole failed flight, or without it.
pub fn failed_flight_is_kept_or_dropped()
    ensures found { passed (added_again 1 2) ≡ leaves (reply 1 (Err (failure.Reset failed_disk))) 0 1 ∷ leaves (reply 2 (Ok (number 2))) 2 2 ∷ [] }
    ensures both { line (added_again 1 2) ≡ (puts "n" 1 ∷ []) ∷ (puts "n" 2 ∷ []) ∷ [] }
    ensures lost { passed (added_again 0 1) ≡ leaves (reply 1 (Err (failure.Reset failed_disk))) 0 1 ∷ leaves (reply 2 (Ok (number 1))) 1 2 ∷ [] }
    ensures one { line (added_again 0 1) ≡ (puts "n" 1 ∷ []) ∷ [] }
{}

/// A full journal resets the reply, and nothing is kept.
pub fn full_journal_resets()
    ensures passed { passed filled ≡ leaves (reply 1 (Err (failure.Reset (cause.Full 5082 4096)))) 0 1 ∷ leaves (reply 2 (Ok value.Undefined)) 0 2 ∷ [] }
    ensures lines { lines filled ≡ [] ∷ ((puts "k" 5 ∷ []) ∷ []) ∷ [] }
{}

/// A turn that exceeded answers its caller and ends the incarnation.
pub fn exceeded_turn_ends_the_incarnation()
    ensures { on_turn (λ o t. rests o) (lives 1 []) (begun None) (task_for 2) (Some (task.exceeded []))
        ≡ record { says = sends 2 (Err failure.Exceeded) ∷ body.Halt cause.Exceeded ∷ []; state = ended cause.Exceeded } }
{}

/// While a block is open a call is deferred; the block's own task waits for its call.
#[tactic(auto, unfolding(crate::specs::Examples::held, crate::specs::Examples::ping, script_mean::specs::Limits::most_helpers, crate::specs::Steps::most_refused, crate::specs::Told::most_waits))]
pub fn block_holds_a_call_back()
    ensures deferred { defers (runs_to (held ∷ ping ∷ []) [] (calls 2 0 [] ∷ [])).state (calls 3 1 []) ≡ true }
    ensures answer { defers (runs_to (held ∷ ping ∷ []) [] (calls 2 0 [] ∷ [])).state (event.Answer 1 1 (Ok (number 7)) (pos 0)) ≡ false }
    ensures left { left_of (held ∷ ping ∷ []) (calls 2 0 [] ∷ []) (calls 3 1 [] ∷ [])
        ≡ (request 2, waits.Call (codes "B") (codes "b")) ∷ (request 3, waits.Block) ∷ [] }
{}

/// A front sends a batch and an ask, and goes on when the answer comes.
#[tactic(auto, unfolding(script_mean::specs::Examples::own_write, script_mean::specs::Limits::most_helpers, crate::specs::Steps::most_refused))]
pub fn front_waits_for_its_storage()
    ensures asks { sent_for (own_write ∷ []) (delivered (calls 1 0 []) ∷ [])
        ≡ entry 1 1 (body.Batch (puts "n" 1 ∷ []) None true) ∷ entry 1 2 (body.Ask (Get (codes "n")) false) ∷ [] }
    ensures goes_on { sent_for (own_write ∷ []) (delivered (calls 1 0 []) ∷ noticed (Read 2 (One (number 1))) ∷ [])
        ≡ entry 1 1 (body.Batch (puts "n" 1 ∷ []) None true) ∷ entry 1 2 (body.Ask (Get (codes "n")) false) ∷ entry 1 3 (sends 1 (Ok (number 1))) ∷ [] }
    ensures ends { sent_for (own_write ∷ []) (delivered (calls 1 0 []) ∷ noticed (Fresh 2 None failed_disk) ∷ [])
        ≡ entry 1 1 (body.Batch (puts "n" 1 ∷ []) None true) ∷ entry 1 2 (body.Ask (Get (codes "n")) false)
        ∷ entry 2 1 (sends 1 (Err (failure.Reset failed_disk))) ∷ [] }
{}

/// The switch gives a new object the least free slot, and names what is missing.
#[tactic(auto, unfolding(script_mean::specs::Examples::own_write))]
pub fn switch_places_objects()
    ensures placed { (accepts (script_of (own_write ∷ [])) two_slots (line_calls 1 "C" "a" "own")).posts
        ≡ (0, event.Bind (codes "C", codes "a")) ∷ (0, calls 1 0 []) ∷ [] }
    ensures class { (accepts (script_of (own_write ∷ [])) two_slots (line_calls 3 "D" "a" "own")).lines ≡ line_out.error (pos 3) failure.NoClass ∷ [] }
    ensures method { (accepts (script_of (own_write ∷ [])) two_slots (line_calls 4 "C" "a" "x")).lines ≡ line_out.error (pos 4) failure.NoMethod ∷ [] }
    ensures full { (accepts (script_of (own_write ∷ [])) (record two_slots { objects = [] }) (line_calls 5 "C" "a" "own")).lines
        ≡ line_out.error (pos 5) (failure.NoSlot 0) ∷ [] }
{}

/// A fetch gets the next number and is answered once; a tick before the last one is refused; a routed reply is a line.
#[tactic(auto, unfolding(script_mean::specs::Examples::own_write))]
pub fn switch_answers_fetches_once()
    ensures line { (routes script_c with_a (0, message.Fetch 1 1 (word "x"))).lines ≡ line_out.fetch 1 (codes "C", codes "a") (word "x") ∷ [] }
    ensures post { (accepts script_c fetching (line_fails 2 1)).posts ≡ (0, event.Answer 1 1 (Err failure.NoFetch) (pos 5)) ∷ [] }
    ensures once { (accepts script_c (accepts script_c fetching (line_fails 2 1)).after (line_fails 3 1)).lines ≡ line_out.refused 3 line_out.no_fetch ∷ [] }
    ensures tick { (accepts script_c with_a (line_ticks 4 4)).lines ≡ line_out.refused 4 line_out.backwards ∷ [] }
    ensures later { (accepts script_c with_a (line_ticks 5 6)).posts ≡ (0, event.Tick (pos 6)) ∷ [] }
    ensures reply { (routes script_c with_a (0, reply 1 (Ok (number 3)))).lines ≡ line_out.reply (pos 1) (number 3) ∷ [] }
    ensures unfit { (routes script_c with_a (1, reply 1 (Ok (number 3)))).lines ≡ [] }
{}

/// A reply behind an unconfirmed batch needs nothing; one behind a confirmed batch needs it.
pub fn unconfirmed_batch_is_not_needed()
    ensures early { passed early ≡ leaves (reply 1 (Ok (number 5))) 0 1 ∷ [] }
    ensures line { line early ≡ (puts "n" 5 ∷ []) ∷ [] }
    ensures sure { passed sure ≡ leaves (reply 1 (Ok (number 5))) 1 1 ∷ [] }
{}

/// An unconfirmed batch before a confirmed one is needed with it; one behind it isn't. Where the flight fails, the reply before the
/// confirmed batch passes, and those behind it don't, though the last follows an unconfirmed one.
pub fn needs_reach_to_the_last_confirmed_batch()
    ensures passed { passed middle ≡ leaves (reply 1 (Ok (number 1))) 0 1 ∷ leaves (reply 2 (Ok (number 2))) 2 1 ∷ leaves (reply 3 (Ok (number 3))) 2 1 ∷ [] }
    ensures failed { passed middle_failed ≡ leaves (reply 1 (Ok (number 1))) 0 1 ∷ leaves (reply 2 (Err (failure.Reset failed_disk))) 1 1
        ∷ leaves (reply 3 (Err (failure.Reset failed_disk))) 1 1 ∷ [] }
    ensures line { line middle_failed ≡ (puts "a" 1 ∷ []) ∷ [] }
{}

/// At a read that fails no message before it is discarded, nor one behind it with no confirmed batch between; behind such a batch a
/// reply becomes a failure, and a fetch is dropped. The call that waits at the ask is reset by the next incarnation.
pub fn failed_read_discards_behind_a_confirmed_batch()
    ensures passed { passed read_fails ≡ leaves (reply 1 (Ok (number 1))) 1 1 ∷ leaves (message.Fetch 1 1 (word "x")) 1 1 ∷ leaves (reply 2 (Ok (number 2))) 1 1
        ∷ leaves (reply 3 (Ok (number 3))) 1 1 ∷ leaves (reply 4 (Err (failure.Reset failed_disk))) 1 1 ∷ [] }
    ensures lines { lines read_fails ≡ ((puts "a" 1 ∷ []) ∷ []) ∷ ((puts "a" 1 ∷ []) ∷ []) ∷ [] }
    ensures resets { resets (drop 1 read_fails) ≡ sends 5 (Err (failure.Reset failed_disk)) ∷ [] }
{}
