//! What an answer gives to the task that waits for it.
ghost use Rattle.std.specs.Prelude.{◌≡◌, true, take, IfOk, Result};
ghost use Rattle.do_value.specs.Seen.{tree_of};
ghost use Rattle.do_value.specs.Tree.{Tree};
ghost use Rattle.storage_txn.specs.Overlay.{view, IsAnswer};
ghost use Rattle.storage_txn.specs.Writes.{ops_of};
ghost use Rattle.script_mean.specs.Answers as answers;
ghost use Rattle.script_mean.specs.Answers.{completed_by, found, value_of_reading};
ghost use Rattle.script_mean.specs.Calls.{writes_of};
ghost use Rattle.script_mean.specs.Task as task;
ghost use Rattle.script_mean.specs.declared.answer.Answer.TheVariants as an_answer;
ghost use Rattle.script_ops.specs.Answers.{Answers};
ghost use Rattle.script_state.specs.Ends.{IsMade, IsOpenFor};
ghost use Rattle.script_state.specs.Seen.{gives_of, wait_of};
ghost use Rattle.script_steps.specs.Seen.{outcome_of};

use crate::places::ended;
use crate::waiting::{Gives, Waiting};
use do_value::{Mem, Value};
use script_asks::{completed_by, found, value_of_reading, value_through};
use script_mean::Answer;
use script_ops::OpFault;
use script_steps::Outcome;
use std::alloc::Global;
use storage_map::{Reading, StoreAsk};
use storage_txn::{Txn, overlaid};

/// What the answer gives to a task that waits so, with this transaction: `undefined` where it is of another kind than what
/// the task waits for.
pub fn answered(
    alloc: Global,
    wait: Waiting,
    transaction: &Option<Txn>,
    answer: Answer,
) -> Mem<Outcome>
    requires open { IsOpenFor (wait_of wait transaction.now) transaction.now }
    ensures { IfOk result (λ o. answers.answered (wait_of wait transaction.now) answer ≡ outcome_of o) }
{
    match wait {
        Waiting::Reads => read(alloc, answer),
        Waiting::Views(ask) => viewed(alloc, transaction, &ask, answer),
        Waiting::Finds(ask, count) => sought(alloc, transaction, &ask, count, answer),
        Waiting::Completes(tail, gives) => Ok(Outcome::Gave(completed(tail, gives, &answer))),
        Waiting::Syncs => Ok(synced(&answer)),
        Waiting::Outside => Ok(came(answer)),
    }
}

// What an operator's answer comes to.
#[tactic(auto, using(crate::proofs::Comes::comes_to))]
fn worked(answer: Result<Value, OpFault>) -> Mem<Outcome>
    ensures { (meant : Result Tree Tree) → Answers meant answer → IfOk result (λ o. answers.outcome_of meant ≡ outcome_of o) }
{
    ended(answer)
}

// A read.
fn read(alloc: Global, answer: Answer) -> Mem<Outcome>
    ensures { IfOk result (λ o. answers.answered task.reads answer ≡ outcome_of o) }
{
    match answer {
        Answer::Read(reading) => worked(value_of_reading(alloc, reading)),
        Answer::Value(_) | Answer::Thrown(_) => Ok(Outcome::Gave(Value::Undefined)),
    }
}

// A read through the operations of the transaction.
fn viewed(alloc: Global, transaction: &Option<Txn>, ask: &StoreAsk, answer: Answer) -> Mem<Outcome>
    requires open { IsMade transaction.now }
    ensures { IfOk result (λ o. answers.answered (task.views (writes_of transaction.now) ask.now) answer ≡ outcome_of o) }
{
    match answer {
        Answer::Read(below) => seen_if_asked(alloc, transaction, ask, below),
        Answer::Value(_) | Answer::Thrown(_) => Ok(Outcome::Gave(Value::Undefined)),
    }
}

// Whether and how many keys a delete finds, through so many of the first operations of the transaction.
fn sought(
    alloc: Global,
    transaction: &Option<Txn>,
    ask: &StoreAsk,
    count: usize,
    answer: Answer,
) -> Mem<Outcome>
    requires open { IsMade transaction.now }
    ensures { IfOk result (λ o. answers.answered (task.finds (take count (writes_of transaction.now)) ask.now) answer ≡ outcome_of o) }
{
    match answer {
        Answer::Read(below) => sought_if_asked(alloc, transaction, ask, count, below),
        Answer::Value(_) | Answer::Thrown(_) => Ok(Outcome::Gave(Value::Undefined)),
    }
}

// Whether the reading is of the kind that the ask has.
fn is_answer(ask: &StoreAsk, reading: &Reading) -> bool
    ensures kind { result ≡ answers.is_answer ask.now reading.now }
    ensures fits { result ≡ true → IsAnswer ask.now reading.now }
{
    match ask {
        StoreAsk::Get(_) => matches!(reading, Reading::One(_)),
        StoreAsk::GetMany(_) | StoreAsk::List(_) => matches!(reading, Reading::Pairs(_)),
        StoreAsk::Alarm => matches!(reading, Reading::Alarm(_)),
    }
}

// A read through the operations of the transaction, if the reading is of the kind that was asked.
#[tactic(auto, using(crate::proofs::Comes::of_kind, crate::proofs::Comes::of_another_kind))]
fn seen_if_asked(
    alloc: Global,
    transaction: &Option<Txn>,
    ask: &StoreAsk,
    below: Reading,
) -> Mem<Outcome>
    requires open { IsMade transaction.now }
    ensures { IfOk result (λ o. answers.answered (task.views (writes_of transaction.now) ask.now) (an_answer.Read below) ≡ outcome_of o) }
{
    if is_answer(ask, &below) {
        seen(alloc, transaction, ask, below)
    } else {
        Ok(Outcome::Gave(Value::Undefined))
    }
}

// What a delete finds, if the reading is of the kind that was asked.
#[tactic(auto, using(crate::proofs::Comes::of_kind, crate::proofs::Comes::of_another_kind))]
fn sought_if_asked(
    alloc: Global,
    transaction: &Option<Txn>,
    ask: &StoreAsk,
    count: usize,
    below: Reading,
) -> Mem<Outcome>
    requires open { IsMade transaction.now }
    ensures { IfOk result (λ o. answers.answered (task.finds (take count (writes_of transaction.now)) ask.now) (an_answer.Read below) ≡ outcome_of o) }
{
    if is_answer(ask, &below) {
        was_there(alloc, transaction, ask, count, below)
    } else {
        Ok(Outcome::Gave(Value::Undefined))
    }
}

// A read through the operations of the transaction.
fn seen(alloc: Global, transaction: &Option<Txn>, ask: &StoreAsk, below: Reading) -> Mem<Outcome>
    requires kind { IsAnswer ask.now below }
    requires open { IsMade transaction.now }
    ensures { IfOk result (λ o. answers.outcome_of (value_of_reading (view (writes_of transaction.now) ask.now below)) ≡ outcome_of o) }
{
    match transaction {
        Some(txn) => worked(value_through(alloc, txn, ask, below)),
        None => unreachable!(),
    }
}

// Whether and how many keys a delete finds, through so many of the first operations of the transaction.
fn was_there(
    alloc: Global,
    transaction: &Option<Txn>,
    ask: &StoreAsk,
    count: usize,
    below: Reading,
) -> Mem<Outcome>
    requires kind { IsAnswer ask.now below }
    requires open { IsMade transaction.now }
    ensures { IfOk result (λ o. answers.gave (found (view (take count (writes_of transaction.now)) ask.now below)) ≡ outcome_of o) }
{
    match transaction {
        Some(txn) => Ok(Outcome::Gave(found(&before(alloc, txn, ask, count, below)?))),
        None => unreachable!(),
    }
}

// What is read through so many of the first operations of the transaction.
#[tactic(auto, using(crate::proofs::Comes::first_ops, crate::proofs::Comes::first_keyed))]
fn before(alloc: Global, txn: &Txn, ask: &StoreAsk, count: usize, below: Reading) -> Mem<Reading>
    requires kind { IsAnswer ask.now below }
    ensures { IfOk result (λ reading. reading ≡ view (take count (ops_of txn.now)) ask.now below) }
{
    let ops = txn.ops();
    let count = count.min(ops.len());
    overlaid(alloc, &ops[..count], ask, below)
}

// The completion of a write.
fn completed(tail: u32, gives: Gives, answer: &Answer) -> Value
    ensures { answers.answered (task.completes tail (gives_of gives)) answer.now ≡ answers.gave (tree_of result) }
{
    match answer {
        Answer::Read(reading) => given(tail, gives, reading),
        Answer::Value(_) | Answer::Thrown(_) => Value::Undefined,
    }
}

// What the completion of a write gives.
#[tactic(auto, using(crate::proofs::Comes::this_given))]
fn given(tail: u32, gives: Gives, reading: &Reading) -> Value
    ensures { tree_of result ≡ completed_by tail (gives_of gives) reading.now }
{
    match gives {
        Gives::Call(call) => completed_by(tail, call, reading),
        Gives::This(value) => value,
    }
}

// The durability of all batches.
fn synced(answer: &Answer) -> Outcome
    ensures { answers.answered task.syncs answer.now ≡ outcome_of result }
{
    match answer {
        Answer::Read(_) | Answer::Value(_) | Answer::Thrown(_) => Outcome::Gave(Value::Undefined),
    }
}

// A call or a fetch.
fn came(answer: Answer) -> Outcome
    ensures { answers.answered task.outside answer ≡ outcome_of result }
{
    match answer {
        Answer::Value(value) => Outcome::Gave(value),
        Answer::Thrown(value) => Outcome::Threw(value),
        Answer::Read(_) => Outcome::Gave(Value::Undefined),
    }
}
