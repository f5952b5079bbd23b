//! The keys that a delete takes out.
ghost use Rattle.std.specs.Prelude.{◌≡◌, ◌++◌, ◌∷◌, [], IfOk, OnOk};
ghost use Rattle.script_asks.specs.Requests.{completed_of};
ghost use Rattle.script_mean.specs.Calls as calls;

use do_value::{Mem, NoMemory};
use script_asks::Completed;
use std::alloc::Global;
use storage_map::{Key, KeyFault, Keys, Op, StoreAsk};

/// What is asked to learn which keys a delete takes out.
pub(crate) fn keys_ask(alloc: Global, gives: Completed, ops: &[Op]) -> Mem<StoreAsk>
    ensures { IfOk result (λ ask. ask ≡ calls.keys_ask (completed_of gives) (calls.keys_of ops.now)) }
{
    let keys = keys_of(alloc, ops)?;
    match gives {
        Completed::Whether => Ok(StoreAsk::Get(first_key(alloc, &keys)?)),
        Completed::HowMany | Completed::Nothing => Ok(StoreAsk::GetMany(Keys::new(keys))),
    }
}

// The keys of the deletes, in order.
fn keys_of(alloc: Global, ops: &[Op]) -> Mem<Vec<Key>>
    ensures { IfOk result (λ keys. keys.items ≡ calls.keys_of ops.now) }
{
    let mut keys = Vec::new(alloc);
    for op in ops {
        if let Op::Delete { key } = op {
            add_key(&mut keys, key)?;
        }
    }
    Ok(keys)
}

// Puts a copy of the key behind the others.
fn add_key(keys: &mut Vec<Key>, key: &Key) -> Mem<()>
    ensures { OnOk result (keys.new.items ≡ keys.old.items ++ key.now ∷ []) }
{
    match keys.push(key.copy()?) {
        Ok(()) => Ok(()),
        Err(_) => Err(NoMemory),
    }
}

// The first of the keys, or the empty one where there is none.
fn first_key(alloc: Global, keys: &[Key]) -> Mem<Key>
    ensures { IfOk result (λ key. key ≡ calls.first_key keys.now) }
{
    match keys.first() {
        Some(key) => key.copy(),
        None => match Key::new(alloc, "") {
            Ok(key) => Ok(key),
            Err(KeyFault::NoMemory) => Err(NoMemory),
            Err(KeyFault::Long { .. }) => unreachable!(),
        },
    }
}
