//! One transaction of an object.
ghost use Rattle.std.specs.Prelude.{◌≡◌, ◌≢◌, ◌≤◌, ◌↔◌, Some, None, [], IfOk, OnOk, OnErr, IfErr, IfSome, IsNone, IsTrue, length};
ghost use Rattle.do_value.specs.declared.value.Value.TheVariants.{Undefined};
ghost use Rattle.std.specs.List.{All};
ghost use Rattle.storage_map.specs.Ops.{batch_bytes, IsOp};
ghost use Rattle.storage_txn.specs.Overlay.{below, view, IsAnswer};
ghost use Rattle.storage_txn.specs.Writes.{ops_of, added, extended, IsOnKey, IsOpen, IsTaken, AreTaken};
ghost use Rattle.storage_txn.specs.Faults.{IsWriteFault, IsExtendFault, IsReadFault};

use crate::fault::TxnFault;
use crate::merged::Merged;
use crate::overlay::{asked_below, seen};
use crate::places::Places;
use do_value::Value;
use std::alloc::Global;
use std::marker::Model;
use storage_map::{Batch, Key, Op, Options, Pairs, Reading, StoreAsk};
use write_batcher::{EMPTY_BATCH_BYTES, Writes};

/// The writes of a transaction and whether it was rolled back, after the storage documentation's `transaction`.
/// Contracts see the list of its operations, or none once it was rolled back.
pub struct Txn {
    alloc: Global,
    batcher: Option<Writes>,
    places: Places,
}

// Written out, as each crate above would prove a derived one again wherever it lets one go.
impl Drop for Txn {
    fn drop(self) {
        let Txn {
            alloc: _,
            batcher,
            places,
        } = self;
        drop(batcher);
        drop(places);
    }
}

impl Model for Txn {
    ghost use Rattle.std.specs.Prelude.{List, Option};
    ghost use Rattle.std.specs.Coded.{coded_list, coded_option};
    ghost use Rattle.storage_map.specs.declared.op.Op.{Op as OneOp};
    ghost use Rattle.storage_map.specs.contracts.op.Op as one_op;
    ghost use Rattle.storage_txn.specs.Placed.{AreKnown};

    ghost Value = { Option (List OneOp) };

    ghost coded = { coded_option (coded_list one_op.the_row.coded) };

    ghost view = { λ txn. txn.batcher };

    ghost invariant = { λ txn. AreKnown txn.batcher txn.places };
}

impl Txn {
    /// A transaction without writes.
    pub fn new(alloc: Global) -> Txn
        ensures { result ≡ Some [] }
    {
        Txn {
            alloc,
            batcher: Some(Writes::new(alloc)),
            places: Places::new(alloc),
        }
    }

    /// Writes a value. `RolledBack` comes exactly after a rollback; else `ValueLong` exactly where the value is too long
    /// to be stored; else `BatchFull` exactly where the batch would pass its limit. After a fault nothing is changed.
    pub fn put(&mut self, key: Key, value: Value) -> Result<(), TxnFault>
        requires { value ≢ Value.Undefined }
        ensures put { OnOk result (self.new ≡ added self.old (Op.Put key value)) }
        ensures taken { OnOk result (IsTaken self.old (Op.Put key value)) }
        ensures fault { IfErr result (IsWriteFault self.old (Op.Put key value)) }
        ensures same { OnErr result (self.new ≡ self.old) }
    {
        let Some(batcher) = &mut self.batcher else {
            return Err(TxnFault::RolledBack);
        };
        batcher.add(Op::put(key, value)?)?;
        self.places.take(batcher.as_slice());
        Ok(())
    }

    /// Takes the key out, if it is there. `RolledBack` comes exactly after a rollback; else `BatchFull` exactly where the
    /// batch would pass its limit. After a fault nothing is changed.
    pub fn delete(&mut self, key: Key) -> Result<(), TxnFault>
        ensures delete { OnOk result (self.new ≡ added self.old (Op.Delete key)) }
        ensures taken { OnOk result (IsTaken self.old (Op.Delete key)) }
        ensures fault { IfErr result (IsWriteFault self.old (Op.Delete key)) }
        ensures same { OnErr result (self.new ≡ self.old) }
    {
        let _ = key.as_str();
        let Some(batcher) = &mut self.batcher else {
            return Err(TxnFault::RolledBack);
        };
        batcher.add(Op::Delete { key })?;
        self.places.take(batcher.as_slice());
        Ok(())
    }

    /// Adds the operations, each of them on one key, in order: all of them or none. `RolledBack` comes exactly after a rollback;
    /// else `BatchFull` exactly where the batch would pass its limit. After a fault nothing is changed.
    pub fn extend(&mut self, ops: Vec<Op>) -> Result<(), TxnFault>
        requires within { All IsOp ops.items }
        requires keyed { All IsOnKey ops.items }
        requires few { length ops.items ≤ 4294967295 }
        ensures extended { OnOk result (self.new ≡ extended self.old ops.items) }
        ensures taken { OnOk result (AreTaken self.old ops.items) }
        ensures fault { IfErr result (IsExtendFault self.old ops.items) }
        ensures same { OnErr result (self.new ≡ self.old) }
    {
        let Some(batcher) = &mut self.batcher else {
            return Err(TxnFault::RolledBack);
        };
        batcher.extend(ops)?;
        self.places.take(batcher.as_slice());
        Ok(())
    }

    /// Whether it was rolled back.
    pub fn is_rolled_back(&self) -> bool
        ensures { IsTrue result ↔ self.now ≡ None }
    {
        self.batcher.is_none()
    }

    /// The operations, in order, none of them after a rollback.
    pub fn ops(&self) -> &[Op]
        ensures ops { result.now ≡ ops_of self.now }
        ensures keyed { All IsOnKey result.now }
    {
        match &self.batcher {
            Some(batcher) => batcher.as_slice(),
            None => &[],
        }
    }

    /// What is to be asked of the store, so that `view` can answer this ask: the ask itself, and for a listing the same
    /// without its limit. `RolledBack` comes exactly after a rollback.
    pub fn below(&self, ask: &StoreAsk) -> Result<StoreAsk, TxnFault>
        ensures ask { IfOk result (λ answer. answer ≡ below ask.now) }
        ensures open { OnOk result (IsOpen self.now) }
        ensures fault { IfErr result (IsReadFault self.now) }
    {
        if self.batcher.is_none() {
            return Err(TxnFault::RolledBack);
        }
        Ok(asked_below(ask)?)
    }

    /// The answer to the ask through the transaction's writes, from what the store answers to `below` of it.
    /// `RolledBack` comes exactly after a rollback.
    pub fn view(&self, ask: &StoreAsk, below: Reading) -> Result<Reading, TxnFault>
        requires { IsAnswer ask.now below }
        ensures view { IfOk result (λ answer. answer ≡ view (ops_of self.now) ask.now below) }
        ensures open { OnOk result (IsOpen self.now) }
        ensures fault { IfErr result (IsReadFault self.now) }
    {
        let Some(batcher) = &self.batcher else {
            return Err(TxnFault::RolledBack);
        };
        Ok(seen(self.alloc, &self.places, batcher.as_slice(), ask, below)?)
    }

    /// The pairs that the options list through the transaction's writes, in order, lent one after the other: each from the
    /// writes, or from the pairs that the store answers to `below` of the listing, which may stand in either order.
    pub fn merged<'a>(&'a self, below: &'a Pairs, options: &'a Options) -> Merged<'a>
        requires { IsOpen self.now }
        ensures { Reading.Pairs result ≡ view (ops_of self.now) (StoreAsk.List options.now) (Reading.Pairs below.now) }
    {
        Merged::new(self.ops(), &self.places, options, below)
    }

    /// Drops the writes, and refuses every further call but [`commit`](Txn::commit) and [`size`](Txn::size).
    /// `RolledBack` comes exactly where that was done before.
    pub fn rollback(&mut self) -> Result<(), TxnFault>
        ensures none { self.new ≡ None }
        ensures open { OnOk result (IsOpen self.old) }
        ensures fault { IfErr result (λ fault. (fault ≡ TxnFault.RolledBack) × (self.old ≡ None)) }
    {
        if self.batcher.is_none() {
            return Err(TxnFault::RolledBack);
        }
        self.batcher = None;
        Ok(())
    }

    /// The batch of the writes, in order, or `None` where there was no write or a rollback.
    pub fn commit(self) -> Option<Batch>
        ensures batch { IfSome result (λ batch. self ≡ Some batch) }
        ensures none { IsNone result ↔ ops_of self ≡ [] }
    {
        let Txn {
            alloc: _,
            batcher,
            places: _places,
        } = self;
        match batcher {
            Some(mut batcher) => batcher.close(),
            None => None,
        }
    }

    /// How many bytes the batch of the writes so far has, 4 where there are none.
    pub fn size(&self) -> u64
        ensures { result ≡ length (batch_bytes (ops_of self.now)) }
    {
        match &self.batcher {
            Some(batcher) => batcher.size(),
            None => EMPTY_BATCH_BYTES,
        }
    }
}
