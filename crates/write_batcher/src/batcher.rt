//! The open batch of an object, with its mark.
ghost use Rattle.std.specs.Prelude.{◌≡◌, ◌≤◌, ◌↔◌, ◌++◌, ◌∷◌, [], IfSome, IsNone, IfErr, OnOk, OnErr, length};
ghost use Rattle.std.specs.List.{All};
ghost use Rattle.storage_map.specs.Limits.{most_batch_bytes};
ghost use Rattle.storage_map.specs.Ops.{IsOp, batch_bytes};
ghost use Rattle.write_batcher.specs.Joined.{IsJoined, IsAddFault};
ghost use Rattle.write_batcher.specs.Marked.{nothing_open, more, IsCut};

use crate::writes::{AddFault, Writes};
use std::alloc::Global;
use std::marker::Model;
use std::mem;
use storage_map::{Batch, Op};

/// A batch that was cut, with its mark: what an object says behind a confirmed one is held until it is durable.
#[derive(Debug)]
pub struct Made {
    pub batch: Batch,
    /// Whether an operation of it was written by a call without `allowUnconfirmed`.
    pub confirmed: bool,
}

impl Made {
    /// The batch without its mark.
    pub fn into_batch(self) -> Batch
        ensures { result ≡ self.batch }
    {
        let Made {
            batch,
            confirmed: _,
        } = self;
        batch
    }
}

// Written out, so that letting one go is proved once.
impl Drop for Made {
    fn drop(self) {
        let Made {
            batch,
            confirmed: _,
        } = self;
        drop(batch);
    }
}

/// The operations of one object since the last cut, and whether one of them was written by a call without `allowUnconfirmed`.
/// Writes with no await between them are joined into one batch, after the articles on the input and output gates.
#[derive(Drop)]
pub struct Batcher {
    writes: Writes,
    confirmed: bool,
}

impl Model for Batcher {
    ghost use Rattle.write_batcher.specs.Marked.{Open};
    ghost use Rattle.write_batcher.specs.OpenCode.{open_code};

    ghost Value = { Open };

    ghost coded = { open_code };

    ghost view = { λ batcher. record { ops = batcher.writes; confirmed = batcher.confirmed } };
}

impl Batcher {
    /// No operation.
    pub fn new(alloc: Global) -> Batcher
        ensures { result ≡ nothing_open }
    {
        Batcher {
            writes: Writes::new(alloc),
            confirmed: false,
        }
    }

    /// Joins the operation behind the others, written by a call without `allowUnconfirmed` where it is to be confirmed. `BatchFull`
    /// comes exactly where the batch would have more bytes than its limit. After a fault nothing is changed.
    pub fn add(&mut self, op: Op, confirmed: bool) -> Result<(), AddFault>
        requires { IsOp op }
        ensures added { OnOk result (self.new ≡ more self.old confirmed (op ∷ [])) }
        ensures fits { OnOk result (length (batch_bytes (self.old.ops ++ op ∷ [])) ≤ most_batch_bytes) }
        ensures fault { IfErr result (IsAddFault (self.old.ops ++ op ∷ [])) }
        ensures same { OnErr result (self.new ≡ self.old) }
    {
        self.writes.add(op)?;
        self.confirmed |= confirmed;
        Ok(())
    }

    /// Joins the operations of one call behind the others, in order: all of them or none. A call without operations leaves the
    /// mark as it is. `BatchFull` comes exactly where the batch would have more bytes than its limit. After a fault nothing is changed.
    pub fn extend(&mut self, ops: Vec<Op>, confirmed: bool) -> Result<(), AddFault>
        requires within { All IsOp ops.items }
        requires few { length ops.items ≤ 4294967295 }
        ensures joined { OnOk result (self.new ≡ more self.old confirmed ops.items) }
        ensures fits { OnOk result (length (batch_bytes (self.old.ops ++ ops.items)) ≤ most_batch_bytes) }
        ensures fault { IfErr result (IsAddFault (self.old.ops ++ ops.items)) }
        ensures same { OnErr result (self.new ≡ self.old) }
    {
        let some = !ops.is_empty();
        self.writes.extend(ops)?;
        self.confirmed |= some && confirmed;
        Ok(())
    }

    /// Cuts the batch of the operations since the last cut, in order and with its mark, or `None` where there are none.
    pub fn close(&mut self) -> Option<Made>
        ensures batch { IfSome result (IsCut self.old) }
        ensures none { IsNone result ↔ self.old.ops ≡ [] }
        ensures empty { self.new ≡ nothing_open }
    {
        let confirmed = mem::replace(&mut self.confirmed, false);
        match self.writes.close() {
            Some(batch) => Some(Made { batch, confirmed }),
            None => None,
        }
    }

    /// The operations since the last cut, in order.
    pub fn as_slice(&self) -> &[Op]
        ensures ops { result.now ≡ self.now.ops }
        ensures joined { IsJoined self.now.ops }
    {
        self.writes.as_slice()
    }

    /// How many bytes the batch of the operations since the last cut has, [`EMPTY_BATCH_BYTES`](crate::EMPTY_BATCH_BYTES) where there are none.
    pub fn size(&self) -> u64
        ensures size { result ≡ length (batch_bytes self.now.ops) }
        ensures joined { IsJoined self.now.ops }
    {
        self.writes.size()
    }
}
