//! A frame's payload, passed over once: its operations are lent one by one, and checked as they come.
ghost use Rattle.std.specs.Prelude.{◌≡◌, ◌≢◌, ◌≤◌, ◌<◌, ◌^◌, [], IfOk, IsErr, MatchOption, None, Some, length};
ghost use Rattle.batch_codec.specs.Formats.{limits_of, IsFormat};
ghost use Rattle.batch_codec.specs.Frames.{Frame, IsFrameIn, payload as said_by};
ghost use Rattle.batch_codec.specs.Skipping.{ops_to_read, IsAtHand};
ghost use Rattle.batch_codec.specs.Views.{IsNext, IsBegun};

use crate::frame_view::BadFrame;
use crate::head::read_head;
use crate::limits::most_batch;
use crate::op_view::{OpView, view_op};
use crate::read_parts::read_u32;
use std::marker::Model;

// Where a payload is read: how many operations of the batch at hand are to be read, how many batches behind it, how many bytes were
// left where it began, and the bytes that are left.
#[derive(Clone, Copy, Drop)]
struct Hand<'a> {
    left: u32,
    more: u32,
    begun: usize,
    rest: &'a [u8],
}

/// Reads a payload once, from left to right: it lends the operations of all batches in order, and checks the bytes as it goes, so
/// that its end alone tells that they are a payload. It takes no memory. Contracts see the payload, its object, how many bytes are
/// left, and the operations that are still to be read: none where the bytes are no payload of the format.
#[derive(Drop)]
pub struct FrameReader<'a> {
    payload: &'a [u8],
    class: &'a str,
    name: &'a str,
    hand: Hand<'a>,
    format: u8,
}

impl<'a> Model for FrameReader<'a> {
    ghost use Rattle.std.specs.Prelude.{length};
    ghost use Rattle.storage_map.specs.Limits.{IsObject};
    ghost use Rattle.batch_codec.specs.Formats.{limits_of};
    ghost use Rattle.batch_codec.specs.Lent.{ToRead};
    ghost use Rattle.batch_codec.specs.FrameCode.{to_read_code};
    ghost use Rattle.batch_codec.specs.Skipping.{ops_to_read, AreToRead};

    ghost Value = { ToRead };

    ghost coded = { to_read_code };

    ghost view = { λ r. record {
      payload = r.payload.now;
      object = (r.class.now, r.name.now);
      bytes = length r.hand.rest.now;
      ops = ops_to_read (limits_of r.format) r.hand.left r.hand.more r.hand.begun r.hand.rest.now;
    } };

    ghost invariant = { λ r. AreToRead r.payload.now r.hand.begun r.hand.rest.now × IsObject (r.class.now, r.name.now) };
}

impl<'a> FrameReader<'a> {
    /// A reader of a payload of format 1 or 2. It is refused where the bytes don't begin as a payload of that format.
    pub fn new(payload: &'a [u8], format: u8) -> Result<FrameReader<'a>, BadFrame>
        requires format { IsFormat format }
        requires short { length payload.now < 2 ^ 32 }
        ensures payload { IfOk result (λ reader. reader.payload ≡ payload.now) }
        ensures begun { IfOk result (IsBegun (limits_of format)) }
        ensures refused { IsErr result → (frame : Frame) → IsFrameIn (limits_of format) frame
            → said_by frame ≢ payload.now }
    {
        match read_head(payload) {
            Some((class, name, count, rest)) => Ok(FrameReader {
                payload,
                class,
                name,
                hand: Hand {
                    left: 0,
                    more: count,
                    begun: rest.len(),
                    rest,
                },
                format,
            }),
            None => Err(BadFrame),
        }
    }

    /// The class and the name of the object that the payload names.
    pub fn identity(&self) -> (&'a str, &'a str)
        ensures object { (result.0.now, result.1.now) ≡ self.now.object }
    {
        (self.class, self.name)
    }

    /// The next operation, `None` behind the last one of a payload. It is refused only where the bytes are no payload of the format.
    /// After `None` or an `Err` nothing is said of the reader.
    pub fn next_op(&mut self) -> Result<Option<OpView<'a>>, BadFrame>
        ensures read { IfOk result (λ found. MatchOption found (self.old.ops ≡ Some [])
            (λ view. IsNext self.old view self.new)) }
        ensures refused { IsErr result → self.old.ops ≡ None }
    {
        let Some(hand) = at_hand(self.hand, self.format)? else {
            return Ok(None);
        };
        let Some((view, rest)) = view_op(self.payload.len(), hand.rest, self.format) else {
            return Err(BadFrame);
        };
        self.hand = Hand {
            left: hand.left - 1,
            more: hand.more,
            begun: hand.begun,
            rest,
        };
        Ok(Some(view))
    }
}

// The batch of the next operation: the one at hand, or the one behind it where no operation of it is left. `None` comes exactly
// where the payload ends there.
fn at_hand<'a>(hand: Hand<'a>, format: u8) -> Result<Option<Hand<'a>>, BadFrame>
    requires { length hand.rest.now ≤ hand.begun }
    ensures read { IfOk result (λ found. MatchOption found
        (ops_to_read (limits_of format) hand.entry.left hand.entry.more hand.entry.begun hand.entry.rest.now ≡ Some [])
        (λ next. IsAtHand (limits_of format) hand.entry.left hand.entry.more hand.entry.begun hand.entry.rest.now
        next.left next.more next.begun next.rest.now)) }
    ensures refused { IsErr result
        → ops_to_read (limits_of format) hand.entry.left hand.entry.more hand.entry.begun hand.entry.rest.now ≡ None }
{
    if hand.left > 0 {
        return Ok(Some(hand));
    }
    if (hand.begun - hand.rest.len()) as u64 > most_batch(format) {
        return Err(BadFrame);
    }
    if hand.more == 0 {
        return if hand.rest.is_empty() {
            Ok(None)
        } else {
            Err(BadFrame)
        };
    }
    let Some((count, rest)) = read_u32(hand.rest) else {
        return Err(BadFrame);
    };
    if count == 0 {
        return Err(BadFrame);
    }
    Ok(Some(Hand {
        left: count,
        more: hand.more - 1,
        begun: hand.rest.len(),
        rest,
    }))
}
