//! The marker that stands in a file of version 1 between frames of format 1 and of format 2.
ghost use Rattle.std.specs.Prelude.{◌≡◌, ◌↔◌, IsTrue};
ghost use Rattle.batch_codec.specs.Frames.{marker_payload};
ghost use Rattle.batch_journal.specs.Frames.{marker};
ghost use Rattle.batch_journal.specs.Rest.{IsSealed};

use crate::layout::LENGTH_BYTES;
use crate::pending::put;
use sha2::{Digest, Sha256};

// A length that no class has, and the number of the format behind it.
const PAYLOAD: [u8; 8] = [0xff, 0xff, 0xff, 0xff, 0, 0, 0, 2];

// The marker with its length and its digest, and the next gate.
pub(crate) const MARKER_BYTES: usize = 45;

pub(crate) fn is_marker(payload: &[u8]) -> bool
    ensures { IsTrue result ↔ payload.now ≡ marker_payload }
{
    payload == PAYLOAD.as_slice()
}

// The bytes of the marker and a closed next gate.
pub(crate) fn marker_block() -> [u8; MARKER_BYTES]
    ensures { IsSealed result marker }
{
    let mut block = [0; MARKER_BYTES];
    put(&mut block, 0, &8u32.to_be_bytes());
    put(&mut block, LENGTH_BYTES, &PAYLOAD);
    put(
        &mut block,
        LENGTH_BYTES + PAYLOAD.len(),
        &Sha256::digest(&PAYLOAD),
    );
    block
}
