//! The object of a frame and the number of its batches, at the front of a payload.
ghost use Rattle.std.specs.Prelude.{◌≡◌, MatchOption, None};
ghost use Rattle.storage_map.specs.Limits.{Format};
ghost use Rattle.batch_codec.specs.Parsing.{payload_at};
ghost use Rattle.batch_codec.specs.Read.{HasHead};

use crate::read_parts::{read_short, read_u32};
use do_value::MOST_BYTES;
use storage_map::MOST_NAME_BYTES;

// The most bytes of a class: a text's, without the 5 bytes before it.
const MOST_CLASS_BYTES: u64 = MOST_BYTES - 5;

// The class, the name and the number of batches of a payload, and the bytes of its batches. Where it is `None`, the bytes are no
// payload of any format.
pub(crate) fn read_head(payload: &[u8]) -> Option<(&str, &str, u32, &[u8])>
    ensures { MatchOption result ((format : Format) → payload_at format payload.now ≡ None)
        (λ head. HasHead payload.now head.0.now head.1.now head.2 head.3.now) }
{
    let (class, rest) = read_short(MOST_CLASS_BYTES, payload)?;
    let (name, rest) = read_short(MOST_NAME_BYTES, rest)?;
    let (count, rest) = read_u32(rest)?;
    if count == 0 {
        return None;
    }
    Some((class, name, count, rest))
}
