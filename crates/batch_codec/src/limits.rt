//! How large values and batches may be, by the format of their frame.
ghost use Rattle.std.specs.Prelude.{◌≡◌};
ghost use Rattle.batch_codec.specs.Formats.{limits_of};

use storage_map::{
    MOST_BATCH_BYTES, MOST_BATCH_BYTES_OF_FORMAT_ONE, MOST_STORED_BYTES,
    MOST_STORED_BYTES_OF_FORMAT_ONE,
};

// The most bytes of a stored value's encoding.
pub(crate) fn most_stored(format: u8) -> u64
    ensures { result ≡ (limits_of format).most_stored }
{
    if format == 1 {
        MOST_STORED_BYTES_OF_FORMAT_ONE
    } else {
        MOST_STORED_BYTES
    }
}

// The most bytes of a batch.
pub(crate) fn most_batch(format: u8) -> u64
    ensures { result ≡ (limits_of format).most_batch }
{
    if format == 1 {
        MOST_BATCH_BYTES_OF_FORMAT_ONE
    } else {
        MOST_BATCH_BYTES
    }
}
