//! The line of a bad slot.
ghost use Rattle.std.specs.Prelude.{◌≡◌, IfOk};
ghost use Rattle.do_host.specs.SlotLines as spec;

use crate::slot_lines::{mixed_line, place_line, twice_line};
use do_value::Mem;
use host_core::Bad;
use std::alloc::Global;

// The line that tells why the slot is bad, and an LF.
pub(crate) fn bad_line(alloc: Global, bad: &Bad) -> Mem<Vec<u8>>
    ensures { IfOk result (λ bytes. bytes.items ≡ spec.bad_line bad.now) }
{
    match bad {
        Bad::Foreign { slot, place } => place_line(alloc, "foreign", *slot, *place),
        Bad::Damaged { slot, place } => place_line(alloc, "damaged", *slot, *place),
        Bad::Mixed { slot, first, other } => mixed_line(alloc, *slot, first, other),
        Bad::Twice { a, b } => twice_line(alloc, *a, *b),
    }
}
