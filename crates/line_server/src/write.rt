//! Writing to a sink.
ghost use Rattle.std.specs.Prelude.{◌≡◌, ◌≤◌, ◌++◌, ℕ, OnOk, OnErr, length, take, option_map};
ghost use Rattle.do_disk.specs.Disk.{CountsFaults};

use do_disk::{Failed, Sink};

/// Writes all of the bytes, piece by piece. After a failure the sink has taken some of them from their front, and the
/// others are not tried. It takes no memory.
pub fn put<W: Sink>(sink: &mut W, bytes: &[u8]) -> Result<(), Failed>
    ensures taken { OnOk result (W.taken sink.new ≡ option_map (λ taken. taken ++ bytes.now) (W.taken sink.old)) }
    ensures front { OnErr result ((n : ℕ) × (n ≤ length bytes.now)
        × (W.taken sink.new ≡ option_map (λ taken. taken ++ take n bytes.now) (W.taken sink.old))) }
    ensures faults { CountsFaults (W.faults_of sink.old) (W.faults_of sink.new) result }
{
    let mut at = 0;
    while at < bytes.len() {
        at += sink.write(&bytes[at..])?;
    }
    Ok(())
}
