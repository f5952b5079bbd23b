//! A sync of a file whose device may lack what a read gives.
ghost use Rattle.std.specs.Prelude.{◌≡◌, ◌≤◌, ◌+◌, ◌∷◌, [], ℕ, Some, false, true, length, is_ok, OnOk, OnErr};
ghost use Rattle.do_disk.specs.FileCalls.{read_range, wrote_range, with_all, Adds, Rewrites, SyncsAgain};

use crate::FileCalls;
use std::io;

/// How many bytes are read and written again at once.
const PIECE_BYTES: usize = 65_536;

// Makes the file's bytes durable, from so many before this place, or before the file's end, on. The system takes pages of
// a failed sync for written, so they are written again as they are.
pub(crate) fn sync_again<F: FileCalls>(file: &mut F, place: u64, before: u64) -> io::Result<()>
    ensures { Adds (F.calls file.old) (F.calls file.new) (λ made. SyncsAgain place before made (is_ok result)) }
{
    let end = file.length()?;
    rewrite(file, place.min(end).saturating_sub(before), end)
}

// Writes the bytes of this range again as they are, and syncs.
fn rewrite<F: FileCalls>(file: &mut F, from: u64, end: u64) -> io::Result<()>
    ensures { Adds (F.calls file.old) (F.calls file.new) (λ made. Rewrites end from made (is_ok result)) }
{
    let mut piece = [0; PIECE_BYTES];
    let mut at = from;
    while at < end {
        let n = (end - at).min(PIECE_BYTES as u64);
        write_again(file, at, &mut piece[..n as usize])?;
        at += n;
    }
    file.sync()
}

// Reads as many bytes as the buffer has, and writes them again as they are.
fn write_again<F: FileCalls>(file: &mut F, at: u64, piece: &mut [u8]) -> io::Result<()>
    ensures done { OnOk result (F.calls file.new ≡ with_all (F.calls file.old)
        (read_range at (length piece.new) (Some piece.new) ∷ wrote_range at piece.new true ∷ [])) }
    ensures failed { OnErr result ((end : ℕ) → at + length piece.old ≤ end
        → Adds (F.calls file.old) (F.calls file.new) (λ made. Rewrites end at made false)) }
{
    file.read_at(at, piece)?;
    file.write_at(at, piece)
}
