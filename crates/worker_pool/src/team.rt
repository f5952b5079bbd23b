//! Several workers, each in a thread of its own.
ghost use Rattle.std.specs.Prelude.{◌≡◌, ◌<◌, ◌≤◌, ◌+◌};
ghost use Rattle.std.specs.Thread.{IsSend, IsSync};

use do_disk::{Disk, Sink, Source, TurnGate};
use host_workers::{Names, Shared, WorkEnd, Worked, work};
use std::alloc::Global;
use std::sync::Wait;
use std::sync::ledger::Share;
use std::thread;
use std::thread::Threads;

// What the bounds of these types say, for proofs. A call costs nothing.
fn are_sent<
    D: Disk + Send,
    R: Source + Send,
    W: Sink + Send,
    T: Wait + Send + Sync,
    G: TurnGate + Sync,
>()
    ensures { IsSend D.row × IsSend R.row × IsSend W.row × IsSend T.row × IsSync T.row × IsSync G.row }
{}

// Lets `count` workers work, whose numbers go on from `first`, each in a thread of its own. Where no thread is to be had they work one after
// another, and the first does all that there is to do; so nothing is refused. It takes no memory.
#[cycle(team)]
pub(crate) fn work_together<
    's,
    L: Names + Send + Sync,
    D: Disk + Drop + Send,
    R: Source + Drop + Send,
    W: Sink + Drop + Send,
    T: Threads + Wait + Copy + Send + Sync,
    G: TurnGate + Sync,
>(
    rt: &T,
    alloc: Global,
    shared: &Shared<'s, L, D, R, W, T>,
    gate: &G,
    first: u32,
    count: u32,
    share: Share<L>,
) -> Worked<L>
    requires { (0 < count) × (count ≤ share.parts) × (share.amount ≡ 0) }
    ensures { (result.share.parts ≡ share.parts) × (result.share.amount ≡ 0) }
{
    if count == 1 {
        return work(rt, alloc, shared, gate, first, share);
    }
    let half = count / 2;
    let rest = count - half;
    let next = first.wrapping_add(half);
    let mut mine = share;
    let theirs = mine.split_off(u64::from(rest), 0);
    are_sent::<D, R, W, T, G>();
    let one = move || -> Worked<L>
        requires { IsSend D.row × IsSend R.row × IsSend W.row × IsSend T.row × IsSync T.row × IsSync G.row
            × (0 < half) × (half ≤ mine.parts) × (mine.amount ≡ 0) }
        ensures { (result.share.parts ≡ mine.parts) × (result.share.amount ≡ 0) }
    { work_together(rt, alloc, shared, gate, first, half, mine) };
    let other = move || -> Worked<L>
        requires { IsSend D.row × IsSend R.row × IsSend W.row × IsSend T.row × IsSync T.row × IsSync G.row
            × (0 < rest) × (rest ≤ theirs.parts) × (theirs.amount ≡ 0) }
        ensures { (result.share.parts ≡ theirs.parts) × (result.share.amount ≡ 0) }
    { work_together(rt, alloc, shared, gate, next, rest, theirs) };
    let (ours, others) = thread::join(rt, one, other);
    both(ours, others)
}

// How two workers ended. Want of memory and a write fault end the work, a read fault the reading alone.
fn both<L: Names>(ours: Worked<L>, others: Worked<L>) -> Worked<L>
    requires { (ours.share.amount ≡ 0) × (others.share.amount ≡ 0) }
    ensures { (result.share.parts ≡ ours.share.parts + others.share.parts) × (result.share.amount ≡ 0) }
{
    let Worked { end, mut share } = ours;
    let Worked {
        end: other,
        share: second,
    } = others;
    share.merge(second);
    Worked {
        end: worse(end, other),
        share,
    }
}

fn worse(end: WorkEnd, other: WorkEnd) -> WorkEnd {
    if rank(end) < rank(other) { other } else { end }
}

fn rank(end: WorkEnd) -> u8 {
    match end {
        WorkEnd::Ended => 0,
        WorkEnd::ReadFailed => 1,
        WorkEnd::WriteFailed => 2,
        WorkEnd::NoMemory => 3,
    }
}
