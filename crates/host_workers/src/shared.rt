//! The board under its lock, and the workers.
ghost use Rattle.std.specs.Prelude.{◌≡◌, ◌<◌, IfOk, IfSome, MatchOption, OnErr};
ghost use Rattle.host_workers.specs.Board.{IsHeld, empty_places, held_count};

use crate::board::{Board, Look};
use crate::cells::Held;
use crate::jobs::{Bounds, Found, WorkEnd, work_on};
use crate::names::Names;
use do_disk::{Disk, Sink, Source, TurnGate};
use std::alloc::Global;
use std::sync::ledger::Share;
use std::sync::{Condvar, Mutex, Wait};

/// A board that workers share, under one lock.
#[derive(Drop)]
pub struct Shared<'s, L: Names, D: Disk, R: Source, W: Sink, T: Wait> {
    lock: Mutex<Board<'s, L, D, R, W, T>>,
    // Who finds nothing to do sleeps on it. It is told where a worker that takes a cell leaves something to do, and at the end.
    changed: Condvar,
}

/// How a worker ended, and its share.
#[derive(Drop)]
pub struct Worked<L: Names> {
    pub end: WorkEnd,
    pub share: Share<L>,
}

impl<'s, L: Names, D: Disk + Drop, R: Source + Drop, W: Sink + Drop, T: Wait + Copy> Shared<
    's,
    L,
    D,
    R,
    W,
    T,
> {
    /// It takes no memory.
    pub fn new(board: Board<'s, L, D, R, W, T>) -> Shared<'s, L, D, R, W, T> {
        Shared {
            lock: Mutex::new(board),
            changed: Condvar::new(),
        }
    }

    /// The board, once all workers have ended: no place is empty. It takes no memory.
    pub fn close(self, share: Share<L>) -> Board<'s, L, D, R, W, T>
        requires { (share.parts ≡ L.parts) × (share.amount ≡ 0) }
        ensures { empty_places result ≡ 0 }
    {
        let mut board = self.lock.into_inner();
        let mut all = share;
        board.audit(&mut all);
        board
    }

    // Counts a worker that has come.
    fn come(&self, rt: &T) {
        let mut board = self.lock.lock(rt);
        board.come();
    }

    // Puts the cell that was worked on back at its place, if there is one, and takes the next cell with something to do out of its
    // place, under one lock; it wakes one worker where more is left to do. It waits where another worker may still make some: as long
    // as a cell that is there is marked, or a line may be read, one worker is awake and looks.
    fn next(
        &self,
        rt: &T,
        share: &mut Share<L>,
        me: u32,
        done: Option<(Held<'s, D, R, W, T>, Found)>,
    ) -> Result<(Held<'s, D, R, W, T>, Bounds), WorkEnd>
        requires part { 0 < share.old.parts }
        requires held { IfSome done (λ put.
            IsHeld L.names D.moment_of D.left_since D.told D.image D.faults_of R.left R.faults_of W.taken W.faults_of put.0) }
        requires out { MatchOption done (share.old.amount ≡ 0) (λ put. share.old.amount ≡ held_count put.0) }
        ensures parts { share.new.parts ≡ share.old.parts }
        ensures held { IfOk result (λ taken.
            IsHeld L.names D.moment_of D.left_since D.told D.image D.faults_of R.left R.faults_of W.taken W.faults_of taken.0) }
        ensures amount { IfOk result (λ taken. share.new.amount ≡ held_count taken.0) }
        ensures ended { OnErr result (share.new.amount ≡ 0) }
    {
        let mut board = self.lock.lock(rt);
        if let Some((held, found)) = done {
            board.put_back(share, held, found);
        }
        for _ in rt.forever() {
            match board.look(me) {
                Look::Do(job) => {
                    let bounds = board.bounds(job);
                    let held = board.take(share, job);
                    let calls = board.call_one(me);
                    drop(board);
                    if calls {
                        self.changed.notify_one();
                    }
                    return Ok((held, bounds));
                }
                Look::End(end) => {
                    self.changed.notify_all();
                    return Err(end);
                }
                Look::Wait => {
                    board.sleep();
                    board = self.changed.wait(rt, board);
                    board.wake();
                }
            }
        }
        unreachable!()
    }
}

/// Takes cells with something to do out of their places, works on each without the lock, and puts it back, until nothing is left to do and the
/// input has ended or a read of it has failed, or until a worker has met a write fault or want of memory. Each worker has a number `me` of
/// its own, counted from 0.
pub fn work<
    's,
    L: Names,
    D: Disk + Drop,
    R: Source + Drop,
    W: Sink + Drop,
    T: Wait + Copy,
    G: TurnGate,
>(
    rt: &T,
    alloc: Global,
    shared: &Shared<'s, L, D, R, W, T>,
    gate: &G,
    me: u32,
    share: Share<L>,
) -> Worked<L>
    requires { (0 < share.parts) × (share.amount ≡ 0) }
    ensures { (result.share.parts ≡ share.parts) × (result.share.amount ≡ 0) }
{
    let mut share = share;
    let mut done = None;
    shared.come(rt);
    for _ in rt.forever() {
        match shared.next(rt, &mut share, me, done) {
            Ok((held, bounds)) => {
                done = Some(work_on::<L, D, R, W, T, G>(alloc, gate, held, bounds));
            }
            Err(end) => return Worked { end, share },
        }
    }
    unreachable!()
}
