//! What a run has left.
ghost use Rattle.do_tree.specs.Checked.{tree_of as script_in};
ghost use Rattle.std.specs.List.{All};
ghost use Rattle.object_core.specs.One.{CanRun};

use do_disk::{Disk, Sink, Source};
use do_tree::Checked;
use lane::Inlet;
use object_core::{Choice, Core};
use std::alloc::Global;
use std::test::Fail;
use worker_pool::Ran;

/// The sink, and how many things are left to do: steps of objects, messages and lines that wait, halves that aren't joined.
#[derive(Drop)]
pub(crate) struct Left<W> {
    pub(crate) sink: W,
    pub(crate) things: usize,
}

// 1 where there is something.
fn one<X: Drop>(thing: Option<X>) -> usize {
    if thing.is_some() { 1 } else { 0 }
}

// 1 where the step did something, or couldn't.
fn step<D: Disk>(alloc: Global, checked: &Checked, core: &mut Core<D>, choice: Choice) -> usize
    requires { CanRun D.moment_of D.left_since D.told D.image D.faults_of (script_in checked.now) core.old }
    ensures { CanRun D.moment_of D.left_since D.told D.image D.faults_of (script_in checked.now) core.new }
{
    match core.step(alloc, checked, choice) {
        Ok(false) => 0,
        _ => 1,
    }
}

// What is left to do in an object.
fn undone_in<D: Disk + Drop>(alloc: Global, checked: &Checked, core: Core<D>) -> usize
    requires { CanRun D.moment_of D.left_since D.told D.image D.faults_of (script_in checked.now) core }
{
    let mut core = core;
    let turns = step(alloc, checked, &mut core, Choice::Turn);
    let takes = step(alloc, checked, &mut core, Choice::Take);
    let flushes = step(alloc, checked, &mut core, Choice::Flush);
    let releases = step(alloc, checked, &mut core, Choice::Release);
    let mends = step(alloc, checked, &mut core, Choice::Mend);
    let message = one(core.collect());
    turns
        .wrapping_add(takes)
        .wrapping_add(flushes)
        .wrapping_add(releases)
        .wrapping_add(mends)
        .wrapping_add(message)
}

// What is left to do in all objects.
fn undone_in_all<D: Disk + Drop>(alloc: Global, checked: &Checked, cores: Vec<Core<D>>) -> usize
    requires { All (CanRun D.moment_of D.left_since D.told D.image D.faults_of (script_in checked.now)) cores.items }
{
    let mut things: usize = 0;
    for core in cores {
        things = things.wrapping_add(undone_in(alloc, checked, core));
    }
    things
}

/// Takes what a run has left apart.
pub(crate) fn undone<D: Disk + Drop, R: Source + Drop, W: Sink + Drop>(
    alloc: Global,
    checked: &Checked,
    ran: Ran<D, R, W>,
) -> Result<Left<W>, Fail>
    requires { All (CanRun D.moment_of D.left_since D.told D.image D.faults_of (script_in checked.now)) ran.cores.items }
{
    let Ran {
        end,
        cores,
        apart,
        switch,
        kept,
        lines: _lines,
        rest,
    } = ran;
    if end.is_err() {
        return Err("the run has stopped")?;
    }
    let mut rest = rest;
    let objects = undone_in_all(alloc, checked, cores);
    let things = objects
        .wrapping_add(one(kept))
        .wrapping_add(one(rest.take()))
        .wrapping_add(apart.len());
    let (sink, _log) = switch.into_parts();
    Ok(Left { sink, things })
}
