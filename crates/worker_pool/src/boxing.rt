//! What a run works on, behind pointers.
ghost use Rattle.std.specs.Prelude.{◌≡◌, ◌≤◌, ◌+◌, ◌++◌, [], reverse, vec_len, IfOk, IfErr};
ghost use Rattle.std.specs.Vec.{vec_capacity};

use host_workers::{Boxed, Halves};
use line_server::Lines;
use mailbox::Switch;
use object_front::Front;
use output_gate::Back;
use std::alloc::Global;
use std::marker::Model;

/// The halves of a slot, each behind a pointer. Contracts see the halves.
pub(crate) struct BoxedHalves<D> {
    front: Boxed<Front>,
    back: Boxed<Back<D>>,
}

// Written out, so that letting one go is proved once.
impl<D: Drop> Drop for BoxedHalves<D> {
    fn drop(self) {
        let BoxedHalves { front, back } = self;
        drop(front);
        drop(back);
    }
}

impl<D> Model for BoxedHalves<D> {
    ghost use Rattle.host_workers.specs.declared.joining.Halves.{Halves};

    ghost Value = { Halves D };

    ghost use Rattle.std.specs.Coded.{codes};
    ghost use Rattle.std.specs.FinMap.{code as map_code};
    ghost use Rattle.do_value.specs.TreeCode.{tree_code};
    ghost use Rattle.do_value.specs.contracts.value.Value.{the_row as value_row};
    ghost use Rattle.storage_map.specs.contracts.place.Place.{the_row as place_row};
    ghost use Rattle.object_front.specs.contracts.front.Front.{the_row as front_row};

    ghost coded = { Prim.hlevel (codes, map_code, tree_code, value_row.coded, place_row.coded, front_row.coded) };

    ghost view = { λ boxed. record { front = boxed.front; back = boxed.back } };
}

impl<D> BoxedHalves<D> {
    // Puts each half behind a pointer. Where memory is wanting, both are given back.
    fn new(alloc: Global, halves: Halves<D>) -> Result<BoxedHalves<D>, Halves<D>>
        ensures boxed { IfOk result (λ boxed. boxed ≡ halves) }
        ensures back { IfErr result (λ back. back ≡ halves) }
    {
        let Halves { front, back } = halves;
        match Boxed::new(alloc, front) {
            Ok(front) => BoxedHalves::with_front(alloc, front, back),
            Err(front) => Err(Halves { front, back }),
        }
    }

    fn with_front(
        alloc: Global,
        front: Boxed<Front>,
        back: Back<D>,
    ) -> Result<BoxedHalves<D>, Halves<D>>
        ensures boxed { IfOk result (λ boxed. (boxed.front ≡ front) × (boxed.back ≡ back)) }
        ensures back { IfErr result (λ left. (left.front ≡ front) × (left.back ≡ back)) }
    {
        match Boxed::new(alloc, back) {
            Ok(back) => Ok(BoxedHalves { front, back }),
            Err(back) => Err(Halves {
                front: front.into_inner(),
                back,
            }),
        }
    }

    // The halves. It takes no memory.
    fn open(self) -> Halves<D>
        ensures { result ≡ self }
    {
        let BoxedHalves { front, back } = self;
        Halves {
            front: front.into_inner(),
            back: back.into_inner(),
        }
    }

    // The halves as they stand behind their pointers.
    pub(crate) fn into_parts(self) -> (Boxed<Front>, Boxed<Back<D>>)
        ensures { (result.0 ≡ self.front) × (result.1 ≡ self.back) }
    {
        let BoxedHalves { front, back } = self;
        (front, back)
    }
}

/// What a run works on, behind pointers.
pub(crate) struct BoxedRun<D, R, W> {
    pub(crate) slots: Vec<BoxedHalves<D>>,
    pub(crate) switch: Boxed<Switch<W>>,
    pub(crate) lines: Boxed<Lines<R>>,
}

/// The same as it was given.
pub(crate) struct GivenRun<D, R, W> {
    pub(crate) slots: Vec<Halves<D>>,
    pub(crate) switch: Switch<W>,
    pub(crate) lines: Lines<R>,
}

// Puts the halves of each slot, the switch and the reader behind pointers. Where memory is wanting, all are given back.
pub(crate) fn box_run<D: Drop, R: Drop, W: Drop>(
    alloc: Global,
    given: GivenRun<D, R, W>,
    room: Vec<BoxedHalves<D>>,
) -> Result<BoxedRun<D, R, W>, GivenRun<D, R, W>>
    requires none { (room.items ≡ []) × (vec_len room ≡ 0) }
    requires room { vec_len given.slots ≤ vec_capacity room }
    ensures boxed { IfOk result (λ run. (run.slots.items ≡ given.slots.items) × (run.switch ≡ given.switch) × (run.lines ≡ given.lines)) }
    ensures back { IfErr result (λ run. (run.slots.items ≡ given.slots.items) × (run.switch ≡ given.switch) × (run.lines ≡ given.lines)) }
{
    let GivenRun {
        slots,
        switch,
        lines,
    } = given;
    match box_ends(alloc, switch, lines) {
        Ok((switch, lines)) => box_slots(alloc, slots, switch, lines, room),
        Err((switch, lines)) => Err(GivenRun {
            slots,
            switch,
            lines,
        }),
    }
}

// The switch and the reader.
fn box_ends<R: Drop, W: Drop>(
    alloc: Global,
    switch: Switch<W>,
    lines: Lines<R>,
) -> Result<(Boxed<Switch<W>>, Boxed<Lines<R>>), (Switch<W>, Lines<R>)>
    ensures boxed { IfOk result (λ both. (both.0 ≡ switch) × (both.1 ≡ lines)) }
    ensures back { IfErr result (λ both. (both.0 ≡ switch) × (both.1 ≡ lines)) }
{
    match Boxed::new(alloc, switch) {
        Ok(switch) => box_lines(alloc, switch, lines),
        Err(switch) => Err((switch, lines)),
    }
}

fn box_lines<R: Drop, W: Drop>(
    alloc: Global,
    switch: Boxed<Switch<W>>,
    lines: Lines<R>,
) -> Result<(Boxed<Switch<W>>, Boxed<Lines<R>>), (Switch<W>, Lines<R>)>
    ensures boxed { IfOk result (λ both. (both.0 ≡ switch) × (both.1 ≡ lines)) }
    ensures back { IfErr result (λ both. (both.0 ≡ switch) × (both.1 ≡ lines)) }
{
    match Boxed::new(alloc, lines) {
        Ok(lines) => Ok((switch, lines)),
        Err(lines) => Err((switch.into_inner(), lines)),
    }
}

// The halves of each slot, beside what is behind its pointer already.
fn box_slots<D: Drop, R: Drop, W: Drop>(
    alloc: Global,
    slots: Vec<Halves<D>>,
    switch: Boxed<Switch<W>>,
    lines: Boxed<Lines<R>>,
    room: Vec<BoxedHalves<D>>,
) -> Result<BoxedRun<D, R, W>, GivenRun<D, R, W>>
    requires none { (room.items ≡ []) × (vec_len room ≡ 0) }
    requires room { vec_len slots ≤ vec_capacity room }
    ensures boxed { IfOk result (λ run. (run.slots.items ≡ slots.items) × (run.switch ≡ switch) × (run.lines ≡ lines)) }
    ensures back { IfErr result (λ run. (run.slots.items ≡ slots.items) × (run.switch ≡ switch) × (run.lines ≡ lines)) }
{
    match box_all(alloc, slots, room) {
        Ok(slots) => Ok(BoxedRun {
            slots,
            switch,
            lines,
        }),
        Err(slots) => Err(GivenRun {
            slots,
            switch: switch.into_inner(),
            lines: lines.into_inner(),
        }),
    }
}

// From the last slot on.
fn box_all<D: Drop>(
    alloc: Global,
    slots: Vec<Halves<D>>,
    room: Vec<BoxedHalves<D>>,
) -> Result<Vec<BoxedHalves<D>>, Vec<Halves<D>>>
    requires none { (room.items ≡ []) × (vec_len room ≡ 0) }
    requires room { vec_len slots ≤ vec_capacity room }
    ensures boxed { IfOk result (λ all. all.items ≡ slots.items) }
    ensures back { IfErr result (λ all. all.items ≡ slots.items) }
{
    let mut slots = slots;
    let mut boxed = room;
    while let Some(halves) = slots.pop() {
        match BoxedHalves::new(alloc, halves) {
            Ok(halves) => boxed.push_reserved(halves),
            Err(halves) => {
                slots.push_reserved(halves);
                return Err(open_all(slots, boxed));
            }
        }
    }
    boxed.reverse();
    Ok(boxed)
}

// Those halves again, behind the others.
fn open_all<D: Drop>(slots: Vec<Halves<D>>, boxed: Vec<BoxedHalves<D>>) -> Vec<Halves<D>>
    requires room { vec_len slots + vec_len boxed ≤ vec_capacity slots }
    ensures { result.items ≡ slots.items ++ reverse boxed.items }
{
    let mut all = slots;
    let mut boxed = boxed;
    while let Some(halves) = boxed.pop() {
        all.push_reserved(halves.open());
    }
    all
}
