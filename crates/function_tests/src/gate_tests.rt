use do_disk::{HoldGate, TurnGate};
use std::test::Fail;
use std::thread::join;

#[test]
fn on_one_thread_the_first_object_is_held_in_vain(rt: HostRuntime) -> Result<(), Fail> {
    let gate = HoldGate::new(0, 1, 1000);
    for object in [0, 1, 0] {
        gate.enter(object);
        gate.leave(object);
    }
    assert!(rt; !gate.met());
    Ok(())
}

#[test]
fn an_object_that_has_entered_is_not_waited_for(rt: HostRuntime) -> Result<(), Fail> {
    let gate = HoldGate::new(7, 5, 1);
    for object in [5, 6, 7] {
        gate.enter(object);
        gate.leave(object);
    }
    assert!(rt; gate.met());
    Ok(())
}

// A worker that runs one object's turns.
fn run_one<G: TurnGate + Sync>(gate: &G, object: u32) {
    gate.enter(object);
    gate.leave(object);
}

#[test]
fn two_threads_meet(rt: HostRuntime) -> Result<(), Fail> {
    let gate = HoldGate::new(0, 1, 10_000_000_000);
    join(&rt, || run_one(&gate, 0), || run_one(&gate, 1));
    assert!(rt; gate.met());
    Ok(())
}
