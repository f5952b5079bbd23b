use do_value::Text;
use placement::{Directory, PlaceFault, Placed, home};
use std::alloc::Global;
use std::test::*;
use storage_map::Identity;

fn object(alloc: Global, class: &str, name: &str) -> Result<Identity, Fail> {
    let object = Identity::new(Text::new(alloc, class)?, Text::new(alloc, name)?);
    Ok(object.ok_or("a long name")?)
}

// That memory is no cause of a refusal where there is enough, no clause can say.
#[test]
fn ample_memory_places_objects(rt: HostRuntime) -> Result<(), Fail> {
    let alloc = rt.alloc();
    let adopted = object(alloc, "C", "a")?;
    let mut directory = Directory::new(alloc, 4);
    assert_eq!(rt; directory.adopt(1, adopted), Ok(()));
    for (class, name, placed) in [
        ("C", "b", Ok(Placed::New(0))),
        ("C", "a", Ok(Placed::Found(1))),
        ("a", "C", Ok(Placed::New(2))),
        ("Ca", "", Ok(Placed::New(3))),
        ("", "Ca", Err(PlaceFault::NoSlot { slots: 4 })),
        ("a", "C", Ok(Placed::Found(2))),
    ] {
        let to = object(alloc, class, name)?;
        assert_eq!(rt; directory.slot_of(&to), placed, "{class} {name}");
    }
    Ok(())
}

// Against Python's hashlib: the first four bytes of sha256(class + b"\0" + name), greatest first, modulo the number of workers.
#[test]
fn homes_are_those_of_an_outside_tool(rt: HostRuntime) {
    for (class, name, workers, worker) in [
        ("C", "a", 1, 0),
        ("C", "a", 4_294_967_295, 400_108_278),
        ("Counter", "x", 4, 3),
        ("", "", 4_294_967_295, 1_848_904_604),
        ("Ca", "", 256, 8),
        ("", "Ca", 256, 130),
        ("C", "ä", 7, 3),
    ] {
        assert_eq!(rt; home(class, name, workers), worker, "{class} {name}");
    }
}
