//! How many file objects a layer starts with.
use delortxa::{Boot, BootFault, Pid, Programs, call, explore};
use std::alloc::Global;
use std::test::Fail;

/// A boot of one process and so many counters, each at its number as its path.
fn counters(alloc: Global, count: u32, raised: bool) -> Result<Boot, Fail> {
    let mut boot = Boot::new(alloc).process(1000, 100, 16)?;
    if raised {
        boot = boot.raise_object_limit();
    }
    for number in 0..count {
        let path = format!(in alloc; "{number}")?;
        boot = match boot.counter(path.as_str().as_bytes()) {
            Ok(more) => more,
            Err(_) => return Err(Fail::from("no object")),
        };
    }
    Ok(boot)
}

/// How many objects there are, whether more than 64 were asked for, and whether a layer starts.
const BOOTS: &[(u32, bool, bool)] = &[
    (64, false, true),
    (65, false, false),
    (65, true, true),
    (4096, true, true),
    (4097, true, false),
];

#[test]
fn a_layer_starts_with_64_objects_or_with_4096(rt: HostRuntime) -> Result<(), Fail> {
    for (count, raised, starts) in BOOTS {
        let fault = counters(rt.alloc(), *count, *raised)?.start().err();
        let wanted = (!*starts).then_some(BootFault::TooManyObjects);
        assert_eq!(&rt; fault, wanted);
    }
    Ok(())
}

/// Each order has the objects made anew, as many as before.
#[test]
fn each_order_starts_with_more_than_64_objects(rt: HostRuntime) -> Result<(), Fail> {
    let alloc = rt.alloc();
    let boot = counters(alloc, 65, true)?;
    let programs = Programs::new(alloc).call(Pid(1), call::unlink(alloc, b"64")?)?;
    let Ok(found) = explore(alloc, &boot, &programs, 10) else {
        return Err(Fail::from("not explored"));
    };
    assert!(&rt; found.is_all && found.outcomes.len() == 1);
    for outcome in &found.outcomes {
        let first = outcome.entries().first();
        assert!(&rt; first.is_some_and(|entry| entry.released.parts().0.first() == Some(&64)));
    }
    Ok(())
}
