//! Runs in one order.
use crate::machine::{list_of, run_by, run_in};
use std::test::Fail;
use ux_orders::{Draw, Order, Ran, read_order};
use ux_types::Pid;

/// Two processes with a socket each.
const SOCKETS: &str = "proc 1000 1000 0 16
proc 1000 1000 0 16
1 socket stream -
2 socket stream -
";

/// What is written is made, and behind it the lowest goes on.
#[test]
fn an_order_that_is_written_is_made(rt: HostRuntime) -> Result<(), Fail> {
    for (text, made) in [
        (",", "1,1,2,2"),
        ("2,", "2,1,1,2"),
        ("2,1", "2,1,1,2"),
        ("2,2,1", "2,2,1,1"),
        ("1,2,2,1", "1,2,2,1"),
    ] {
        let Some(mut order) = read_order(rt.alloc(), text)? else {
            return Err(Fail::from("no order"));
        };
        let ran = run_in(rt.alloc(), SOCKETS, &mut order)?;
        assert!(rt; matches!(ran, Ran::Whole(_)));
        assert_eq!(rt; list_of(rt.alloc(), &ran)?.as_str(), made);
    }
    Ok(())
}

/// A process that isn't there, or has exited, or waits, makes no line: the run ends before it.
#[test]
fn an_order_that_cannot_be_made_ends_before_its_place(rt: HostRuntime) -> Result<(), Fail> {
    for (text, made) in [
        ("3,", ","),
        ("1,1,1", "1,1"),
        ("2,0,1", "2,"),
        ("1,2,2,2", "1,2,2"),
        ("1,1,2,2,2", "1,1,2,2"),
    ] {
        let Some(mut order) = read_order(rt.alloc(), text)? else {
            return Err(Fail::from("no order"));
        };
        let ran = run_in(rt.alloc(), SOCKETS, &mut order)?;
        assert!(rt; ran.is_broken_off());
        assert_eq!(rt; list_of(rt.alloc(), &ran)?.as_str(), made);
    }
    Ok(())
}

/// Process 1 waits in line 3, process 2 in line 4, at once.
#[test]
fn a_deadlock_names_who_waits_in_which_line(rt: HostRuntime) -> Result<(), Fail> {
    let text = "proc 1 1 0 4\nproc 1 1 0 4\n1 wait 2 1\n2 wait 1 1\n";
    let ran = run_by(rt.alloc(), text, &mut Draw::new(7))?;
    let Ran::Deadlock(entries, waits) = ran else {
        return Err(Fail::from("no deadlock"));
    };
    assert!(rt; entries.is_empty());
    assert!(rt; waits.as_slice() == [(Pid(1), 3), (Pid(2), 4)].as_slice());
    Ok(())
}

/// The first numbers that are drawn for 0 are 167951807, 218396424 and 1299921937, for 1 they are 908834774, 1093944153
/// and 1392341196. Divided by how many may go on, two each time, they leave 1, 0, 1 and 0, 1, 0.
#[test]
fn a_number_stands_for_one_order(rt: HostRuntime) -> Result<(), Fail> {
    for (seed, made) in [(0, "2,1,2,1"), (1, "1,2,1,2")] {
        let ran = run_by(rt.alloc(), SOCKETS, &mut Draw::new(seed))?;
        assert_eq!(rt; list_of(rt.alloc(), &ran)?.as_str(), made);
    }
    Ok(())
}

/// Numbers are written as in scripts, and a list has a comma at least.
#[test]
fn what_is_no_order_is_refused(rt: HostRuntime) -> Result<(), Fail> {
    for text in [
        "",
        "x",
        "01",
        "+1",
        "1,,2",
        "1,2,,",
        ",,",
        "1, 2",
        "4294967296,",
        "18446744073709551616",
    ] {
        assert!(rt; read_order(rt.alloc(), text)?.is_none());
    }
    assert!(rt;
        matches!(
            read_order(rt.alloc(), "18446744073709551615")?,
            Some(Order::Drawn(_))
        )
    );
    Ok(())
}
