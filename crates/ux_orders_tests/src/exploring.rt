//! All orders of a script.
use crate::beside::are_same_runs;
use crate::machine::{each_by, found_by, list_of, run_in};
use std::alloc::Global;
use std::test::Fail;
use ux_orders::{Found, Ran, Reduction, read_order};
use ux_types::Pid;

/// More runs than any script here takes.
const MANY: u64 = 10_000;

/// Each call stands wherever it may.
const EXCHANGED: Reduction = Reduction {
    exchanged: true,
    merged: false,
};

/// A script with what its orders come to.
struct Row {
    text: &'static str,
    /// How many orders there are.
    orders: u64,
    /// How many are made where a call that concerns its process alone stands anywhere.
    reduced: u64,
    /// The list of each outcome, as the outcomes are found, and the number of those that are deadlocks.
    outcomes: &'static [&'static str],
    deadlocks: usize,
}

const ROWS: &[Row] = &[
    // Either exit comes first.
    Row {
        text: "proc 1 1 0 4\nproc 1 1 0 4\n1 exit\n2 exit\n",
        orders: 2,
        reduced: 2,
        outcomes: &["1,2"],
        deadlocks: 0,
    },
    // A line and an exit of each: 6 ways to lay two rows of two into one another, and 2 orders of the exits.
    Row {
        text: "proc 1 1 0 4\nproc 1 1 0 4\n1 socket stream -\n2 socket stream -\n",
        orders: 6,
        reduced: 2,
        outcomes: &["1,1,2,2"],
        deadlocks: 0,
    },
    // A process's ids concern it alone, as a new socket does.
    Row {
        text: "serial\nproc 0 0 1 4\nproc 0 0 1 4\n1 setids 1 1\n2 setids 1 1\n",
        orders: 6,
        reduced: 2,
        outcomes: &["1,1,2,2"],
        deadlocks: 0,
    },
    // A line that waits leaves one order.
    Row {
        text: "proc 1 1 0 4\nproc 1 1 0 4\n1 wait 2 1\n1 exit\n2 exit\n",
        orders: 1,
        reduced: 1,
        outcomes: &["2,1"],
        deadlocks: 0,
    },
    // A child's lines begin behind the fork, so only the exits have two orders.
    Row {
        text: "proc 1 1 0 4\n1 fork\n",
        orders: 2,
        reduced: 2,
        outcomes: &["1,1,2"],
        deadlocks: 0,
    },
    // Nobody is there, and the layer is ended.
    Row {
        text: "off\n",
        orders: 1,
        reduced: 1,
        outcomes: &[","],
        deadlocks: 0,
    },
    // One unit is there. Where process 1 takes it, process 2 waits for ever: its open stands before, between or behind
    // the read and the exit, 3 orders. Where process 2 takes it, it gives it back before process 1 can read, and its
    // exit stands before, between or behind the same two, 3 orders.
    Row {
        text: "object p:c counter
proc 1 1 0 4
proc 1 1 0 4
1 open p:c rw -
1 write 0 0100000000000000
1 read 0 8
2 wait 1 2
2 open p:c rw -
2 read 0 8
2 write 0 0100000000000000
",
        orders: 6,
        reduced: 6,
        outcomes: &["1,1,1,1,2", "1,1,2,2,2,1,1,2"],
        deadlocks: 1,
    },
    // Three calls of each of two clients, 20 orders, and then 6 of the exits. A socket stands anywhere, so 6 orders of
    // their binds and connects are left. What comes out is who connects first.
    Row {
        text: "proc 1 1 0 4
proc 1 1 0 4
proc 1 1 0 4
1 socket stream -
1 bind 0 a:server
1 listen 0 2
2 wait 1 3
2 socket stream -
2 bind 0 a:red
2 connect 0 a:server
3 wait 1 3
3 socket stream -
3 bind 0 a:blue
3 connect 0 a:server
1 wait 2 3
1 wait 3 3
1 accept 0 -
1 accept 0 -
2 wait 1 5
3 wait 1 5
",
        orders: 120,
        reduced: 36,
        outcomes: &["1,1,1,2,2,2,3,3,3,1,1,1,2,3", "1,1,1,2,2,3,3,3,2,1,1,1,2,3"],
        deadlocks: 0,
    },
    // An accept and a datagram's receive wait for what comes later.
    Row {
        text: "proc 1 1 0 4
proc 1 1 0 4
1 socket dgram -
1 bind 0 a:d
1 recv 0 1 0 -
1 exit
2 wait 1 2
2 socket dgram -
2 send 0 a:d 78 - -
2 exit
",
        orders: 3,
        reduced: 3,
        outcomes: &["1,1,2,2,1,1,2"],
        deadlocks: 0,
    },
];

/// Whether the outcomes are those of the row.
fn has_outcomes(alloc: Global, found: &Found, row: &Row) -> Result<bool, Fail> {
    if found.outcomes.len() != row.outcomes.len() {
        return Ok(false);
    }
    for (ran, list) in found.outcomes.iter().zip(row.outcomes) {
        if list_of(alloc, ran)?.as_str() != *list {
            return Ok(false);
        }
    }
    let deadlocks = found.outcomes.iter().filter(|ran| ran.is_deadlock());
    Ok(deadlocks.count() == row.deadlocks)
}

#[test]
fn all_orders_and_their_outcomes_are_found(rt: HostRuntime) -> Result<(), Fail> {
    for row in ROWS {
        let each = each_by(rt.alloc(), row.text, MANY)?;
        assert!(rt; each.is_all && each.orders == row.orders);
        assert!(rt; has_outcomes(rt.alloc(), &each, row)?);
    }
    Ok(())
}

#[test]
fn fewer_orders_have_the_same_outcomes(rt: HostRuntime) -> Result<(), Fail> {
    for row in ROWS {
        let reduced = found_by(rt.alloc(), row.text, MANY, EXCHANGED)?;
        assert!(rt; reduced.is_all && reduced.orders == row.reduced);
        assert!(rt; has_outcomes(rt.alloc(), &reduced, row)?);
    }
    Ok(())
}

/// A run for each beginning of an order is begun, and one less leaves something out.
#[test]
fn none_is_left_out_but_at_the_limit(rt: HostRuntime) -> Result<(), Fail> {
    // The beginnings: none, 1, 1 2, 2, 2 1.
    let text = "proc 1 1 0 4\nproc 1 1 0 4\n1 exit\n2 exit\n";
    let whole = each_by(rt.alloc(), text, 5)?;
    assert!(rt; whole.is_all && whole.orders == 2);
    let cut = each_by(rt.alloc(), text, 4)?;
    assert!(rt; !cut.is_all && cut.orders == 1);
    let none = each_by(rt.alloc(), text, 0)?;
    assert!(rt; !none.is_all && none.orders == 0 && none.outcomes.is_empty());
    Ok(())
}

/// Where a file object fails another answer could have come, so nobody can tell that these are all.
#[test]
fn a_failure_leaves_open_what_else_there_is(rt: HostRuntime) -> Result<(), Fail> {
    let text = "object p:f fail 1 mem 61\nproc 1 1 0 4\n1 open p:f r -\n1 read 0 1\n";
    let failed = each_by(rt.alloc(), text, MANY)?;
    assert!(rt; !failed.is_all && failed.orders == 1 && failed.outcomes.len() == 1);
    let sound = "object p:f mem 61\nproc 1 1 0 4\n1 open p:f r -\n1 read 0 1\n";
    assert!(rt; each_by(rt.alloc(), sound, MANY)?.is_all);
    Ok(())
}

/// In each row orders with the same replies, or with the same processes in the same lines, end in the same state.
#[test]
fn orders_that_meet_go_on_as_one(rt: HostRuntime) -> Result<(), Fail> {
    for row in ROWS {
        let merged = found_by(rt.alloc(), row.text, MANY, Reduction::all())?;
        assert!(rt; merged.is_all && merged.orders == row.outcomes.len() as u64);
        assert!(rt; has_outcomes(rt.alloc(), &merged, row)?);
    }
    Ok(())
}

/// Process 1 sends each of two clients a message with two rights, in the order in which they connected, and tells of user
/// 5 both times; it is user 7 the first time, and 8 the second. The second client never receives its message. Process 4,
/// of user 7, may have two rights in flight.
const SENT_AS_TWO: &str = "serial
proc 7 7 1 8
proc 1 1 0 4
proc 1 1 0 4
proc 7 7 0 2
2 socket stream -
3 wait 2 1
3 socket stream -
1 wait 3 1
1 socket stream -
1 bind 0 a:server
1 listen 0 2
2 wait 1 3
2 connect 0 a:server
3 wait 1 3
3 connect 0 a:server
1 wait 2 2
1 wait 3 2
1 accept 0 -
1 accept 0 -
1 send 1 - 78 c:1,5,5+r:0,0 -
1 setids 8 8
1 send 2 - 78 c:1,5,5+r:0,0 -
1 close 1
1 close 2
2 wait 1 10
2 recv 0 1 0 -
4 wait 2 3
4 pair stream -
4 send 0 - 78 r:0 -
4 exit
2 wait 4 3
2 exit
3 wait 2 4
3 exit
1 wait 3 3
1 exit
";

/// Where process 2 connects first, the two rights in flight are user 8's, and process 4 may pass one. Where process 3
/// does, they are user 7's. Nothing else differs once process 1 has closed its ends.
#[test]
fn messages_differ_by_whose_rights_are_in_flight(rt: HostRuntime) -> Result<(), Fail> {
    let each = each_by(rt.alloc(), SENT_AS_TWO, MANY)?;
    assert!(rt; each.is_all && each.orders == 2 && each.outcomes.len() == 2);
    let merged = found_by(rt.alloc(), SENT_AS_TWO, MANY, Reduction::all())?;
    assert!(rt; merged.is_all && merged.orders == 2);
    assert!(rt; are_same_runs(rt.alloc(), &each.outcomes, &merged.outcomes)?);
    Ok(())
}

/// Three processes take two semaphores each, which begin at 1: the lines 13, 20 and 27 take the first, the lines behind
/// them the second, which is another's first.
const ROUND: &str = "object p:a counter
object p:b counter
object p:c counter
proc 1 1 0 4
proc 1 1 0 4
proc 1 1 0 4
1 open p:a rw -
1 open p:b rw -
1 open p:c rw -
1 write 0 0100000000000000
1 write 1 0100000000000000
1 write 2 0100000000000000
1 read 0 8
1 read 1 8
1 write 1 0100000000000000
1 write 0 0100000000000000
2 wait 1 6
2 open p:b rw -
2 open p:c rw -
2 read 0 8
2 read 1 8
2 write 1 0100000000000000
2 write 0 0100000000000000
3 wait 1 6
3 open p:c rw -
3 open p:a rw -
3 read 0 8
3 read 1 8
3 write 1 0100000000000000
3 write 0 0100000000000000
";

/// Of millions of orders those end in a deadlock in which each takes its first before another takes its second.
#[test]
fn a_deadlock_among_many_orders_is_found_and_made_again(rt: HostRuntime) -> Result<(), Fail> {
    let found = found_by(rt.alloc(), ROUND, MANY, Reduction::all())?;
    assert!(rt; found.is_all && found.orders == 2 && found.outcomes.len() == 2);
    let deadlock = "1,1,1,1,1,1,1,2,2,2,3,3,3";
    let Some(told) = found.outcomes.iter().find(|ran| ran.is_deadlock()) else {
        return Err(Fail::from("no deadlock"));
    };
    assert_eq!(rt; list_of(rt.alloc(), told)?.as_str(), deadlock);
    let Some(mut order) = read_order(rt.alloc(), deadlock)? else {
        return Err(Fail::from("no order"));
    };
    let Ran::Deadlock(entries, waits) = run_in(rt.alloc(), ROUND, &mut order)? else {
        return Err(Fail::from("no deadlock"));
    };
    assert!(rt; entries.len() == 13);
    assert!(rt; waits.as_slice() == [(Pid(1), 14), (Pid(2), 21), (Pid(3), 28)].as_slice());
    Ok(())
}

/// A write that has to wait for room isn't made until there is some, so an object whose third read or write fails counts
/// none before: the counter's first write, the read that makes room, and then the write that waited, which fails. Behind
/// the read process 2's exit stands before, between or behind the write and process 1's exit, 3 orders.
const WAITS_FOR_ROOM: &str = "object p:c fail 3 counter
proc 1 1 0 4
1 open p:c rw -
1 write 0 feffffffffffffff
1 fork
1 write 0 0100000000000000
2 read 0 8
";

#[test]
fn a_write_that_waits_for_room_does_not_reach_a_failing_object(
    rt: HostRuntime,
) -> Result<(), Fail> {
    let each = each_by(rt.alloc(), WAITS_FOR_ROOM, MANY)?;
    assert!(rt; each.orders == 3 && ends_once(rt.alloc(), &each, "1,1,1,2,1,1,2")?);
    let merged = found_by(rt.alloc(), WAITS_FOR_ROOM, MANY, Reduction::all())?;
    assert!(rt; ends_once(rt.alloc(), &merged, "1,1,1,2,1,1,2")?);
    let Some(mut order) = read_order(rt.alloc(), "1,1,1,2,1,1,2")? else {
        return Err(Fail::from("no order"));
    };
    let ran = run_in(rt.alloc(), WAITS_FOR_ROOM, &mut order)?;
    assert!(rt; matches!(ran, Ran::Whole(_)));
    Ok(())
}

/// Whether there is one outcome, by this list, and it is no deadlock.
fn ends_once(alloc: Global, found: &Found, list: &str) -> Result<bool, Fail> {
    match found.outcomes.as_slice() {
        [ran] => Ok(!ran.is_deadlock() && list_of(alloc, ran)?.as_str() == list),
        _ => Ok(false),
    }
}

/// Process 2 reads the counter before or behind the write, and then waits for ever at a pipe to which it could write itself.
const ANSWERED_TWO_WAYS: &str = "object p:c counter
object p:q pipe
proc 1 1 0 8
1 open p:c rw n
1 open p:q rw -
1 fork
1 write 0 0100000000000000
2 read 0 8
2 read 1 1
";

/// Both ways end in the same deadlock, and each has its own run, so what was answered before is never lost.
#[test]
fn a_deadlock_has_a_run_for_each_way_in_which_it_was_answered(rt: HostRuntime) -> Result<(), Fail> {
    let each = each_by(rt.alloc(), ANSWERED_TWO_WAYS, MANY)?;
    assert!(rt; each.is_all && each.outcomes.len() == 2);
    assert!(rt; each.outcomes.iter().all(|ran| ran.is_deadlock()));
    let merged = found_by(rt.alloc(), ANSWERED_TWO_WAYS, MANY, Reduction::all())?;
    assert!(rt; merged.is_all && are_same_runs(rt.alloc(), &each.outcomes, &merged.outcomes)?);
    Ok(())
}
