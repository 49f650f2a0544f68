//! Scripts that are put together at random, with what their orders come to.
use crate::beside::are_same_runs;
use crate::machine::{each_by, found_by};
use std::alloc::Global;
use std::test::Fail;
use ux_orders::{Found, Reduction};

/// How many scripts of each family are made.
const EACH: u64 = 50;

/// More runs than any script here takes.
const MANY: u64 = 1_000_000;

/// A number generator (D. E. Knuth, MMIX), so that the scripts are the same each time.
#[derive(Clone, Copy)]
struct Dice {
    state: u64,
}

impl Dice {
    /// One of these.
    fn pick(&mut self, faces: &'static [&'static str]) -> &'static str {
        self.state = self
            .state
            .wrapping_mul(6_364_136_223_846_793_005)
            .wrapping_add(1_442_695_040_888_963_407);
        let drawn = (self.state >> 33) as usize;
        match drawn.checked_rem(faces.len()) {
            Some(face) => faces[face],
            None => "",
        }
    }
}

/// The place of a line in a script: the process, and what it may ask for.
type Slot = (u32, &'static [&'static str]);

/// Scripts of three processes with a few lines each.
#[derive(Clone, Copy)]
struct Family {
    header: &'static str,
    slots: &'static [Slot],
}

const SHARED_PAIR: &[&str] = &[
    "send 0 - 78 - -",
    "send 0 - 78 - -",
    "send 0 - 797a - -",
    "send 1 - 77 - -",
    "send 0 - 7a r:1 -",
    "recv 1 1 0 -",
    "recv 1 2 24 -",
    "recv 0 8 0 d",
    "recv 1 1 24 d",
    "close 0",
    "close 1",
    "shut 1 w",
    "shut 0 r",
    "dup 0",
    "poll 1",
    "polls 1:i wait",
    "polls 0:i,1:oh now",
    "setopt 1 passcred 1",
];

/// A pair that two children have too.
const FORKED: Family = Family {
    header: "proc 1 1 0 8\n",
    slots: &[
        (1, &["pair stream -", "pair seq -", "pair dgram -"]),
        (1, &["fork"]),
        (1, &["fork"]),
        (
            1,
            &["exit", "recv 1 1 0 -", "send 0 - 78 - -", "send 0 - 77 - -"],
        ),
        (2, SHARED_PAIR),
        (2, SHARED_PAIR),
        (2, SHARED_PAIR),
        (2, &["exit"]),
        (3, SHARED_PAIR),
        (3, SHARED_PAIR),
        (3, SHARED_PAIR),
        (3, &["exit"]),
    ],
};

const CLIENT: &[&str] = &[
    "exit",
    "exit",
    "send 0 - 78 - -",
    "recv 0 1 0 -",
    "bind 0 a:red",
    "close 0",
    "shut 0 w",
    "connect 0 a:server",
    "polls 0:ih wait",
    "listen 0 1",
];

/// A listener with two clients.
const CONNECTED: Family = Family {
    header: "proc 1 1 0 8\nproc 1 1 0 8\nproc 1 1 0 2\n",
    slots: &[
        (1, &["socket stream -", "socket seq -"]),
        (1, &["bind 0 a:server", "bind 0 p:server"]),
        (1, &["listen 0 1", "listen 0 2"]),
        (
            1,
            &["accept 0 -", "accept 0 -", "polls 0:i wait", "close 0"],
        ),
        (2, &["wait 1 2", "wait 1 3", "wait 1 3"]),
        (2, &["socket stream -", "socket stream n"]),
        (2, &["connect 0 a:server", "connect 0 p:server"]),
        (2, CLIENT),
        (3, &["wait 1 3", "wait 2 2", "wait 1 3"]),
        (3, &["socket stream -", "socket stream n"]),
        (3, &["connect 0 a:server", "connect 0 p:server"]),
        (3, CLIENT),
    ],
};

const OPENED: &[&str] = &[
    "open p:count rw -",
    "open p:count rw n",
    "open p:count rw -",
    "open p:tokens rw -",
    "open p:notes rw -",
    "open p:notes rw a",
];

const USED: &[&str] = &[
    "read 0 8",
    "read 0 8",
    "write 0 0100000000000000",
    "write 0 0100000000000000",
    "write 0 61",
    "read 0 1",
    "polls 0:i wait",
    "lseek 0 1 set",
    "unlink p:notes",
    "close 0",
    "dup 0",
];

/// A counter, a pipe and a memory file, which fails once.
const FILED: Family = Family {
    header: "object p:count counter\nobject p:tokens pipe\nobject p:notes fail 2 mem 616263\n\
             proc 1 1 0 4\nproc 1 1 0 4\nproc 1 1 0 4\n",
    slots: &[
        (1, OPENED),
        (1, USED),
        (1, USED),
        (1, &["exit"]),
        (2, &["wait 1 1", "wait 1 2"]),
        (2, OPENED),
        (2, USED),
        (2, &["exit"]),
        (3, &["wait 1 1", "wait 2 1"]),
        (3, OPENED),
        (3, USED),
        (3, &["exit"]),
    ],
};

/// A file that is passed to a child, while another process has it open.
const PASSED: Family = Family {
    header: "object p:notes mem 616263\nproc 1 1 0 8\nproc 1 1 0 8\n",
    slots: &[
        (1, &["pair stream -", "pair seq -", "pair dgram -"]),
        (1, &["fork"]),
        (1, &["open p:notes rw -", "open p:notes r -"]),
        (
            1,
            &[
                "send 0 - 78 r:2 -",
                "send 0 - 78 r:2,1 -",
                "send 1 - 78 r:1 -",
            ],
        ),
        (3, &["recv 1 1 20 -", "recv 1 1 24 -", "close 0"]),
        (3, &["write 2 7a", "read 2 2", "close 2", "recv 0 1 24 -"]),
        (3, &["close 1", "close 2", "dup 2"]),
        (3, &["exit"]),
        (2, &["wait 1 2", "wait 1 3"]),
        (2, &["open p:notes rw -", "unlink p:notes"]),
        (2, &["write 0 79", "read 0 1", "unlink p:notes"]),
        (2, &["exit"]),
    ],
};

const BECOME: &[&str] = &[
    "setids 1 1",
    "setids 0 5",
    "setids 7 7",
    "setids 1 1",
    "send 0 - 78 r:1 -",
    "send 0 - 78 r:1,1,1,1 -",
    "send 0 - 78 c:1,1,1+r:1 -",
    "send 0 - 78 c:1,1,1 -",
    "recv 1 1 32 -",
    "recv 1 1 0 d",
    "setopt 1 passcred 1",
    "pair dgram -",
    "getopt 2 peercred",
    "close 0",
];

/// Processes with a pair in common, which become other users.
const USERS: Family = Family {
    header: "serial\nproc 0 0 1 4\n",
    slots: &[
        (1, &["pair stream -", "pair seq -", "pair dgram -"]),
        (1, &["setids 0 5", "setids 0 5", "setids 1 1"]),
        (1, &["fork"]),
        (1, &["fork"]),
        (2, BECOME),
        (2, BECOME),
        (2, &["exit"]),
        (3, BECOME),
        (3, BECOME),
        (3, &["exit"]),
    ],
};

const USE_MADE: &[&str] = &[
    "send 0 - 78 r:2 -",
    "send 0 - 78 r:2 -",
    "send 0 - 78 r:2 -",
    "write 2 0100000000000000",
    "close 2",
];

/// Two children that make file objects, and pass them to their parent.
const MADE: Family = Family {
    header: "serial\nproc 1 1 0 8\n",
    slots: &[
        (1, &["pair seq -", "pair dgram -"]),
        (1, &["fork"]),
        (1, &["fork"]),
        (1, &["recv 1 1 24 -"]),
        (1, &["recv 1 1 24 -", "recv 1 1 24 -", "close 2"]),
        (1, &["read 2 8"]),
        (1, &["close 2"]),
        (
            2,
            &[
                "eventfd 5 -",
                "eventfd 5 -",
                "memfd -",
                "create p:made rw -",
            ],
        ),
        (2, USE_MADE),
        (2, &["exit"]),
        (
            3,
            &["eventfd 7 -", "eventfd 7 s", "pipe -", "create p:made rw -"],
        ),
        (3, USE_MADE),
        (3, &["exit"]),
    ],
};

const ASK_AND_SEND: &[&str] = &[
    "inq 1",
    "inq 1",
    "inq 0",
    "outq 0",
    "outq 0",
    "send 0 - 78 - -",
    "send 0 - 797a - -",
    "recv 1 1 0 d",
    "close 1",
];

/// A pair that two children ask how much waits there.
const WAITING: Family = Family {
    header: "serial\nproc 1 1 0 8\n",
    slots: &[
        (1, &["pair stream -", "pair seq -", "pair dgram -"]),
        (1, &["fork"]),
        (1, &["fork"]),
        (1, &["exit", "send 0 - 78 - -", "inq 1"]),
        (2, ASK_AND_SEND),
        (2, ASK_AND_SEND),
        (2, ASK_AND_SEND),
        (2, &["exit"]),
        (3, ASK_AND_SEND),
        (3, ASK_AND_SEND),
        (3, ASK_AND_SEND),
        (3, &["exit"]),
    ],
};

/// A script of a family.
fn script_of(alloc: Global, family: &Family, dice: &mut Dice) -> Result<String, Fail> {
    let mut text = String::from_str(alloc, family.header)?;
    for slot in family.slots {
        let pid = slot.0;
        let words = dice.pick(slot.1);
        let line = format!(in alloc; "{pid} {words}\n")?;
        text.push_str(line.as_str())?;
    }
    Ok(text)
}

/// What the scripts of a family have had.
#[derive(Clone, Copy)]
struct Seen {
    /// How many have a deadlock in some order, and not in all.
    deadlocks: u64,
    /// How many have several outcomes.
    several: u64,
    /// How many orders all have together.
    orders: u64,
    /// How many were made to their end where those that meet go on as one.
    made: u64,
}

impl Seen {
    fn add(&mut self, orders: u64, found: &Found) {
        let deadlocks = found
            .outcomes
            .iter()
            .filter(|ran| ran.is_deadlock())
            .count();
        if deadlocks > 0 && deadlocks < found.outcomes.len() {
            self.deadlocks = self.deadlocks.saturating_add(1);
        }
        if found.outcomes.len() > 1 {
            self.several = self.several.saturating_add(1);
        }
        self.orders = self.orders.saturating_add(orders);
        self.made = self.made.saturating_add(found.orders);
    }
}

/// Compares what is found of each script of a family, with each reduction, with all of its orders: the same outcomes,
/// and of each the order with the smallest list.
fn compare(alloc: Global, family: &Family) -> Result<Seen, Fail> {
    let mut dice = Dice { state: 57 };
    let mut seen = Seen {
        deadlocks: 0,
        several: 0,
        orders: 0,
        made: 0,
    };
    for _ in 0..EACH {
        let text = script_of(alloc, family, &mut dice)?;
        let each = each_by(alloc, text.as_str(), u64::MAX)?;
        let merged = found_by(alloc, text.as_str(), MANY, MERGED)?;
        let found = found_by(alloc, text.as_str(), MANY, Reduction::all())?;
        if !are_same_runs(alloc, &each.outcomes, &found.outcomes)?
            || !are_same_runs(alloc, &each.outcomes, &merged.outcomes)?
            || found.orders != merged.orders
        {
            return Err(Fail::from("other outcomes"));
        }
        seen.add(each.orders, &found);
    }
    Ok(seen)
}

/// Orders that meet go on as one, and nothing else is left out.
const MERGED: Reduction = Reduction {
    exchanged: false,
    merged: true,
};

/// Whether some scripts have several outcomes, and fewer orders were made than there are.
fn is_seen(seen: &Seen) -> bool {
    seen.several > 0 && seen.made < seen.orders
}

#[test]
fn children_with_one_pair(rt: HostRuntime) -> Result<(), Fail> {
    let seen = compare(rt.alloc(), &FORKED)?;
    assert!(rt; is_seen(&seen));
    Ok(())
}

#[test]
fn clients_of_one_listener(rt: HostRuntime) -> Result<(), Fail> {
    let seen = compare(rt.alloc(), &CONNECTED)?;
    assert!(rt; is_seen(&seen));
    Ok(())
}

#[test]
fn users_of_the_same_files(rt: HostRuntime) -> Result<(), Fail> {
    let seen = compare(rt.alloc(), &FILED)?;
    assert!(rt; is_seen(&seen));
    Ok(())
}

#[test]
fn holders_of_a_passed_file(rt: HostRuntime) -> Result<(), Fail> {
    let seen = compare(rt.alloc(), &PASSED)?;
    assert!(rt; is_seen(&seen) && seen.deadlocks > 0);
    Ok(())
}

#[test]
fn users_of_the_same_pair(rt: HostRuntime) -> Result<(), Fail> {
    let seen = compare(rt.alloc(), &USERS)?;
    assert!(rt; is_seen(&seen));
    Ok(())
}

#[test]
fn askers_of_what_waits(rt: HostRuntime) -> Result<(), Fail> {
    let seen = compare(rt.alloc(), &WAITING)?;
    assert!(rt; is_seen(&seen));
    Ok(())
}

#[test]
fn makers_of_file_objects(rt: HostRuntime) -> Result<(), Fail> {
    let seen = compare(rt.alloc(), &MADE)?;
    assert!(rt; is_seen(&seen));
    Ok(())
}
