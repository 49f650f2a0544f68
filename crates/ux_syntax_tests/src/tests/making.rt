//! Lines that make a file object: what each asks for, and which are at fault.
use super::{expect_faults, expect_request};
use std::alloc::Global;
use std::process::Abort;
use std::test::*;
use ux_types::{Mode, Name, OpenFlags, Request};

/// Sees that a call creates a file at a path.
fn expect_creation(
    rt: &impl Abort,
    alloc: Global,
    call: &str,
    path: &[u8],
    mode: Mode,
    flags: OpenFlags,
) -> Result<(), Fail> {
    let path = Name::from_slice(alloc, path)?;
    expect_request(rt, alloc, call, Request::Create { path, mode, flags })
}

#[test]
fn creations_of_files_are_read(rt: HostRuntime) -> Result<(), Fail> {
    let alloc = rt.alloc();
    let anx = OpenFlags(7);
    expect_creation(&rt, alloc, "create p:f rw anx", b"f", Mode::Both, anx)?;
    let none = OpenFlags(0);
    expect_creation(&rt, alloc, "create p:a%20b w -", b"a b", Mode::Write, none)?;
    expect_creation(&rt, alloc, "create p: r -", b"", Mode::Read, none)?;
    let flags = OpenFlags::CLOEXEC;
    expect_request(&rt, alloc, "memfd x", Request::MemFd { flags })?;
    expect_request(&rt, alloc, "memfd -", Request::MemFd { flags: none })
}

/// Sees that a call makes a counter with this value, and whether as a semaphore.
fn expect_counter(
    rt: &impl Abort,
    alloc: Global,
    call: &str,
    value: u32,
    semaphore: bool,
    flags: OpenFlags,
) -> Result<(), Fail> {
    let made = Request::EventFd {
        value,
        semaphore,
        flags,
    };
    expect_request(rt, alloc, call, made)
}

/// Calls that make a counter: the value, whether it is a semaphore, and the bits of the flags.
const COUNTERS: &[(&str, u32, bool, u8)] = &[
    ("eventfd 0 -", 0, false, 0),
    ("eventfd 4294967295 nx", 4294967295, false, 6),
    ("eventfd 0 s", 0, true, 0),
    ("eventfd 1 as", 1, true, 1),
    ("eventfd 1 ns", 1, true, 2),
    ("eventfd 1 xs", 1, true, 4),
    ("eventfd 4294967295 anxs", 4294967295, true, 7),
];

#[test]
fn counters_and_pipes_are_read(rt: HostRuntime) -> Result<(), Fail> {
    let alloc = rt.alloc();
    let (none, nx) = (OpenFlags(0), OpenFlags(6));
    for (call, value, semaphore, flags) in COUNTERS {
        expect_counter(&rt, alloc, call, *value, *semaphore, OpenFlags(*flags))?;
    }
    expect_request(&rt, alloc, "pipe nx", Request::Pipe { flags: nx })?;
    expect_request(&rt, alloc, "pipe -", Request::Pipe { flags: none })
}

/// Lines behind a line `serial` and a process, and the fault of the script.
const LINES: &[(&str, &str)] = &[
    ("1 create p:f r -", ""),
    ("1 create p:f rw anx\n1 create p:f w -", ""),
    ("1 memfd anx", ""),
    ("1 eventfd 4294967295 -", ""),
    ("1 pipe anx", ""),
    ("1 fork\n2 pipe -", ""),
    ("1 create", "line 3: bad line"),
    ("1 create p:f", "line 3: bad line"),
    ("1 create p:f rw", "line 3: bad line"),
    ("1 create p:f rw - -", "line 3: bad line"),
    ("1 create u rw -", "line 3: bad line"),
    ("1 create a:f rw -", "line 3: bad line"),
    ("1 create f rw -", "line 3: bad line"),
    ("1 create p:f wr -", "line 3: bad line"),
    ("1 create p:f - -", "line 3: bad line"),
    ("1 create p:f rw na", "line 3: bad line"),
    ("1 create p:%61 rw -", "line 3: bad line"),
    ("1 memfd", "line 3: bad line"),
    ("1 memfd p:f -", "line 3: bad line"),
    ("1 memfd - -", "line 3: bad line"),
    ("1 memfd d", "line 3: bad line"),
    ("1 memfd ", "line 3: bad line"),
    ("1 eventfd", "line 3: bad line"),
    ("1 eventfd 0", "line 3: bad line"),
    ("1 eventfd -", "line 3: bad line"),
    ("1 eventfd - -", "line 3: bad line"),
    ("1 eventfd -1 -", "line 3: bad line"),
    ("1 eventfd 00 -", "line 3: bad line"),
    ("1 eventfd 4294967296 -", "line 3: bad line"),
    ("1 eventfd 0 - -", "line 3: bad line"),
    ("1 eventfd 0 s", ""),
    ("1 eventfd 0 sx", "line 3: bad line"),
    ("1 eventfd 0 ss", "line 3: bad line"),
    ("1 eventfd 0 -s", "line 3: bad line"),
    ("1 eventfd 0 s-", "line 3: bad line"),
    ("1 eventfd 0 S", "line 3: bad line"),
    ("1 memfd s", "line 3: bad line"),
    ("1 pipe xs", "line 3: bad line"),
    ("1 pipe", "line 3: bad line"),
    ("1 pipe - -", "line 3: bad line"),
    ("1 pipe xn", "line 3: bad line"),
    ("1 pipe 0", "line 3: bad line"),
    ("1 Pipe -", "line 3: bad line"),
    ("1 pipe2 -", "line 3: bad line"),
    ("1 creat p:f rw -", "line 3: bad line"),
    ("1 eventfd2 0 -", "line 3: bad line"),
    ("1 memfd_create -", "line 3: bad line"),
    ("2 pipe -", "line 3: unknown process"),
    ("2 create p:f rw -", "line 3: unknown process"),
    ("0 memfd -", "line 3: unknown process"),
    ("1 exit\n1 eventfd 0 -", "line 4: bad line"),
    ("off\n1 pipe -", "line 4: bad line"),
];

#[test]
fn what_is_no_call_that_makes_a_file_object_is_a_bad_line(rt: HostRuntime) -> Result<(), Fail> {
    expect_faults(&rt, rt.alloc(), "serial\nproc 0 0 0 1\n", LINES)
}

/// Lines behind a process alone, and the fault of the script.
const LINES_WITHOUT_SERIAL: &[(&str, &str)] = &[
    ("1 create p:f rw -", "line 2: bad line"),
    ("1 memfd -", "line 2: bad line"),
    ("1 eventfd 0 -", "line 2: bad line"),
    ("1 pipe -", "line 2: bad line"),
    ("2 pipe -", "line 2: bad line"),
    ("1 pair stream -\n1 pipe -", "line 3: bad line"),
];

#[test]
fn file_objects_are_made_behind_a_line_serial_alone(rt: HostRuntime) -> Result<(), Fail> {
    expect_faults(&rt, rt.alloc(), "proc 0 0 0 1\n", LINES_WITHOUT_SERIAL)
}
