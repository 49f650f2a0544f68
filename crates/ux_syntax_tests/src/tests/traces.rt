//! The lines of a trace.
use super::{addr_of, beside, request_in};
use std::alloc::Global;
use std::process::Abort;
use std::test::*;
use ux_trace::{entry_text, errno_name};
use ux_types::{
    Addr, Bytes, Entry, Errno, Fd, MsgFlags, Name, OpenFlags, Pid, Released, Reply, Request,
};

/// An entry's number in the history, and its number among its process's calls.
type Numbers = (usize, u64);

/// Sees an entry's line.
fn expect_entry(
    rt: &impl Abort,
    alloc: Global,
    number: usize,
    entry: &Entry,
    line: &str,
) -> Result<(), Fail> {
    let text = entry_text(alloc, number, entry)?;
    assert_eq!(rt; text.as_str(), line);
    Ok(())
}

/// Sees the line of an entry of the first process, with this call as a script has it, in which no file object was
/// closed.
fn expect_text(
    rt: &impl Abort,
    alloc: Global,
    numbers: Numbers,
    call: &str,
    reply: Reply,
    line: &str,
) -> Result<(), Fail> {
    let (number, k) = numbers;
    let (request, reply) = beside(request_in(alloc, call), reply)?;
    let entry = Entry {
        pid: Pid(1),
        k,
        request,
        reply,
        released: Released::new(alloc),
        delivered: None,
    };
    expect_entry(rt, alloc, number, &entry, line)
}

/// Sees the line of the entry of number 5, the eighth call of its process.
pub(super) fn expect_fifth(
    rt: &impl Abort,
    alloc: Global,
    call: &str,
    reply: Reply,
    line: &str,
) -> Result<(), Fail> {
    expect_text(rt, alloc, (5, 7), call, reply, line)
}

/// The numbers of an entry, its call as a script has it, its reply, and its line.
pub(super) type Row = (Numbers, &'static str, Reply, &'static str);

/// Sees the lines of these entries.
pub(super) fn expect_rows(rt: &impl Abort, alloc: Global, rows: Vec<Row>) -> Result<(), Fail> {
    for (numbers, call, reply, line) in rows {
        expect_text(rt, alloc, numbers, call, reply, line)?;
    }
    Ok(())
}

#[test]
fn entries_are_printed(rt: HostRuntime) -> Result<(), Fail> {
    // Entries whose replies have neither bytes nor an address.
    let rows = vec![in rt.alloc();
        (
            (0, 0),
            "pair stream -",
            Reply::Fds(Fd(0), Fd(1)),
            "0 1 0 pair = fds 0 1\n",
        ),
        (
            (1, 1),
            "send 0 - 6869 - -",
            Reply::Count(2),
            "1 1 1 send = n 2\n",
        ),
        (
            (4, 4),
            "recv 1 8 0 -",
            Reply::Err(Errno::EAGAIN),
            "4 1 4 recv = err EAGAIN\n",
        ),
        (
            (9, 9),
            "recv 1 8 0 -",
            Reply::Err(Errno::ECONNRESET),
            "9 1 9 recv = err ECONNRESET\n",
        ),
        (
            (11, 11),
            "send 0 - 6869 - -",
            Reply::Err(Errno::EPIPE),
            "11 1 11 send = err EPIPE\n",
        ),
        ((12, 12), "close 0", Reply::Ok, "12 1 12 close = ok\n"),
        ((14, 14), "exit", Reply::Ok, "14 1 14 exit = ok\n"),
    ]?;
    expect_rows(&rt, rt.alloc(), rows)
}

/// The refusals, and the names of their numbers in errno.h (POSIX.1-2017).
const REFUSALS: &[(Errno, &str)] = &[
    (Errno::EPERM, "EPERM"),
    (Errno::ENOENT, "ENOENT"),
    (Errno::ESRCH, "ESRCH"),
    (Errno::EIO, "EIO"),
    (Errno::EBADF, "EBADF"),
    (Errno::EAGAIN, "EAGAIN"),
    (Errno::ENOMEM, "ENOMEM"),
    (Errno::EINVAL, "EINVAL"),
    (Errno::EMFILE, "EMFILE"),
    (Errno::EFBIG, "EFBIG"),
    (Errno::ENOSPC, "ENOSPC"),
    (Errno::ESPIPE, "ESPIPE"),
    (Errno::EPIPE, "EPIPE"),
    (Errno::ENOTSOCK, "ENOTSOCK"),
    (Errno::EDESTADDRREQ, "EDESTADDRREQ"),
    (Errno::EMSGSIZE, "EMSGSIZE"),
    (Errno::EPROTOTYPE, "EPROTOTYPE"),
    (Errno::EOPNOTSUPP, "EOPNOTSUPP"),
    (Errno::EADDRINUSE, "EADDRINUSE"),
    (Errno::ECONNRESET, "ECONNRESET"),
    (Errno::EISCONN, "EISCONN"),
    (Errno::ENOTCONN, "ENOTCONN"),
    (Errno::ETOOMANYREFS, "ETOOMANYREFS"),
    (Errno::ECONNREFUSED, "ECONNREFUSED"),
    (Errno::ENFILE, "ENFILE"),
    (Errno::EEXIST, "EEXIST"),
    (Errno::ENOTTY, "ENOTTY"),
];

#[test]
fn refusals_have_their_names(rt: HostRuntime) {
    for (refusal, name) in REFUSALS {
        assert_eq!(rt; errno_name(*refusal), *name);
    }
}

/// Receives: the numbers of an entry, how many bytes there were, those that came, flags, and the line.
const RECEIVES: &[(Numbers, usize, &[u8], MsgFlags, &str)] = &[
    (
        (2, 2),
        2,
        b"hi",
        MsgFlags(0),
        "2 1 2 recv = got 2 6869 - - -\n",
    ),
    ((6, 6), 0, b"", MsgFlags(0), "6 1 6 recv = got 0 - - - -\n"),
    (
        (15, 15),
        300,
        &[0, 0xab],
        MsgFlags(2 + 16 + 32 + 1),
        "15 1 15 recv = got 300 00ab TRUNC|CTRUNC|EOR - -\n",
    ),
];

#[test]
fn receives_are_printed(rt: HostRuntime) -> Result<(), Fail> {
    let alloc = rt.alloc();
    for (numbers, count, bytes, flags, line) in RECEIVES {
        let got = Reply::Received {
            count: *count,
            bytes: Bytes::from_slice(alloc, bytes)?,
            flags: *flags,
            control: Bytes::empty(),
            from: None,
        };
        expect_text(&rt, alloc, *numbers, "recv 1 8 0 -", got, line)?;
    }
    Ok(())
}

/// Sees what a trace reports of these control bytes, whose receive lost some.
fn expect_items(rt: &impl Abort, alloc: Global, control: &[u8], items: &str) -> Result<(), Fail> {
    let line = format!(in alloc; "5 1 7 recv = got 2 6869 CTRUNC {items} -\n")?;
    let got = Reply::Received {
        count: 2,
        bytes: Bytes::from_slice(alloc, b"hi")?,
        flags: MsgFlags::CTRUNC,
        control: Bytes::from_slice(alloc, control)?,
        from: None,
    };
    expect_fifth(rt, alloc, "recv 1 8 0 -", got, &line)
}

/// Control bytes, and what they spell.
const ITEMS: &[(&[u8], &str)] = &[
    (b"", "-"),
    (
        &[20, 0, 0, 0, 0, 0, 0, 0, 1, 0, 0, 0, 1, 0, 0, 0, 3, 0, 0, 0],
        "r:3",
    ),
    (
        &[
            24, 0, 0, 0, 0, 0, 0, 0, 1, 0, 0, 0, 1, 0, 0, 0, 3, 0, 0, 0, 4, 0, 0, 0,
        ],
        "r:3,4",
    ),
    (
        &[
            28, 0, 0, 0, 0, 0, 0, 0, 1, 0, 0, 0, 1, 0, 0, 0, 0xff, 0xff, 0xff, 0xff, 0, 0, 0, 0,
            10, 0, 0, 0,
        ],
        "r:4294967295,0,10",
    ),
    (
        &[
            28, 0, 0, 0, 0, 0, 0, 0, 1, 0, 0, 0, 2, 0, 0, 0, 2, 0, 0, 0, 0xe8, 3, 0, 0, 0xe8, 3, 0,
            0,
        ],
        "c:2,1000,1000",
    ),
    (
        &[
            28, 0, 0, 0, 0, 0, 0, 0, 1, 0, 0, 0, 2, 0, 0, 0, 2, 0, 0, 0, 0xe8, 3, 0, 0, 0xe8, 3, 0,
            0, 0, 0, 0, 0, 20, 0, 0, 0, 0, 0, 0, 0, 1, 0, 0, 0, 1, 0, 0, 0, 3, 0, 0, 0,
        ],
        "c:2,1000,1000+r:3",
    ),
    // Rights stand first in the bytes.
    (
        &[
            20, 0, 0, 0, 0, 0, 0, 0, 1, 0, 0, 0, 1, 0, 0, 0, 3, 0, 0, 0, 0, 0, 0, 0, 28, 0, 0, 0,
            0, 0, 0, 0, 1, 0, 0, 0, 2, 0, 0, 0, 2, 0, 0, 0, 0xe8, 3, 0, 0, 0xe8, 3, 0, 0,
        ],
        "c:2,1000,1000+r:3",
    ),
    // An item of no rights.
    (&[16, 0, 0, 0, 0, 0, 0, 0, 1, 0, 0, 0, 1, 0, 0, 0], "-"),
    // No item of a control buffer.
    (&[0], "x:00"),
    (
        &[17, 0, 0, 0, 0, 0, 0, 0, 1, 0, 0, 0, 1, 0, 0, 0, 0xab],
        "x:11000000000000000100000001000000ab",
    ),
];

#[test]
fn items_are_printed(rt: HostRuntime) -> Result<(), Fail> {
    for (control, items) in ITEMS {
        expect_items(&rt, rt.alloc(), control, items)?;
    }
    Ok(())
}

/// Sees how a trace names whom a receive is from.
fn expect_from(rt: &impl Abort, alloc: Global, from: Addr, text: &str) -> Result<(), Fail> {
    let line = format!(in alloc; "5 1 7 recv = got 0 - - - {text}\n")?;
    let got = Reply::Received {
        count: 0,
        bytes: Bytes::empty(),
        flags: MsgFlags(0),
        control: Bytes::empty(),
        from: Some(from),
    };
    expect_fifth(rt, alloc, "recv 1 8 0 -", got, &line)
}

/// Senders by the form of their address and the bytes of their name, as a trace has them.
const SENDERS: &[(char, &[u8], &str)] = &[
    ('u', b"", "u"),
    ('a', b"q", "a:q"),
    ('a', b"", "a:"),
    ('p', b"/run/a b", "p:/run/a%20b"),
];

#[test]
fn senders_are_printed(rt: HostRuntime) -> Result<(), Fail> {
    let alloc = rt.alloc();
    for (form, name, text) in SENDERS {
        expect_from(&rt, alloc, addr_of(alloc, *form, name)?, text)?;
    }
    Ok(())
}

#[test]
fn entries_of_files_are_printed(rt: HostRuntime) -> Result<(), Fail> {
    // Entries of the calls on files and descriptors.
    let rows = vec![in rt.alloc();
        (
            (5, 7),
            "open p:f rw -",
            Reply::Fd(Fd(3)),
            "5 1 7 open = fd 3\n",
        ),
        (
            (5, 7),
            "write 3 6869",
            Reply::Count(2),
            "5 1 7 write = n 2\n",
        ),
        (
            (5, 7),
            "unlink p:f",
            Reply::Err(Errno::ENOENT),
            "5 1 7 unlink = err ENOENT\n",
        ),
        (
            (5, 7),
            "lseek 3 -1 end",
            Reply::At(9223372036854775807),
            "5 1 7 lseek = at 9223372036854775807\n",
        ),
        (
            (5, 7),
            "dup 3",
            Reply::Fd(Fd(1023)),
            "5 1 7 dup = fd 1023\n",
        ),
        ((5, 7), "dup2 3 9", Reply::Fd(Fd(9)), "5 1 7 dup2 = fd 9\n"),
        ((5, 7), "flags 3 x", Reply::Ok, "5 1 7 flags = ok\n"),
        (
            (5, 7),
            "dupfd 3 9",
            Reply::Fd(Fd(11)),
            "5 1 7 dupfd = fd 11\n"
        ),
        (
            (5, 7),
            "getfl 3",
            Reply::Flags(OpenFlags(0)),
            "5 1 7 getfl = flags -\n"
        ),
        (
            (5, 7),
            "getfl 3",
            Reply::Flags(OpenFlags(2)),
            "5 1 7 getfl = flags NONBLOCK\n"
        ),
        (
            (5, 7),
            "getfl 3",
            Reply::Flags(OpenFlags(7)),
            "5 1 7 getfl = flags APPEND|NONBLOCK|CLOEXEC\n",
        ),
        ((5, 7), "inq 3", Reply::Count(5), "5 1 7 inq = n 5\n"),
        (
            (5, 7),
            "inq 3",
            Reply::Err(Errno::ENOTTY),
            "5 1 7 inq = err ENOTTY\n"
        ),
        ((5, 7), "outq 3", Reply::Count(0), "5 1 7 outq = n 0\n"),
    ]?;
    expect_rows(&rt, rt.alloc(), rows)
}

#[test]
fn entries_of_calls_that_make_file_objects_are_printed(rt: HostRuntime) -> Result<(), Fail> {
    let rows = vec![in rt.alloc();
        (
            (5, 7),
            "create p:f rw x",
            Reply::Fd(Fd(3)),
            "5 1 7 create = fd 3\n",
        ),
        (
            (5, 7),
            "create p:f rw -",
            Reply::Err(Errno::EEXIST),
            "5 1 7 create = err EEXIST\n",
        ),
        ((5, 7), "memfd -", Reply::Fd(Fd(0)), "5 1 7 memfd = fd 0\n"),
        (
            (5, 7),
            "eventfd 8 n",
            Reply::Err(Errno::ENFILE),
            "5 1 7 eventfd = err ENFILE\n",
        ),
        (
            (5, 7),
            "eventfd 8 s",
            Reply::Fd(Fd(3)),
            "5 1 7 eventfd = fd 3\n",
        ),
        (
            (5, 7),
            "pipe x",
            Reply::Fds(Fd(3), Fd(4)),
            "5 1 7 pipe = fds 3 4\n",
        ),
    ]?;
    expect_rows(&rt, rt.alloc(), rows)
}

#[test]
fn entries_of_forks_are_printed(rt: HostRuntime) -> Result<(), Fail> {
    // Entries of the calls on processes.
    let rows = vec![in rt.alloc();
        (
            (2, 2),
            "fork",
            Reply::Child(Pid(2)),
            "2 1 2 fork = child 2\n",
        ),
        (
            (5, 7),
            "fork",
            Reply::Child(Pid(1024)),
            "5 1 7 fork = child 1024\n",
        ),
        (
            (5, 7),
            "fork",
            Reply::Err(Errno::EAGAIN),
            "5 1 7 fork = err EAGAIN\n",
        ),
        ((5, 7), "exec", Reply::Ok, "5 1 7 exec = ok\n"),
        ((5, 7), "setids 1000 100", Reply::Ok, "5 1 7 setids = ok\n"),
        (
            (5, 7),
            "setids 0 0",
            Reply::Err(Errno::EPERM),
            "5 1 7 setids = err EPERM\n",
        ),
    ]?;
    expect_rows(&rt, rt.alloc(), rows)
}

#[test]
fn reads_are_printed(rt: HostRuntime) -> Result<(), Fail> {
    let alloc = rt.alloc();
    let bytes = Reply::Bytes(Bytes::from_slice(alloc, b"hi")?);
    expect_fifth(&rt, alloc, "read 3 8", bytes, "5 1 7 read = bytes 6869\n")?;
    let none = Reply::Bytes(Bytes::empty());
    expect_fifth(&rt, alloc, "read 3 8", none, "5 1 7 read = bytes -\n")
}

#[test]
fn entries_of_connections_are_printed(rt: HostRuntime) -> Result<(), Fail> {
    // Entries of the calls that make connections.
    let rows = vec![in rt.alloc();
        (
            (5, 7),
            "socket seq -",
            Reply::Fd(Fd(3)),
            "5 1 7 socket = fd 3\n",
        ),
        ((5, 7), "bind 3 u", Reply::Ok, "5 1 7 bind = ok\n"),
        ((5, 7), "shut 3 rw", Reply::Ok, "5 1 7 shut = ok\n"),
        ((5, 7), "listen 3 -1", Reply::Ok, "5 1 7 listen = ok\n"),
        (
            (5, 7),
            "connect 3 p:s",
            Reply::Err(Errno::ECONNREFUSED),
            "5 1 7 connect = err ECONNREFUSED\n",
        ),
    ]?;
    expect_rows(&rt, rt.alloc(), rows)
}

/// Sees the line of an accept that gave descriptor 4, and of a call that reported a peer's name.
fn expect_name(rt: &impl Abort, alloc: Global, addr: Addr, text: &str) -> Result<(), Fail> {
    let of_accept = format!(in alloc; "5 1 7 accept = accepted 4 {text}\n")?;
    let of_peer = format!(in alloc; "5 1 7 peername = addr {text}\n")?;
    let accepted = Reply::Accepted(Fd(4), addr.clone()?);
    expect_fifth(rt, alloc, "accept 3 -", accepted, &of_accept)?;
    expect_fifth(rt, alloc, "peername 3", Reply::Addr(addr), &of_peer)
}

/// Addresses by their form and the bytes of their name, as a trace has them.
const ADDRESSES: &[(char, &[u8], &str)] = &[
    ('u', b"", "u"),
    ('p', b"/run/a b", "p:/run/a%20b"),
    ('a', &[0x21, 0x7e, 0x25, 0x7f, 0, 0xff], "a:!~%25%7f%00%ff"),
    ('a', b"", "a:"),
];

#[test]
fn addresses_are_printed(rt: HostRuntime) -> Result<(), Fail> {
    let alloc = rt.alloc();
    for (form, name, text) in ADDRESSES {
        expect_name(&rt, alloc, addr_of(alloc, *form, name)?, text)?;
    }
    let name = Reply::Addr(Addr::Abstract(Name::from_slice(alloc, b"00001")?));
    expect_fifth(
        &rt,
        alloc,
        "sockname 3",
        name,
        "5 1 7 sockname = addr a:00001\n",
    )
}

/// Sees the line of an entry whose number is its count, in which these file objects were closed.
fn expect_closed(
    rt: &impl Abort,
    alloc: Global,
    number: usize,
    pid: u32,
    request: Request,
    released: Released,
    line: &str,
) -> Result<(), Fail> {
    let entry = Entry {
        pid: Pid(pid),
        k: number as u64,
        request,
        reply: Reply::Ok,
        released,
        delivered: None,
    };
    expect_entry(rt, alloc, number, &entry, line)
}

#[test]
fn closed_objects_are_printed(rt: HostRuntime) -> Result<(), Fail> {
    let alloc = rt.alloc();
    let mut one = Released::new(alloc);
    one.push_back(0)?;
    let close = Request::Close { fd: Fd(0) };
    expect_closed(
        &rt,
        alloc,
        14,
        1,
        close,
        one,
        "14 1 14 close = ok closed 0\n",
    )?;
    let mut many = Released::new(alloc);
    many.push_back(2)?;
    many.push_back(10)?;
    many.push_back(63)?;
    many.push_back(64)?;
    many.push_back(4095)?;
    let line = "15 0 15 off = ok closed 2 10 63 64 4095\n";
    expect_closed(&rt, alloc, 15, 0, Request::Off, many, line)?;
    let none = Released::new(alloc);
    expect_closed(
        &rt,
        alloc,
        16,
        2,
        Request::Exit,
        none,
        "16 2 16 exit = ok\n",
    )
}
