//! What calls and values are called in manual pages, and what stands for them in scripts.

use std::fmt;

/// What stands in scripts for a call of a manual page.
#[derive(Clone, Copy, Debug)]
pub enum Elsewhere {
    /// This call, or these.
    Here(&'static str),
    /// None, for this reason.
    Lacking(&'static str),
}

impl fmt::Display for Elsewhere {
    fn fmt<W: fmt::Write>(&self, f: &mut fmt::Formatter<W>) -> fmt::Result {
        match *self {
            Elsewhere::Here(call) => write!(f, "here it is {call}"),
            Elsewhere::Lacking(reason) => write!(f, "{reason}"),
        }
    }
}

const NO_CHILDREN: Elsewhere = Elsewhere::Lacking(
    "no call waits for a child; wait PID N waits for a process's Nth call",
);

const NO_SIGNALS: Elsewhere = Elsewhere::Lacking("there are no signals");

const NO_EPOLL: Elsewhere = Elsewhere::Lacking(
    "there is no epoll; poll tells of one descriptor, and polls of several",
);

const NO_ATTRIBUTES: Elsewhere = Elsewhere::Lacking("files have no attributes");

const NO_MEMORY: Elsewhere = Elsewhere::Lacking("there is no memory of processes");

/// The calls that have another name here, and those that have none.
const CALLS: &[(&str, Elsewhere)] = &[
    ("openat", Elsewhere::Here("open")),
    ("creat", Elsewhere::Here("create")),
    ("memfd_create", Elsewhere::Here("memfd")),
    ("eventfd2", Elsewhere::Here("eventfd")),
    ("pipe2", Elsewhere::Here("pipe")),
    ("readv", Elsewhere::Here("read")),
    ("writev", Elsewhere::Here("write")),
    ("dup3", Elsewhere::Here("dup2")),
    ("fcntl", Elsewhere::Here("flags, getfl or dupfd")),
    ("ioctl", Elsewhere::Here("inq or outq")),
    ("socketpair", Elsewhere::Here("pair")),
    ("shutdown", Elsewhere::Here("shut")),
    ("accept4", Elsewhere::Here("accept")),
    ("getsockopt", Elsewhere::Here("getopt")),
    ("setsockopt", Elsewhere::Here("setopt")),
    ("getsockname", Elsewhere::Here("sockname")),
    ("getpeername", Elsewhere::Here("peername")),
    ("sendto", Elsewhere::Here("send")),
    ("sendmsg", Elsewhere::Here("send")),
    ("sendmmsg", Elsewhere::Here("send")),
    ("recvfrom", Elsewhere::Here("recv")),
    ("recvmsg", Elsewhere::Here("recv")),
    ("recvmmsg", Elsewhere::Here("recv")),
    (
        "select",
        Elsewhere::Here("polls, or poll of one descriptor"),
    ),
    (
        "pselect",
        Elsewhere::Here("polls, or poll of one descriptor"),
    ),
    ("ppoll", Elsewhere::Here("polls, or poll of one descriptor")),
    ("epoll_create", NO_EPOLL),
    ("epoll_create1", NO_EPOLL),
    ("epoll_ctl", NO_EPOLL),
    ("epoll_wait", NO_EPOLL),
    ("setuid", Elsewhere::Here("setids")),
    ("setgid", Elsewhere::Here("setids")),
    ("setreuid", Elsewhere::Here("setids")),
    ("setregid", Elsewhere::Here("setids")),
    ("setresuid", Elsewhere::Here("setids")),
    ("setresgid", Elsewhere::Here("setids")),
    ("clone", Elsewhere::Here("fork")),
    ("vfork", Elsewhere::Here("fork")),
    ("execve", Elsewhere::Here("exec")),
    ("_exit", Elsewhere::Here("exit")),
    ("exit_group", Elsewhere::Here("exit")),
    ("waitpid", NO_CHILDREN),
    ("waitid", NO_CHILDREN),
    ("wait4", NO_CHILDREN),
    ("kill", NO_SIGNALS),
    ("signal", NO_SIGNALS),
    ("sigaction", NO_SIGNALS),
    ("stat", NO_ATTRIBUTES),
    ("fstat", NO_ATTRIBUTES),
    ("chmod", NO_ATTRIBUTES),
    ("fchmod", NO_ATTRIBUTES),
    ("mmap", NO_MEMORY),
    ("munmap", NO_MEMORY),
];

/// What stands for this call of a manual page.
pub(crate) fn call_elsewhere(word: &[u8]) -> Option<Elsewhere> {
    let row = CALLS.iter().find(|row| row.0.as_bytes() == word)?;
    Some(row.1)
}

/// The values that have another name here.
const VALUES: &[(&str, &str)] = &[
    ("SOCK_STREAM", "stream"),
    ("SOCK_DGRAM", "dgram"),
    ("datagram", "dgram"),
    ("SOCK_SEQPACKET", "seq"),
    ("seqpacket", "seq"),
    ("O_RDONLY", "r"),
    ("O_WRONLY", "w"),
    ("O_RDWR", "rw"),
    ("SHUT_RD", "r"),
    ("SHUT_WR", "w"),
    ("SHUT_RDWR", "rw"),
    ("SEEK_SET", "set"),
    ("SEEK_CUR", "cur"),
    ("SEEK_END", "end"),
    ("SO_TYPE", "type"),
    ("SO_ERROR", "error"),
    ("SO_PASSCRED", "passcred"),
    ("SO_PEERCRED", "peercred"),
    ("SO_ACCEPTCONN", "accept"),
    ("SO_RCVBUF", "qlimit"),
    ("-1", "wait"),
    ("0", "now"),
];

/// Which of these words stands for a value of a manual page.
pub(crate) fn value_elsewhere(words: &[&str], word: &[u8]) -> Option<&'static str> {
    let row = VALUES.iter().find(|row| row.0.as_bytes() == word)?;
    if words.contains(&row.1) {
        Some(row.1)
    } else {
        None
    }
}
