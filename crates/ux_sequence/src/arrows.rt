//! Whose message a receive takes, and who connects to whom.

use bitflags::Flags;
use std::fmt;
use ux_description::Socket;
use ux_kernel::Kernel;
use ux_object::FileObject;
use ux_types::{Entry, Fd, MsgFlags, Pid, Reply, Request};

/// What goes from a process to another, or to the same: a message, or a connection.
#[derive(Clone, Copy, Debug, PartialEq, Eq)]
pub(crate) struct Arrow {
    pub(crate) from: Pid,
    pub(crate) to: Pid,
    /// Whether it is looked at, and left where it is (MSG_PEEK).
    pub(crate) is_peek: bool,
}

impl fmt::Display for Arrow {
    fn fmt<W: fmt::Write>(&self, f: &mut fmt::Formatter<W>) -> fmt::Result {
        let from = self.from.0;
        let to = self.to.0;
        let line = if self.is_peek { "-->>" } else { "->>" };
        write!(f, "p{from}{line}p{to}")
    }
}

/// The arrow of a call that is about to be made once more: of a receive from whoever sent the first message that waits, and
/// of an accept from whoever connects. None where the call receives or accepts nothing.
pub(crate) fn arrow_of<O: FileObject>(
    kernel: &Kernel<O>,
    history: &[Entry],
    entry: &Entry,
) -> Option<Arrow> {
    match (&entry.request, &entry.reply) {
        (Request::RecvMsg { fd, flags, .. }, Reply::Received { .. }) => Some(Arrow {
            from: sender_of(kernel, history, entry.pid, *fd)?,
            to: entry.pid,
            is_peek: flags.contains(MsgFlags::PEEK),
        }),
        (Request::Accept { fd, .. }, Reply::Accepted(..)) => Some(Arrow {
            from: client_of(kernel, entry.pid, *fd)?,
            to: entry.pid,
            is_peek: false,
        }),
        _ => None,
    }
}

/// Who sent the first message that waits at this socket.
fn sender_of<O: FileObject>(
    kernel: &Kernel<O>,
    history: &[Entry],
    pid: Pid,
    fd: Fd,
) -> Option<Pid> {
    let unread = socket_of(kernel, pid, fd)?.message(0)?;
    let sent = history.get(usize::try_from(unread.tag).ok()?)?;
    Some(sent.pid)
}

/// Who connected the first end that waits for accept at this socket.
fn client_of<O: FileObject>(kernel: &Kernel<O>, pid: Pid, fd: Fd) -> Option<Pid> {
    let end = socket_of(kernel, pid, fd)?.backlog()?.first()?;
    let cred = kernel.state().socket(end)?.peer_cred()?;
    Some(cred.pid)
}

/// The arrow of a connect that was made: to whoever listened last. None of a datagram socket.
pub(crate) fn arrow_of_connect<O: FileObject>(kernel: &Kernel<O>, entry: &Entry) -> Option<Arrow> {
    let (Request::Connect { fd, .. }, Reply::Ok) = (&entry.request, &entry.reply) else {
        return None;
    };
    let cred = socket_of(kernel, entry.pid, *fd)?.peer_cred()?;
    Some(Arrow {
        from: entry.pid,
        to: cred.pid,
        is_peek: false,
    })
}

/// The socket to which a number of a live process leads.
fn socket_of<O: FileObject>(kernel: &Kernel<O>, pid: Pid, fd: Fd) -> Option<&Socket> {
    if !kernel.is_live(pid) {
        return None;
    }
    match kernel.state().find_socket(pid, fd) {
        Ok(found) => Some(found.socket),
        Err(_) => None,
    }
}
