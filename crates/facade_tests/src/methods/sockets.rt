//! Calls on sockets.
use super::files::{is_refused, is_whole};
use super::{CALLER, Wrong, gives, refuses};
use delortxa::{
    Addr, Bytes, Calls, Errno, Fd, Message, Mode, MsgFlags, Name, OpenFlags, PollFd, PollFds,
    PollFlags, Revents, SockOpt, SockType,
};

/// A socket that listens at a path, is 5; a connection to it is 6, and its other end 7.
pub(super) fn listen_at_a_path<C: Copy, P: Calls<C>>(p: &mut P, who: C) -> Result<(), Wrong> {
    gives("socket", p.socket(who, SockType::Stream), Fd(5))?;
    let flags = OpenFlags::CLOEXEC;
    let client = p.socket_with(who, SockType::Stream, flags);
    gives("socket_with", client, Fd(6))?;
    gives("bind_path", p.bind_path(who, Fd(5), b"server"), ())?;
    let again = p.bind_path(who, Fd(5), b"other");
    refuses("bind_path", again, Errno::EINVAL)?;
    gives("listen", p.listen(who, Fd(5), 2), ())?;
    refuses("listen", p.listen(who, Fd(6), 2), Errno::EDESTADDRREQ)?;
    let nowhere = p.connect_path(who, Fd(6), b"absent");
    refuses("connect_path", nowhere, Errno::ENOENT)?;
    gives("connect_path", p.connect_path(who, Fd(6), b"server"), ())?;
    let accepted = p.accept(who, Fd(5));
    gives("accept", accepted, (Fd(7), Addr::Unnamed))?;
    refuses("accept", p.accept(who, Fd(6)), Errno::EINVAL)
}

/// Polls both ends of the connection for input, of which 7 has some.
fn poll_both<C: Copy, P: Calls<C>>(p: &mut P, who: C) -> Result<(), Wrong> {
    let alloc = p.allocator();
    let events = PollFlags::IN;
    let asked = [PollFd { fd: Fd(6), events }, PollFd { fd: Fd(7), events }];
    let fds = PollFds::new(Vec::from_slice(alloc, &asked)?);
    let mut wanted = Revents::new();
    wanted.push(PollFlags(0));
    wanted.push(PollFlags::IN);
    gives("poll_many", p.poll_many(who, fds, true), wanted)?;
    let many = PollFds::new(vec![in alloc; asked[0]; 65]?);
    refuses("poll_many", p.poll_many(who, many, false), Errno::EINVAL)
}

/// Sends and receives, with the file of 0 as a right, which comes as 8.
pub(super) fn talk<C: Copy, P: Calls<C>>(p: &mut P, who: C) -> Result<(), Wrong> {
    let alloc = p.allocator();
    gives("send", p.send(who, Fd(6), b"hi"), 2)?;
    refuses("send", p.send(who, Fd(5), b"hi"), Errno::ENOTCONN)?;
    let bytes = Bytes::from_slice(alloc, b"hi")?;
    poll_both(p, who)?;
    gives("in_queue", p.in_queue(who, Fd(7)), 2)?;
    gives("out_queue", p.out_queue(who, Fd(6)), 2)?;
    gives("recv", p.recv(who, Fd(7), 64), plain(bytes))?;
    gives("in_queue", p.in_queue(who, Fd(7)), 0)?;
    gives("out_queue", p.out_queue(who, Fd(6)), 0)?;
    refuses("in_queue", p.in_queue(who, Fd(5)), Errno::EINVAL)?;
    refuses("recv", p.recv(who, Fd(5), 64), Errno::ENOTCONN)?;
    let passed = p.send_rights(who, Fd(6), b"file", &[Fd(0)]);
    gives("send_rights", passed, 4)?;
    let closed = p.send_rights(who, Fd(6), b"file", &[Fd(15)]);
    refuses("send_rights", closed, Errno::EBADF)?;
    let came = p.recv_rights(who, Fd(7), 64, 1);
    match came {
        Ok(message) => has_right(&message, alloc)?,
        Err(_) => return Err(Wrong("recv_rights")),
    }
    let nothing = p.recv_rights(who, Fd(5), 64, 1);
    refuses("recv_rights", nothing, Errno::ENOTCONN)?;
    is_whole("send_all", p.send_all(who, Fd(6), b"more"))?;
    let unsent = p.send_all(who, Fd(5), b"more");
    is_refused("send_all", unsent, 0, Errno::ENOTCONN)?;
    let passed = p.send_all_rights(who, Fd(6), b"more", &[Fd(5)]);
    is_whole("send_all_rights", passed)?;
    let unsent = p.send_all_rights(who, Fd(5), b"more", &[Fd(6)]);
    is_refused("send_all_rights", unsent, 0, Errno::ENOTCONN)
}

/// A message without rights and name.
fn plain(bytes: Bytes) -> Message {
    Message {
        flags: MsgFlags(0),
        count: bytes.len(),
        bytes,
        control: Bytes::empty(),
        from: None,
    }
}

/// Sees that a message brought one descriptor, as 8.
fn has_right(message: &Message, alloc: std::alloc::Global) -> Result<(), Wrong> {
    match message.control(alloc) {
        Ok(control) if control.rights() == [Fd(8)].as_slice() => Ok(()),
        _ => Err(Wrong("recv_rights")),
    }
}

/// Asks for names, credentials and options of the connection, sets one, and shuts it.
pub(super) fn set_options<C: Copy, P: Calls<C>>(p: &mut P, who: C) -> Result<(), Wrong> {
    let name = Addr::Path(Name::from_slice(p.allocator(), b"server")?);
    let same = Addr::Path(Name::from_slice(p.allocator(), b"server")?);
    gives("getsockname", p.getsockname(who, Fd(5)), name)?;
    refuses("getsockname", p.getsockname(who, Fd(0)), Errno::ENOTSOCK)?;
    gives("getpeername", p.getpeername(who, Fd(6)), same)?;
    refuses("getpeername", p.getpeername(who, Fd(5)), Errno::ENOTCONN)?;
    gives("peer_cred", p.peer_cred(who, Fd(6)), CALLER)?;
    refuses("peer_cred", p.peer_cred(who, Fd(5)), Errno::ENOTCONN)?;
    let option = SockOpt::PassCred;
    gives("setopt", p.setopt(who, Fd(6), option, 1), ())?;
    refuses("setopt", p.setopt(who, Fd(0), option, 1), Errno::ENOTSOCK)?;
    gives("getopt", p.getopt(who, Fd(6), option), 1)?;
    refuses("getopt", p.getopt(who, Fd(0), option), Errno::ENOTSOCK)?;
    gives("shutdown", p.shutdown(who, Fd(6), Mode::Both), ())?;
    let unconnected = p.shutdown(who, Fd(5), Mode::Both);
    refuses("shutdown", unconnected, Errno::ENOTCONN)
}

/// A socket that listens at an abstract name is 9; a connection to it is 10, and its other end 11.
pub(super) fn listen_at_a_name<C: Copy, P: Calls<C>>(p: &mut P, who: C) -> Result<(), Wrong> {
    gives("socket", p.socket(who, SockType::Stream), Fd(9))?;
    gives("socket", p.socket(who, SockType::Stream), Fd(10))?;
    gives("bind_abstract", p.bind_abstract(who, Fd(9), b"name"), ())?;
    let again = p.bind_abstract(who, Fd(9), b"more");
    refuses("bind_abstract", again, Errno::EINVAL)?;
    gives("listen", p.listen(who, Fd(9), 1), ())?;
    let nobody = p.connect_abstract(who, Fd(10), b"nobody");
    refuses("connect_abstract", nobody, Errno::ECONNREFUSED)?;
    let connected = p.connect_abstract(who, Fd(10), b"name");
    gives("connect_abstract", connected, ())?;
    let flags = OpenFlags::CLOEXEC;
    let accepted = p.accept_with(who, Fd(9), flags);
    gives("accept_with", accepted, (Fd(11), Addr::Unnamed))?;
    let unheard = p.accept_with(who, Fd(10), flags);
    refuses("accept_with", unheard, Errno::EINVAL)
}

/// Makes sockets as 12 to 15, and no more.
pub(super) fn fill_the_table<C: Copy, P: Calls<C>>(p: &mut P, who: C) -> Result<(), Wrong> {
    let kind = SockType::Stream;
    gives("pair", p.pair(who, kind), (Fd(12), Fd(13)))?;
    gives("socket", p.socket(who, kind), Fd(14))?;
    refuses("pair", p.pair(who, kind), Errno::EMFILE)?;
    let flags = OpenFlags::CLOEXEC;
    refuses("pipe", p.pipe(who, flags), Errno::EMFILE)?;
    gives("socket", p.socket(who, kind), Fd(15))?;
    refuses("socket", p.socket(who, kind), Errno::EMFILE)?;
    let none = p.socket_with(who, kind, flags);
    refuses("socket_with", none, Errno::EMFILE)?;
    refuses("mem_fd", p.mem_fd(who, flags), Errno::EMFILE)?;
    let uncounted = p.event_fd(who, 0, flags);
    refuses("event_fd", uncounted, Errno::EMFILE)?;
    let uncounted = p.semaphore(who, 0, flags);
    refuses("semaphore", uncounted, Errno::EMFILE)
}
