//! Calls on files, counters and pipes.
use super::{Wrong, gives, refuses};
use delortxa::{
    Bytes, CallError, Calls, Errno, Fd, Mode, OpenFlags, PollFlags, Unfinished, Whence,
};

/// A number that isn't open.
const CLOSED: Fd = Fd(9);

/// Opens a file as 0, and for reading as 1; writes, moves and reads.
pub(super) fn open_and_move<C: Copy, P: Calls<C>>(p: &mut P, who: C) -> Result<(), Wrong> {
    let alloc = p.allocator();
    gives("open", p.open(who, b"notes", Mode::Both), Fd(0))?;
    refuses("open", p.open(who, b"absent", Mode::Both), Errno::ENOENT)?;
    let flags = OpenFlags::NONBLOCK;
    let reading = p.open_with(who, b"notes", Mode::Read, flags);
    gives("open_with", reading, Fd(1))?;
    let reading = p.open_with(who, b"absent", Mode::Read, flags);
    refuses("open_with", reading, Errno::ENOENT)?;
    gives("write", p.write(who, Fd(0), b"hello"), 5)?;
    refuses("write", p.write(who, Fd(1), b"hello"), Errno::EBADF)?;
    gives("lseek", p.lseek(who, Fd(0), 1, Whence::Set), 1)?;
    let before = p.lseek(who, Fd(0), -1, Whence::Set);
    refuses("lseek", before, Errno::EINVAL)?;
    let rest = Bytes::from_slice(alloc, b"ello")?;
    gives("in_queue", p.in_queue(who, Fd(0)), 4)?;
    gives("read", p.read(who, Fd(0), 64), rest)?;
    gives("in_queue", p.in_queue(who, Fd(0)), 0)?;
    refuses("read", p.read(who, CLOSED, 64), Errno::EBADF)
}

/// Copies numbers, sets their flags, executes a program, and closes what is left of them but 0 and 1.
pub(super) fn copy_and_close<C: Copy, P: Calls<C>>(p: &mut P, who: C) -> Result<(), Wrong> {
    gives("dup", p.dup(who, Fd(0)), Fd(2))?;
    refuses("dup", p.dup(who, CLOSED), Errno::EBADF)?;
    gives("dup2", p.dup2(who, Fd(0), Fd(4)), Fd(4))?;
    refuses("dup2", p.dup2(who, Fd(0), Fd(16)), Errno::EBADF)?;
    gives("dup_from", p.dup_from(who, Fd(0), Fd(7)), Fd(7))?;
    refuses("dup_from", p.dup_from(who, Fd(0), Fd(16)), Errno::EINVAL)?;
    gives("get_flags", p.get_flags(who, Fd(7)), OpenFlags(0))?;
    refuses("get_flags", p.get_flags(who, CLOSED), Errno::EBADF)?;
    let flags = OpenFlags::CLOEXEC;
    gives("set_flags", p.set_flags(who, Fd(4), flags), ())?;
    gives("get_flags", p.get_flags(who, Fd(4)), flags)?;
    gives("close", p.close(who, Fd(7)), ())?;
    let unset = p.set_flags(who, CLOSED, flags);
    refuses("set_flags", unset, Errno::EBADF)?;
    gives("exec", p.exec(who), ())?;
    refuses("close", p.close(who, Fd(4)), Errno::EBADF)?;
    gives("close", p.close(who, Fd(2)), ())?;
    gives("unlink", p.unlink(who, b"notes"), ())?;
    refuses("unlink", p.unlink(who, b"notes"), Errno::ENOENT)
}

/// Uses a counter, a pipe and an object that fails, as 2, 3 and 4.
pub(super) fn use_objects<C: Copy, P: Calls<C>>(p: &mut P, who: C) -> Result<(), Wrong> {
    let alloc = p.allocator();
    let seven = [7, 0, 0, 0, 0, 0, 0, 0];
    gives("open", p.open(who, b"count", Mode::Both), Fd(2))?;
    gives("write", p.write(who, Fd(2), &seven), 8)?;
    let count = Bytes::from_slice(alloc, &seven)?;
    gives("read", p.read(who, Fd(2), 8), count)?;
    gives("poll", p.poll(who, Fd(2)), PollFlags::OUT)?;
    refuses("in_queue", p.in_queue(who, Fd(2)), Errno::ENOTTY)?;
    refuses("out_queue", p.out_queue(who, Fd(2)), Errno::ENOTTY)?;
    gives("poll", p.poll(who, CLOSED), PollFlags::NVAL)?;
    gives("open", p.open(who, b"pipe", Mode::Both), Fd(3))?;
    is_whole("write_all", p.write_all(who, Fd(3), b"bytes"))?;
    let unwritten = p.write_all(who, CLOSED, b"bytes");
    is_refused("write_all", unwritten, 0, Errno::EBADF)?;
    let bytes = Bytes::from_slice(alloc, b"bytes")?;
    gives("read", p.read(who, Fd(3), 64), bytes)?;
    gives("open", p.open(who, b"worn", Mode::Both), Fd(4))?;
    refuses("read", p.read(who, Fd(4), 1), Errno::EIO)?;
    let unsent = p.send_all(who, Fd(3), b"bytes");
    is_refused("send_all", unsent, 0, Errno::ENOTSOCK)
}

/// Makes a file object of each kind, as 5 to 9, and executes a program, which has none of these numbers.
pub(super) fn make_objects<C: Copy, P: Calls<C>>(p: &mut P, who: C) -> Result<(), Wrong> {
    let alloc = p.allocator();
    let flags = OpenFlags::CLOEXEC;
    let made = p.create(who, b"made", Mode::Both, flags);
    gives("create", made, Fd(5))?;
    let again = p.create(who, b"made", Mode::Both, flags);
    refuses("create", again, Errno::EEXIST)?;
    gives("mem_fd", p.mem_fd(who, flags), Fd(6))?;
    gives("event_fd", p.event_fd(who, 7, flags), Fd(7))?;
    let value = Bytes::from_slice(alloc, &[7, 0, 0, 0, 0, 0, 0, 0])?;
    gives("read", p.read(who, Fd(7), 8), value)?;
    gives("close", p.close(who, Fd(7)), ())?;
    gives("semaphore", p.semaphore(who, 7, flags), Fd(7))?;
    let one = Bytes::from_slice(alloc, &[1, 0, 0, 0, 0, 0, 0, 0])?;
    gives("read", p.read(who, Fd(7), 8), one)?;
    gives("pipe", p.pipe(who, flags), (Fd(8), Fd(9)))?;
    gives("write", p.write(who, Fd(9), b"x"), 1)?;
    gives("exec", p.exec(who), ())
}

/// Sees that all was taken.
pub(super) fn is_whole(method: &'static str, given: Result<(), Unfinished>) -> Result<(), Wrong> {
    given.map_err(|_| Wrong(method))
}

/// Sees that so many bytes were taken before a call was refused so.
pub(super) fn is_refused(
    method: &'static str,
    given: Result<(), Unfinished>,
    taken: usize,
    errno: Errno,
) -> Result<(), Wrong> {
    let error = Some(CallError::Refused(errno));
    match given {
        Err(unfinished) if unfinished == (Unfinished { taken, error }) => Ok(()),
        _ => Err(Wrong(method)),
    }
}
