//! Calls as rows of a table, and the requests that they stand for.
use std::alloc::{AllocError, Global};
use ux_cmsg::{Control, write_control};
use ux_types::{Addr, Bytes, Fd, Mode, MsgFlags, Name, OpenFlags, Request, SockType, Whence};

/// The path of the file.
pub(crate) const FILE: &[u8] = b"file";

/// The path of the pipe.
pub(crate) const PIPE: &[u8] = b"pipe";

/// A call. The numbers that come first are of descriptors.
#[derive(Clone, Copy)]
pub(crate) enum Row<'a> {
    /// An open of the file.
    Open,
    /// One of the pipe.
    OpenPipe,
    Poll(u32),
    /// A read of so many bytes.
    Read(u32, usize),
    /// A write of so many bytes.
    Write(u32, usize),
    /// Back to the front of the file.
    Rewind(u32),
    Dup(u32),
    Close(u32),
    /// The closes of so many numbers, from this one on.
    CloseMany(u32, u32),
    /// A pair of sockets, at the two lowest free numbers.
    Pair(SockType),
    /// A socket, at the lowest free number.
    Socket(SockType),
    BindPath(u32, &'a [u8]),
    /// A bind to an abstract name.
    Bind(u32, &'a [u8]),
    Listen(u32, i32),
    /// To the listener with this abstract name.
    Connect(u32, &'a [u8]),
    Accept(u32),
    /// A send of so many bytes.
    Send(u32, usize),
    /// One to the socket with this abstract name.
    SendTo(u32, &'a [u8], usize),
    /// A send of one byte that passes the file so many times.
    Pass(u32, usize),
    /// A receive of at most so many bytes.
    Receive(u32, usize),
    /// One of a byte, with room for rights.
    Take(u32),
}

/// A pair of stream sockets.
pub(crate) const PAIR: &[Row] = &[Row::Pair(SockType::Stream)];

/// One at the numbers 1 and 2, and the closes of both.
pub(crate) const PAIR_AND_CLOSES: &[Row] = &[
    Row::Pair(SockType::Stream),
    Row::Close(1),
    Row::Close(2),
];

impl Row<'_> {
    /// How many calls it is.
    fn count(self) -> u32 {
        match self {
            Row::CloseMany(_, count) => count,
            _ => 1,
        }
    }
}

/// An abstract name of these bytes.
fn abstract_addr(alloc: Global, bytes: &[u8]) -> Result<Addr, AllocError> {
    Ok(Addr::Abstract(Name::from_slice(alloc, bytes)?))
}

/// So many bytes.
fn bytes(alloc: Global, length: usize) -> Result<Bytes, AllocError> {
    Bytes::new(vec![in alloc; 90; length]?)
}

/// The bytes of a control buffer that passes the file so many times.
fn rights(alloc: Global, count: usize) -> Result<Bytes, AllocError> {
    let files = vec![in alloc; Fd(0); count]?;
    let control = write_control(alloc, &Control::new(None, files))?;
    Bytes::new(control)
}

/// An open of the object with this path.
fn open(alloc: Global, path: &[u8]) -> Result<Request, AllocError> {
    Ok(Request::Open {
        path: Name::from_slice(alloc, path)?,
        mode: Mode::Both,
        flags: OpenFlags(0),
    })
}

/// Back to the front of the file.
fn rewind(fd: u32) -> Request {
    Request::Lseek {
        fd: Fd(fd),
        offset: 0,
        whence: Whence::Set,
    }
}

/// A bind to this address.
fn bind(fd: u32, addr: Addr) -> Request {
    Request::Bind { fd: Fd(fd), addr }
}

/// A send of these bytes.
fn send(fd: u32, addr: Option<Addr>, bytes: Bytes, control: Bytes) -> Request {
    Request::SendMsg {
        fd: Fd(fd),
        addr,
        bytes,
        control,
        flags: MsgFlags(0),
    }
}

/// A receive of at most so many bytes, with so much room for control.
fn receive(fd: u32, n: usize, space: usize) -> Request {
    Request::RecvMsg {
        fd: Fd(fd),
        n,
        space,
        flags: MsgFlags(0),
    }
}

/// A send of so many bytes to an address, if there is one.
fn plain_send(
    alloc: Global,
    fd: u32,
    addr: Option<Addr>,
    length: usize,
) -> Result<Request, AllocError> {
    let bytes = bytes(alloc, length)?;
    Ok(send(fd, addr, bytes, Bytes::empty()))
}

/// A send of one byte that passes the file so many times.
fn pass(alloc: Global, fd: u32, count: usize) -> Result<Request, AllocError> {
    let control = rights(alloc, count)?;
    Ok(send(fd, None, bytes(alloc, 1)?, control))
}

/// The request of a row; of one that is many calls, that of this turn.
fn request_of(alloc: Global, row: Row, turn: u32) -> Result<Request, AllocError> {
    let flags = OpenFlags(0);
    Ok(match row {
        Row::Open => open(alloc, FILE)?,
        Row::OpenPipe => open(alloc, PIPE)?,
        Row::Poll(fd) => Request::Poll { fd: Fd(fd) },
        Row::Read(fd, n) => Request::Read { fd: Fd(fd), n },
        Row::Write(fd, length) => Request::Write {
            fd: Fd(fd),
            bytes: bytes(alloc, length)?,
        },
        Row::Rewind(fd) => rewind(fd),
        Row::Dup(fd) => Request::Dup { fd: Fd(fd) },
        Row::Close(fd) => Request::Close { fd: Fd(fd) },
        Row::CloseMany(first, _) => Request::Close {
            fd: Fd(first.saturating_add(turn)),
        },
        Row::Pair(kind) => Request::SocketPair { kind, flags },
        Row::Socket(kind) => Request::Socket { kind, flags },
        Row::BindPath(fd, path) => bind(fd, Addr::Path(Name::from_slice(alloc, path)?)),
        Row::Bind(fd, name) => bind(fd, abstract_addr(alloc, name)?),
        Row::Listen(fd, backlog) => Request::Listen {
            fd: Fd(fd),
            backlog,
        },
        Row::Connect(fd, name) => Request::Connect {
            fd: Fd(fd),
            addr: abstract_addr(alloc, name)?,
        },
        Row::Accept(fd) => Request::Accept { fd: Fd(fd), flags },
        Row::Send(fd, length) => plain_send(alloc, fd, None, length)?,
        Row::SendTo(fd, name, length) => {
            plain_send(alloc, fd, Some(abstract_addr(alloc, name)?), length)?
        }
        Row::Pass(fd, count) => pass(alloc, fd, count)?,
        Row::Receive(fd, n) => receive(fd, n, 0),
        Row::Take(fd) => receive(fd, 1, 2048),
    })
}

/// A send of the same bytes, made anew.
fn sent_anew(
    alloc: Global,
    fd: Fd,
    addr: &Option<Addr>,
    bytes: &Bytes,
    control: &Bytes,
) -> Result<Request, AllocError> {
    Ok(Request::SendMsg {
        fd,
        addr: addr.clone()?,
        bytes: Bytes::from_slice(alloc, bytes.as_slice())?,
        control: Bytes::from_slice(alloc, control.as_slice())?,
        flags: MsgFlags(0),
    })
}

/// The request that a caller gives who makes the bytes for it.
pub(crate) fn made_anew(alloc: Global, request: &Request) -> Result<Request, AllocError> {
    match request {
        Request::Write { fd, bytes } => Ok(Request::Write {
            fd: *fd,
            bytes: Bytes::from_slice(alloc, bytes.as_slice())?,
        }),
        Request::SendMsg {
            fd,
            addr,
            bytes,
            control,
            flags: _,
        } => sent_anew(alloc, *fd, addr, bytes, control),
        request => request.clone(),
    }
}

/// How a caller comes by the bytes of a request.
#[derive(Clone, Copy)]
pub(crate) enum Giving {
    /// It gives the same bytes again, as a C program sends the same buffer again.
    Again,
    /// It makes them for each call.
    Anew,
}

impl Giving {
    /// What the times of such calls are called.
    pub(crate) fn title(self) -> &'static str {
        match self {
            Giving::Again => "record",
            Giving::Anew => "anew",
        }
    }
}

/// The requests of some rows.
pub(crate) struct Requests {
    list: Vec<Request>,
}

/// As of a layer: each kind of request is a case in the proof of a drop.
impl Drop for Requests {
    fn drop(self) {
        let Requests { list } = self;
        drop(list);
    }
}

impl Requests {
    /// The requests of these rows.
    pub(crate) fn of(alloc: Global, rows: &[Row]) -> Result<Requests, AllocError> {
        let list = Vec::new(alloc);
        let mut requests = Requests { list };
        for row in rows {
            requests.add(alloc, *row)?;
        }
        Ok(requests)
    }

    /// Adds the requests of a row.
    fn add(&mut self, alloc: Global, row: Row) -> Result<(), AllocError> {
        for turn in 0..row.count() {
            self.list.push(request_of(alloc, row, turn)?)?;
        }
        Ok(())
    }

    /// The requests in turn.
    pub(crate) fn as_slice(&self) -> &[Request] {
        self.list.as_slice()
    }
}
