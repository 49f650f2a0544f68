//! What an argument of a call may ask for.
ghost use Rattle.std.specs.Prelude.{◌≡◌};
ghost use Rattle.ux_types.specs.Modes.{can_read, can_write};

/// The type of a socket (socket(2)).
#[derive(Clone, Copy, Debug, PartialEq, Eq)]
pub enum SockType {
    /// A byte stream.
    Stream,
    /// Datagrams.
    Dgram,
    /// A sequence of records.
    Seq,
}

/// Which directions a file is open for, or a socket is shut down in.
#[derive(Clone, Copy, Debug, PartialEq, Eq)]
pub enum Mode {
    /// Reading alone.
    Read,
    /// Writing alone.
    Write,
    /// Both.
    Both,
}

impl Mode {
    /// Whether reading is among them.
    pub fn can_read(self) -> bool
        ensures { result ≡ can_read self }
    {
        matches!(self, Mode::Read | Mode::Both)
    }

    /// Whether writing is among them.
    pub fn can_write(self) -> bool
        ensures { result ≡ can_write self }
    {
        matches!(self, Mode::Write | Mode::Both)
    }
}

/// Where an offset counts from.
#[derive(Clone, Copy, Debug, PartialEq, Eq)]
pub enum Whence {
    /// The beginning.
    Set,
    /// The present offset.
    Cur,
    /// The end of the file.
    End,
}

/// An option of a socket, at the level SOL_SOCKET of getsockopt(2).
#[derive(Clone, Copy, Debug, PartialEq, Eq)]
pub enum SockOpt {
    /// SO_TYPE.
    Kind,
    /// SO_ERROR.
    Error,
    /// SO_PASSCRED.
    PassCred,
    /// SO_PEERCRED.
    PeerCred,
    /// SO_ACCEPTCONN.
    AcceptConn,
    /// How many bytes a stream socket's own queue takes: of this layer alone. The nearest that there is elsewhere is
    /// SO_SNDBUF of its peer (unix(7)).
    QueueLimit,
}
