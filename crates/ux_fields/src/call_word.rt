//! The word that names a call.

ghost use Rattle.std.specs.Prelude.{◌≡◌};
ghost use Rattle.ux_fields.specs.Forms.{word_text, request_word, wants_serial};

use ux_types::Request;

/// The words that name calls. A script has no call of the last.
#[derive(Clone, Copy, Debug, PartialEq, Eq)]
pub enum CallWord {
    Open,
    Create,
    MemFd,
    EventFd,
    Pipe,
    Read,
    Write,
    Lseek,
    Dup,
    Dup2,
    DupFrom,
    GetFlags,
    Flags,
    Inq,
    Outq,
    Close,
    Unlink,
    Socket,
    Pair,
    Bind,
    Listen,
    Connect,
    Accept,
    Shut,
    GetOpt,
    SetOpt,
    SockName,
    PeerName,
    Send,
    Recv,
    Poll,
    Polls,
    SetIds,
    Fork,
    Exec,
    Exit,
    Off,
}

/// The words that a script may have behind a process's number.
pub const SCRIPT_WORDS: &[CallWord] = &[
    CallWord::Open,
    CallWord::Create,
    CallWord::MemFd,
    CallWord::EventFd,
    CallWord::Pipe,
    CallWord::Read,
    CallWord::Write,
    CallWord::Lseek,
    CallWord::Dup,
    CallWord::Dup2,
    CallWord::DupFrom,
    CallWord::GetFlags,
    CallWord::Flags,
    CallWord::Inq,
    CallWord::Outq,
    CallWord::Close,
    CallWord::Unlink,
    CallWord::Socket,
    CallWord::Pair,
    CallWord::Bind,
    CallWord::Listen,
    CallWord::Connect,
    CallWord::Accept,
    CallWord::Shut,
    CallWord::GetOpt,
    CallWord::SetOpt,
    CallWord::SockName,
    CallWord::PeerName,
    CallWord::Send,
    CallWord::Recv,
    CallWord::Poll,
    CallWord::Polls,
    CallWord::SetIds,
    CallWord::Fork,
    CallWord::Exec,
    CallWord::Exit,
];

impl CallWord {
    /// The word that names a call, in a script and in a trace.
    pub fn of(request: &Request) -> CallWord
        ensures { result ≡ request_word request.now }
    {
        match request {
            Request::Open { .. } => CallWord::Open,
            Request::Create { .. } => CallWord::Create,
            Request::MemFd { .. } => CallWord::MemFd,
            Request::EventFd { .. } => CallWord::EventFd,
            Request::Pipe { .. } => CallWord::Pipe,
            Request::Read { .. } => CallWord::Read,
            Request::Write { .. } => CallWord::Write,
            Request::Lseek { .. } => CallWord::Lseek,
            Request::Dup { .. } => CallWord::Dup,
            Request::Dup2 { .. } => CallWord::Dup2,
            Request::DupFrom { .. } => CallWord::DupFrom,
            Request::GetFlags { .. } => CallWord::GetFlags,
            Request::SetFlags { .. } => CallWord::Flags,
            Request::InQueue { .. } => CallWord::Inq,
            Request::OutQueue { .. } => CallWord::Outq,
            Request::Close { .. } => CallWord::Close,
            Request::Unlink { .. } => CallWord::Unlink,
            Request::Socket { .. } => CallWord::Socket,
            Request::SocketPair { .. } => CallWord::Pair,
            Request::Bind { .. } => CallWord::Bind,
            Request::Listen { .. } => CallWord::Listen,
            Request::Connect { .. } => CallWord::Connect,
            Request::Accept { .. } => CallWord::Accept,
            Request::Shutdown { .. } => CallWord::Shut,
            Request::GetOpt { .. } => CallWord::GetOpt,
            Request::SetOpt { .. } => CallWord::SetOpt,
            Request::GetSockName { .. } => CallWord::SockName,
            Request::GetPeerName { .. } => CallWord::PeerName,
            Request::SendMsg { .. } => CallWord::Send,
            Request::RecvMsg { .. } => CallWord::Recv,
            Request::Poll { .. } => CallWord::Poll,
            Request::PollMany { .. } => CallWord::Polls,
            Request::SetIds { .. } => CallWord::SetIds,
            Request::Fork => CallWord::Fork,
            Request::Exec => CallWord::Exec,
            Request::Exit => CallWord::Exit,
            Request::Off => CallWord::Off,
        }
    }

    /// The word as it is written.
    pub fn text(self) -> &'static str
        ensures { result.now ≡ word_text self }
    {
        match self {
            CallWord::Open => "open",
            CallWord::Create => "create",
            CallWord::MemFd => "memfd",
            CallWord::EventFd => "eventfd",
            CallWord::Pipe => "pipe",
            CallWord::Read => "read",
            CallWord::Write => "write",
            CallWord::Lseek => "lseek",
            CallWord::Dup => "dup",
            CallWord::Dup2 => "dup2",
            CallWord::DupFrom => "dupfd",
            CallWord::GetFlags => "getfl",
            CallWord::Flags => "flags",
            CallWord::Inq => "inq",
            CallWord::Outq => "outq",
            CallWord::Close => "close",
            CallWord::Unlink => "unlink",
            CallWord::Socket => "socket",
            CallWord::Pair => "pair",
            CallWord::Bind => "bind",
            CallWord::Listen => "listen",
            CallWord::Connect => "connect",
            CallWord::Accept => "accept",
            CallWord::Shut => "shut",
            CallWord::GetOpt => "getopt",
            CallWord::SetOpt => "setopt",
            CallWord::SockName => "sockname",
            CallWord::PeerName => "peername",
            CallWord::Send => "send",
            CallWord::Recv => "recv",
            CallWord::Poll => "poll",
            CallWord::Polls => "polls",
            CallWord::SetIds => "setids",
            CallWord::Fork => "fork",
            CallWord::Exec => "exec",
            CallWord::Exit => "exit",
            CallWord::Off => "off",
        }
    }

    /// Whether the call stands only where a script has one order alone.
    pub fn wants_serial(self) -> bool
        ensures { result ≡ wants_serial self }
    {
        matches!(
            self,
            CallWord::Create
                | CallWord::MemFd
                | CallWord::EventFd
                | CallWord::Pipe
                | CallWord::DupFrom
                | CallWord::GetFlags
                | CallWord::Inq
                | CallWord::Outq
                | CallWord::SetIds
        )
    }
}
