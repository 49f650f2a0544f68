//! The fields of each call: their names and kinds.

ghost use Rattle.std.specs.Prelude.{◌≡◌, map};
ghost use Rattle.ux_fields.specs.Forms.{form};

use crate::call_word::CallWord;

/// What a field of a call is.
#[derive(Clone, Copy, Debug, PartialEq, Eq)]
pub enum FieldKind {
    /// A descriptor number.
    Fd,
    /// A number of 32 bits.
    Number,
    /// A number of bytes.
    Size,
    /// A number of bytes of control data (cmsg(3)).
    Space,
    /// The value of an option.
    Value,
    /// A signed number of 64 bits.
    Offset,
    /// A signed number of 32 bits.
    Backlog,
    /// A path.
    Path,
    /// Bytes that are written or sent.
    Bytes,
    /// The address of a socket.
    Addr,
    /// The address of a socket, or none.
    Target,
    /// Reading, writing or both.
    Mode,
    /// Where an offset counts from.
    Whence,
    /// The type of a socket.
    SockType,
    /// An option of a socket.
    SockOpt,
    /// The flags of an open file description and of a descriptor.
    OpenFlags,
    /// The same of a counter, and whether it is a semaphore.
    CounterFlags,
    /// The flags of a send or a receive.
    MsgFlags,
    /// The bytes of a control buffer.
    Control,
    /// Descriptors, and what is asked for of each.
    PollFds,
    /// Whether the call waits.
    Waits,
}

/// A field of a call: its name, the sign that stands for it where the form of a line is shown, and its kind.
#[derive(Clone, Copy, Debug)]
pub struct FieldForm {
    pub name: &'static str,
    pub sign: &'static str,
    pub kind: FieldKind,
}

const FD: FieldForm = FieldForm {
    name: "fd",
    sign: "FD",
    kind: FieldKind::Fd,
};

const TO: FieldForm = FieldForm {
    name: "to",
    sign: "FD",
    kind: FieldKind::Fd,
};

const MINIMUM: FieldForm = FieldForm {
    name: "minimum",
    sign: "MIN",
    kind: FieldKind::Fd,
};

const UID: FieldForm = FieldForm {
    name: "uid",
    sign: "UID",
    kind: FieldKind::Number,
};

const GID: FieldForm = FieldForm {
    name: "gid",
    sign: "GID",
    kind: FieldKind::Number,
};

const COUNT: FieldForm = FieldForm {
    name: "value",
    sign: "VALUE",
    kind: FieldKind::Number,
};

const N: FieldForm = FieldForm {
    name: "n",
    sign: "N",
    kind: FieldKind::Size,
};

const SPACE: FieldForm = FieldForm {
    name: "space",
    sign: "SPACE",
    kind: FieldKind::Space,
};

const VALUE: FieldForm = FieldForm {
    name: "value",
    sign: "VALUE",
    kind: FieldKind::Value,
};

const OFFSET: FieldForm = FieldForm {
    name: "offset",
    sign: "OFFSET",
    kind: FieldKind::Offset,
};

const BACKLOG: FieldForm = FieldForm {
    name: "backlog",
    sign: "BACKLOG",
    kind: FieldKind::Backlog,
};

const PATH: FieldForm = FieldForm {
    name: "path",
    sign: "p:NAME",
    kind: FieldKind::Path,
};

const BYTES: FieldForm = FieldForm {
    name: "bytes",
    sign: "HEX",
    kind: FieldKind::Bytes,
};

const ADDR: FieldForm = FieldForm {
    name: "addr",
    sign: "ADDR",
    kind: FieldKind::Addr,
};

const TARGET: FieldForm = FieldForm {
    name: "addr",
    sign: "ADDR",
    kind: FieldKind::Target,
};

const MODE: FieldForm = FieldForm {
    name: "mode",
    sign: "MODE",
    kind: FieldKind::Mode,
};

const HOW: FieldForm = FieldForm {
    name: "how",
    sign: "MODE",
    kind: FieldKind::Mode,
};

const WHENCE: FieldForm = FieldForm {
    name: "whence",
    sign: "WHENCE",
    kind: FieldKind::Whence,
};

const TYPE: FieldForm = FieldForm {
    name: "type",
    sign: "TYPE",
    kind: FieldKind::SockType,
};

const OPT: FieldForm = FieldForm {
    name: "opt",
    sign: "OPT",
    kind: FieldKind::SockOpt,
};

const OFLAGS: FieldForm = FieldForm {
    name: "flags",
    sign: "OFLAGS",
    kind: FieldKind::OpenFlags,
};

const EFLAGS: FieldForm = FieldForm {
    name: "flags",
    sign: "EFLAGS",
    kind: FieldKind::CounterFlags,
};

const MFLAGS: FieldForm = FieldForm {
    name: "flags",
    sign: "MFLAGS",
    kind: FieldKind::MsgFlags,
};

const CONTROL: FieldForm = FieldForm {
    name: "control",
    sign: "CONTROL",
    kind: FieldKind::Control,
};

const FDS: FieldForm = FieldForm {
    name: "fds",
    sign: "FDS",
    kind: FieldKind::PollFds,
};

const WAITS: FieldForm = FieldForm {
    name: "waits",
    sign: "WAITS",
    kind: FieldKind::Waits,
};

/// The fields of a call, in the order of a script's line.
pub fn form_of(word: CallWord) -> &'static [FieldForm]
    ensures { map (λ f. (f.name.now, f.sign.now, f.kind)) result.now ≡ form word }
{
    match word {
        CallWord::Open | CallWord::Create => &[PATH, MODE, OFLAGS],
        CallWord::MemFd | CallWord::Pipe => &[OFLAGS],
        CallWord::EventFd => &[COUNT, EFLAGS],
        CallWord::Read => &[FD, N],
        CallWord::Write => &[FD, BYTES],
        CallWord::Lseek => &[FD, OFFSET, WHENCE],
        CallWord::Dup | CallWord::GetFlags | CallWord::Close => &[FD],
        CallWord::Inq | CallWord::Outq => &[FD],
        CallWord::Dup2 => &[FD, TO],
        CallWord::DupFrom => &[FD, MINIMUM],
        CallWord::Flags | CallWord::Accept => &[FD, OFLAGS],
        CallWord::Unlink => &[PATH],
        CallWord::Socket | CallWord::Pair => &[TYPE, OFLAGS],
        CallWord::Bind | CallWord::Connect => &[FD, ADDR],
        CallWord::Listen => &[FD, BACKLOG],
        CallWord::Shut => &[FD, HOW],
        CallWord::GetOpt => &[FD, OPT],
        CallWord::SetOpt => &[FD, OPT, VALUE],
        CallWord::SockName | CallWord::PeerName | CallWord::Poll => &[FD],
        CallWord::Polls => &[FDS, WAITS],
        CallWord::Send => &[FD, TARGET, BYTES, CONTROL, MFLAGS],
        CallWord::Recv => &[FD, N, SPACE, MFLAGS],
        CallWord::SetIds => &[UID, GID],
        CallWord::Fork | CallWord::Exec | CallWord::Exit | CallWord::Off => &[],
    }
}
