//! A reply as a trace has it.

ghost use Rattle.std.specs.Prelude.{◌≡◌, IfOk, Some};
ghost use Rattle.ux_trace.specs.Trace.{errno_text, reply_text, reply_reading};

use crate::polling::FoundText;
use crate::words::{
    AddrOrDash, AddrText, HexText, OpenFlagNames, ParsedControl, PollFlagNames, ReceivedFlags,
};
use std::alloc::{AllocError, Global};
use std::fmt;
use ux_cmsg::{Control, ControlError, read_control};
use ux_types::{Errno, Reply};

/// The name of a refusal, as `EAGAIN`.
pub fn errno_name(errno: Errno) -> &'static str
    ensures { result.now ≡ errno_text errno }
{
    match errno {
        Errno::EPERM => "EPERM",
        Errno::ENOENT => "ENOENT",
        Errno::ESRCH => "ESRCH",
        Errno::EIO => "EIO",
        Errno::EBADF => "EBADF",
        Errno::EAGAIN => "EAGAIN",
        Errno::ENOMEM => "ENOMEM",
        Errno::EINVAL => "EINVAL",
        Errno::EMFILE => "EMFILE",
        Errno::EFBIG => "EFBIG",
        Errno::ENOSPC => "ENOSPC",
        Errno::ESPIPE => "ESPIPE",
        Errno::EPIPE => "EPIPE",
        Errno::ENOTSOCK => "ENOTSOCK",
        Errno::EDESTADDRREQ => "EDESTADDRREQ",
        Errno::EMSGSIZE => "EMSGSIZE",
        Errno::EPROTOTYPE => "EPROTOTYPE",
        Errno::EOPNOTSUPP => "EOPNOTSUPP",
        Errno::EADDRINUSE => "EADDRINUSE",
        Errno::ECONNRESET => "ECONNRESET",
        Errno::EISCONN => "EISCONN",
        Errno::ENOTCONN => "ENOTCONN",
        Errno::ETOOMANYREFS => "ETOOMANYREFS",
        Errno::ECONNREFUSED => "ECONNREFUSED",
        Errno::ENFILE => "ENFILE",
        Errno::EEXIST => "EEXIST",
        Errno::ENOTTY => "ENOTTY",
    }
}

/// What the control bytes of a reply read as: nothing where they spell no items, or where it has none.
pub(crate) fn control_of(alloc: Global, reply: &Reply) -> Result<Option<Control>, AllocError>
    ensures { IfOk result (λ read. reply_reading read reply.now ≡ reply_text reply.now) }
{
    let Reply::Received { control, .. } = reply else {
        return Ok(None);
    };
    match read_control(alloc, control.as_slice()) {
        Ok(control) => Ok(Some(control)),
        Err(ControlError::Invalid) => Ok(None),
        Err(ControlError::NoMemory) => Err(AllocError),
    }
}

/// A reply as a trace has it, and what its control bytes read as.
#[derive(Clone, Copy)]
pub(crate) struct ReplyText<'a> {
    pub(crate) reply: &'a Reply,
    pub(crate) read: &'a Option<Control>,
}

impl fmt::Display for ReplyText<'_> {
    ghost output = { λ r. Some (reply_reading r.read.now r.reply.now) };

    fn fmt<W: fmt::Write>(&self, f: &mut fmt::Formatter<W>) -> fmt::Result {
        match self.reply {
            Reply::Ok => write!(f, "ok"),
            Reply::Fd(fd) => write!(f, "fd {}", fd.0),
            Reply::Fds(first, second) => write!(f, "fds {} {}", first.0, second.0),
            Reply::Count(count) => write!(f, "n {count}"),
            Reply::Bytes(bytes) => write!(f, "bytes {}", HexText(bytes.as_slice())),
            Reply::At(offset) => write!(f, "at {offset}"),
            Reply::Received {
                flags,
                count,
                bytes,
                control,
                from,
            } => {
                let bytes = HexText(bytes.as_slice());
                let flags = ReceivedFlags(*flags);
                let items = ParsedControl {
                    bytes: control.as_slice(),
                    read: self.read,
                };
                let from = AddrOrDash(from);
                write!(f, "got {count} {bytes} {flags} {items} {from}")
            }
            Reply::Accepted(fd, addr) => write!(f, "accepted {} {}", fd.0, AddrText(addr)),
            Reply::Addr(addr) => write!(f, "addr {}", AddrText(addr)),
            Reply::Opt(value) => write!(f, "opt {value}"),
            Reply::Cred(cred) => write!(f, "cred {} {} {}", cred.pid.0, cred.uid, cred.gid),
            Reply::Poll(flags) => write!(f, "poll {}", PollFlagNames(*flags)),
            Reply::Polled(found) => write!(f, "polled{}", FoundText(found.as_slice())),
            Reply::Child(pid) => write!(f, "child {}", pid.0),
            Reply::Flags(flags) => write!(f, "flags {}", OpenFlagNames(*flags)),
            Reply::Err(errno) => write!(f, "err {}", errno_name(*errno)),
        }
    }
}
