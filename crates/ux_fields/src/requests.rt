//! The fields of each request.

ghost use Rattle.std.specs.Prelude.{◌≡◌, map};
ghost use Rattle.ux_fields.specs.Rows.{fields_of};
ghost use Rattle.ux_fields.specs.Seen.{seen};

use crate::fields::{Field, Fields};
use ux_types::Request;

const NONE: Field<'static> = Field::Number(0);

/// So many fields.
macro_rules! fields {
    () => { Fields { slots: [NONE, NONE, NONE, NONE, NONE], len: 0 } };
    ($a:expr) => { Fields { slots: [$a, NONE, NONE, NONE, NONE], len: 1 } };
    ($a:expr, $b:expr) => { Fields { slots: [$a, $b, NONE, NONE, NONE], len: 2 } };
    ($a:expr, $b:expr, $c:expr $(,)?) => { Fields { slots: [$a, $b, $c, NONE, NONE], len: 3 } };
    ($a:expr, $b:expr, $c:expr, $d:expr) => { Fields { slots: [$a, $b, $c, $d, NONE], len: 4 } };
    ($a:expr, $b:expr, $c:expr, $d:expr, $e:expr $(,)?) => { Fields { slots: [$a, $b, $c, $d, $e], len: 5 } };
}

/// The fields of a request, in the order of a script's line.
pub fn fields_of(request: &Request) -> Fields<'_>
    ensures { map seen result ≡ fields_of request.now }
{
    match request {
        Request::Open { path, mode, flags } | Request::Create { path, mode, flags } => {
            fields!(
                Field::Path(path),
                Field::Mode(*mode),
                Field::OpenFlags(*flags),
            )
        }
        Request::MemFd { flags } | Request::Pipe { flags } => fields!(Field::OpenFlags(*flags)),
        Request::EventFd {
            value,
            semaphore,
            flags,
        } => {
            let flags = Field::CounterFlags(*semaphore, *flags);
            fields!(Field::Number(*value), flags)
        }
        Request::Read { fd, n } => fields!(Field::Fd(*fd), Field::Size(*n)),
        Request::Write { fd, bytes } => fields!(Field::Fd(*fd), Field::Bytes(bytes)),
        Request::Lseek { fd, offset, whence } => {
            fields!(
                Field::Fd(*fd),
                Field::Offset(*offset),
                Field::Whence(*whence),
            )
        }
        Request::Dup { fd }
        | Request::GetFlags { fd }
        | Request::InQueue { fd }
        | Request::OutQueue { fd }
        | Request::Close { fd }
        | Request::GetSockName { fd }
        | Request::GetPeerName { fd }
        | Request::Poll { fd } => fields!(Field::Fd(*fd)),
        Request::PollMany { fds, waits } => fields!(Field::PollFds(fds), Field::Waits(*waits)),
        Request::Dup2 { fd, to } | Request::DupFrom { fd, minimum: to } => {
            fields!(Field::Fd(*fd), Field::Fd(*to))
        }
        Request::SetFlags { fd, flags } | Request::Accept { fd, flags } => {
            fields!(Field::Fd(*fd), Field::OpenFlags(*flags))
        }
        Request::Unlink { path } => fields!(Field::Path(path)),
        Request::Socket { kind, flags } | Request::SocketPair { kind, flags } => {
            fields!(Field::SockType(*kind), Field::OpenFlags(*flags))
        }
        Request::Bind { fd, addr } | Request::Connect { fd, addr } => {
            fields!(Field::Fd(*fd), Field::Addr(addr))
        }
        Request::Listen { fd, backlog } => { fields!(Field::Fd(*fd), Field::Backlog(*backlog)) }
        Request::Shutdown { fd, how } => fields!(Field::Fd(*fd), Field::Mode(*how)),
        Request::GetOpt { fd, opt } => fields!(Field::Fd(*fd), Field::SockOpt(*opt)),
        Request::SetOpt { fd, opt, value } => {
            fields!(Field::Fd(*fd), Field::SockOpt(*opt), Field::Value(*value))
        }
        Request::SendMsg {
            fd,
            addr,
            bytes,
            control,
            flags,
        } => fields!(
            Field::Fd(*fd),
            Field::Target(addr),
            Field::Bytes(bytes),
            Field::Control(control),
            Field::MsgFlags(*flags),
        ),
        Request::RecvMsg {
            fd,
            n,
            space,
            flags,
        } => {
            let (fd, flags) = (Field::Fd(*fd), Field::MsgFlags(*flags));
            fields!(fd, Field::Size(*n), Field::Space(*space), flags)
        }
        Request::SetIds { uid, gid } => fields!(Field::Number(*uid), Field::Number(*gid)),
        Request::Fork | Request::Exec | Request::Exit | Request::Off => fields!(),
    }
}
