//! The limits of the layer, each where it is named in the calls' pages. What bounds one kind of file object alone
//! stands with it.

ghost use Rattle.std.specs.Prelude.{◌≡◌};
ghost use Rattle.ux_types.specs.ObjectLimits.{most_objects};

use crate::control_layout::{CMSG_CRED_SPACE, CMSG_FD_LEN, CMSG_HEAD_LEN};

/// The most file objects that one kernel may have.
pub const OBJECT_LIMIT: usize = 64;

/// The most where more are asked for.
pub const RAISED_OBJECT_LIMIT: usize = 4096;

/// How many file objects a kernel may be booted with.
#[derive(Clone, Copy, Debug, PartialEq, Eq)]
pub enum ObjectLimit {
    /// 64.
    Usual,
    /// 4,096.
    Raised,
}

impl ObjectLimit {
    /// The most file objects.
    pub fn count(self) -> usize
        ensures { result ≡ most_objects self }
    {
        match self {
            ObjectLimit::Usual => OBJECT_LIMIT,
            ObjectLimit::Raised => RAISED_OBJECT_LIMIT,
        }
    }
}

/// The most processes that a kernel is booted with.
pub const PROCESS_LIMIT: usize = 64;

/// The most processes that a kernel makes in all, those that have exited counted.
pub const MADE_LIMIT: usize = 1024;

/// The most descriptors that one process may have open.
pub const TABLE_LIMIT: u32 = 4096;

/// How many bytes the queue of a new stream socket takes.
pub const FIRST_QUEUE_LIMIT: u32 = 65536;

/// The greatest limit that a stream socket's queue may be given.
pub const GREATEST_QUEUE_LIMIT: u32 = 1048576;

/// The most datagrams or records that wait in a socket's queue.
pub const RECORD_LIMIT: usize = 16;

/// The most bytes of one datagram or record.
pub const RECORD_BYTES_LIMIT: usize = 65536;

/// The most descriptors that go in one message (SCM_MAX_FD of unix(7)).
pub const RIGHTS_LIMIT: usize = 253;

/// The longest control buffer that a receive reports: credentials with their padding, and the most rights of a
/// message.
pub const CONTROL_LIMIT: usize = CMSG_CRED_SPACE + CMSG_HEAD_LEN + CMSG_FD_LEN * RIGHTS_LIMIT;

/// The most bytes that one read asks for.
pub const READ_LIMIT: usize = 1048576;

/// The most bytes of a path and of an abstract name (sun_path of unix(7), without its NUL).
pub const NAME_LIMIT: usize = 107;

/// The most descriptors that one poll(2) asks of.
pub const POLL_LIMIT: usize = 64;
