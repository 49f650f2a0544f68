//! What a call gives, taken out of its reply.
ghost use Rattle.std.specs.Prelude.{◌≡◌, ◌↔◌, Some, None, Err, IfOk, IfErr, OnOk};
ghost use Rattle.ux_model.specs.ControlReading.{control_in};
ghost use Rattle.ux_model.specs.Types.{Reply};
ghost use Rattle.ux_model.specs.ReplyKinds.{is_done, is_fd, is_fds, is_count, is_bytes, is_offset, is_message, is_accepted, is_addr, is_value, is_cred, is_ready, is_polled, is_child, is_flags};
ghost use Rattle.delortxa.specs.Answering.{IsOther, other_error};

use crate::fault::CallError;
use std::alloc::Global;
use ux_cmsg::{Control, ControlError, read_control};
use ux_types::{Addr, Bytes, Cred, Fd, MsgFlags, OpenFlags, Pid, PollFlags, Reply, Revents};

/// What was received, as recvmsg(2) reports it.
#[derive(Debug, Drop, PartialEq, Eq)]
pub struct Message {
    /// The flags that the receive set.
    pub flags: MsgFlags,
    /// How many bytes there were: with the flag TRUNC in the receive, those of the whole record.
    pub count: usize,
    /// The bytes.
    pub bytes: Bytes,
    /// The bytes of the control buffer (cmsg(3)).
    pub control: Bytes,
    /// The sender's name, where the receive reports one.
    pub from: Option<Addr>,
}

impl Message {
    /// The credentials and the descriptors that came with it (SCM_CREDENTIALS and SCM_RIGHTS of unix(7)).
    ///
    /// # Errors
    ///
    /// `NoMemory`; `Invalid` exactly for bytes that spell none, which no receive gives.
    pub fn control(&self, alloc: Global) -> Result<Control, ControlError>
        ensures read { IfOk result (λ control. control_in self.now.control ≡ Some control) }
        ensures invalid { (result ≡ Err ControlError.Invalid) ↔ (control_in self.now.control ≡ None) }
    {
        read_control(alloc, self.control.as_slice())
    }
}

/// Why this reply is none of the kind that was looked for.
pub(crate) fn other_reply(reply: Reply) -> CallError
    ensures { result ≡ other_error reply }
{
    match reply {
        Reply::Err(errno) => CallError::Refused(errno),
        _ => CallError::Unlike,
    }
}

/// What a reply holds, by the kind that is looked for.
pub trait ReplyExt: Sized {
    /// The reply.
    ghost reply: { Self → Reply };

    /// That the call was done.
    ///
    /// # Errors
    ///
    /// `Refused` exactly for a refusal, else `Unlike` exactly for another reply.
    fn done(self) -> Result<(), CallError>
        ensures done { OnOk result (reply self ≡ Reply.Ok) }
        ensures failed { IfErr result (IsOther is_done (reply self)) };

    /// The new descriptor.
    ///
    /// # Errors
    ///
    /// `Refused` exactly for a refusal, else `Unlike` exactly for another reply.
    fn fd(self) -> Result<Fd, CallError>
        ensures fd { IfOk result (λ fd. reply self ≡ Reply.Fd fd) }
        ensures failed { IfErr result (IsOther is_fd (reply self)) };

    /// The two new descriptors.
    ///
    /// # Errors
    ///
    /// `Refused` exactly for a refusal, else `Unlike` exactly for another reply.
    fn fds(self) -> Result<(Fd, Fd), CallError>
        ensures fds { IfOk result (λ fds. reply self ≡ Reply.Fds fds.0 fds.1) }
        ensures failed { IfErr result (IsOther is_fds (reply self)) };

    /// How many bytes were taken.
    ///
    /// # Errors
    ///
    /// `Refused` exactly for a refusal, else `Unlike` exactly for another reply.
    fn count(self) -> Result<usize, CallError>
        ensures count { IfOk result (λ count. reply self ≡ Reply.Count count) }
        ensures failed { IfErr result (IsOther is_count (reply self)) };

    /// The bytes that were read.
    ///
    /// # Errors
    ///
    /// `Refused` exactly for a refusal, else `Unlike` exactly for another reply.
    fn bytes(self) -> Result<Bytes, CallError>
        ensures bytes { IfOk result (λ bytes. reply self ≡ Reply.Bytes bytes) }
        ensures failed { IfErr result (IsOther is_bytes (reply self)) };

    /// The offset, in bytes from the beginning.
    ///
    /// # Errors
    ///
    /// `Refused` exactly for a refusal, else `Unlike` exactly for another reply.
    fn offset(self) -> Result<u64, CallError>
        ensures offset { IfOk result (λ offset. reply self ≡ Reply.At offset) }
        ensures failed { IfErr result (IsOther is_offset (reply self)) };

    /// What was received.
    ///
    /// # Errors
    ///
    /// `Refused` exactly for a refusal, else `Unlike` exactly for another reply.
    fn message(self) -> Result<Message, CallError>
        ensures message { IfOk result (λ message. reply self ≡ Reply.Received message.flags message.count message.bytes message.control message.from) }
        ensures failed { IfErr result (IsOther is_message (reply self)) };

    /// The descriptor of the connection, and its client's name.
    ///
    /// # Errors
    ///
    /// `Refused` exactly for a refusal, else `Unlike` exactly for another reply.
    fn accepted(self) -> Result<(Fd, Addr), CallError>
        ensures accepted { IfOk result (λ accepted. reply self ≡ Reply.Accepted accepted.0 accepted.1) }
        ensures failed { IfErr result (IsOther is_accepted (reply self)) };

    /// The name of a socket.
    ///
    /// # Errors
    ///
    /// `Refused` exactly for a refusal, else `Unlike` exactly for another reply.
    fn addr(self) -> Result<Addr, CallError>
        ensures addr { IfOk result (λ addr. reply self ≡ Reply.Addr addr) }
        ensures failed { IfErr result (IsOther is_addr (reply self)) };

    /// The value of an option.
    ///
    /// # Errors
    ///
    /// `Refused` exactly for a refusal, else `Unlike` exactly for another reply.
    fn value(self) -> Result<u64, CallError>
        ensures value { IfOk result (λ value. reply self ≡ Reply.Opt value) }
        ensures failed { IfErr result (IsOther is_value (reply self)) };

    /// The credentials of a peer.
    ///
    /// # Errors
    ///
    /// `Refused` exactly for a refusal, else `Unlike` exactly for another reply.
    fn cred(self) -> Result<Cred, CallError>
        ensures cred { IfOk result (λ cred. reply self ≡ Reply.Cred cred) }
        ensures failed { IfErr result (IsOther is_cred (reply self)) };

    /// Which conditions hold, as poll(2) reports them.
    ///
    /// # Errors
    ///
    /// `Refused` exactly for a refusal, else `Unlike` exactly for another reply.
    fn ready(self) -> Result<PollFlags, CallError>
        ensures ready { IfOk result (λ ready. reply self ≡ Reply.Poll ready) }
        ensures failed { IfErr result (IsOther is_ready (reply self)) };

    /// Which conditions are reported of each of several descriptors, in order.
    ///
    /// # Errors
    ///
    /// `Refused` exactly for a refusal, else `Unlike` exactly for another reply.
    fn polled(self) -> Result<Revents, CallError>
        ensures found { IfOk result (λ found. reply self ≡ Reply.Polled found) }
        ensures failed { IfErr result (IsOther is_polled (reply self)) };

    /// The new process.
    ///
    /// # Errors
    ///
    /// `Refused` exactly for a refusal, else `Unlike` exactly for another reply.
    fn child(self) -> Result<Pid, CallError>
        ensures child { IfOk result (λ child. reply self ≡ Reply.Child child) }
        ensures failed { IfErr result (IsOther is_child (reply self)) };

    /// The flags of a descriptor and of its description.
    ///
    /// # Errors
    ///
    /// `Refused` exactly for a refusal, else `Unlike` exactly for another reply.
    fn flags(self) -> Result<OpenFlags, CallError>
        ensures flags { IfOk result (λ flags. reply self ≡ Reply.Flags flags) }
        ensures failed { IfErr result (IsOther is_flags (reply self)) };
}

impl ReplyExt for Reply {
    ghost reply = { λ r. r };

    fn done(self) -> Result<(), CallError> {
        match self {
            Reply::Ok => Ok(()),
            other => Err(other_reply(other)),
        }
    }

    fn fd(self) -> Result<Fd, CallError> {
        match self {
            Reply::Fd(fd) => Ok(fd),
            other => Err(other_reply(other)),
        }
    }

    fn fds(self) -> Result<(Fd, Fd), CallError> {
        match self {
            Reply::Fds(first, second) => Ok((first, second)),
            other => Err(other_reply(other)),
        }
    }

    fn count(self) -> Result<usize, CallError> {
        match self {
            Reply::Count(count) => Ok(count),
            other => Err(other_reply(other)),
        }
    }

    fn bytes(self) -> Result<Bytes, CallError> {
        match self {
            Reply::Bytes(bytes) => Ok(bytes),
            other => Err(other_reply(other)),
        }
    }

    fn offset(self) -> Result<u64, CallError> {
        match self {
            Reply::At(offset) => Ok(offset),
            other => Err(other_reply(other)),
        }
    }

    fn message(self) -> Result<Message, CallError> {
        match self {
            Reply::Received {
                flags,
                count,
                bytes,
                control,
                from,
            } => Ok(Message {
                flags,
                count,
                bytes,
                control,
                from,
            }),
            other => Err(other_reply(other)),
        }
    }

    fn accepted(self) -> Result<(Fd, Addr), CallError> {
        match self {
            Reply::Accepted(fd, addr) => Ok((fd, addr)),
            other => Err(other_reply(other)),
        }
    }

    fn addr(self) -> Result<Addr, CallError> {
        match self {
            Reply::Addr(addr) => Ok(addr),
            other => Err(other_reply(other)),
        }
    }

    fn value(self) -> Result<u64, CallError> {
        match self {
            Reply::Opt(value) => Ok(value),
            other => Err(other_reply(other)),
        }
    }

    fn cred(self) -> Result<Cred, CallError> {
        match self {
            Reply::Cred(cred) => Ok(cred),
            other => Err(other_reply(other)),
        }
    }

    fn ready(self) -> Result<PollFlags, CallError> {
        match self {
            Reply::Poll(flags) => Ok(flags),
            other => Err(other_reply(other)),
        }
    }

    fn polled(self) -> Result<Revents, CallError> {
        match self {
            Reply::Polled(found) => Ok(found),
            other => Err(other_reply(other)),
        }
    }

    fn child(self) -> Result<Pid, CallError> {
        match self {
            Reply::Child(pid) => Ok(pid),
            other => Err(other_reply(other)),
        }
    }

    fn flags(self) -> Result<OpenFlags, CallError> {
        match self {
            Reply::Flags(flags) => Ok(flags),
            other => Err(other_reply(other)),
        }
    }
}
