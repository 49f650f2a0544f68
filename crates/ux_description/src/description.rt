//! An open file description.
ghost use Rattle.std.specs.Prelude.{◌≡◌, ◌↔◌, ◌<◌, false, Some, None, MatchOption, IsTrue, IsSomeAnd, IsErrAnd, IfOk, IfErr, OnOk, OnErr, length, option_map};
ghost use Rattle.ux_model.specs.Socket.{is_stream, has_room, sent_part, sent, with_queue, with_reset};
ghost use Rattle.ux_model.specs.Front.{OnFront};
ghost use Rattle.ux_model.specs.Description.{socket_of, object_of, changed};
ghost use Rattle.ux_model.specs.Pairing.{socket_description};
ghost use Rattle.ux_model.specs.Opening.{file_description};
ghost use Rattle.ux_model.specs.Descriptors.{with_flags};
ghost use Rattle.ux_model.specs.Peers.{lost_peer};
ghost use Rattle.ux_rights.specs.Drafts.{drafted};
ghost use Rattle.ux_description.specs.Targets.{target_of};

use crate::socket::Socket;
use bitflags::Flags;
use std::marker::Model;
use ux_rights::{Draft, RefList, SendError};
use ux_stream::Unsent;
use ux_types::{Addr, DescriptionId, Mode, OpenFlags};

/// What a description leads to.
#[derive(Drop)]
pub enum Target {
    /// A file object, by its number.
    Object(u32),
    /// A socket, which no other description shares.
    Socket(Socket),
}

/// What all descriptors of one open file share (POSIX.1-2017, Base Definitions 3.258).
pub struct Description {
    /// Where a memory file is read and written next.
    offset: u64,
    mode: Mode,
    append: bool,
    nonblock: bool,
    pub(crate) target: Target,
}

// Written out, so that it is proved here and not in each function that drops one.
impl Drop for Description {
    fn drop(self) {
        let Description {
            offset: _,
            mode: _,
            append: _,
            nonblock: _,
            target,
        } = self;
        drop(target);
    }
}

impl Model for Description {
    ghost use Rattle.ux_model.specs.Description as model;
    ghost use Rattle.ux_description.specs.Targets.{target_of};

    ghost Value = { model.Description };

    ghost view = { λ d. record { offset = d.offset; mode = d.mode; append = d.append; nonblock = d.nonblock; target = target_of d.target } };
}

impl Description {
    /// A new description of a file object, at its beginning (open(2)).
    pub fn of_object(object: u32, mode: Mode, flags: OpenFlags) -> Description
        ensures { result ≡ file_description object mode flags }
    {
        Description {
            offset: 0,
            mode,
            append: flags.contains(OpenFlags::APPEND),
            nonblock: flags.contains(OpenFlags::NONBLOCK),
            target: Target::Object(object),
        }
    }

    /// A new description of a socket.
    pub fn of_socket(flags: OpenFlags, socket: Socket) -> Description
        ensures { result ≡ socket_description flags socket }
    {
        Description {
            offset: 0,
            mode: Mode::Both,
            append: flags.contains(OpenFlags::APPEND),
            nonblock: flags.contains(OpenFlags::NONBLOCK),
            target: Target::Socket(socket),
        }
    }

    /// Where a memory file is read and written next.
    pub fn offset(&self) -> u64
        ensures { result ≡ self.now.offset }
    {
        self.offset
    }

    /// What it is open for.
    pub fn mode(&self) -> Mode
        ensures { result ≡ self.now.mode }
    {
        self.mode
    }

    /// Whether a memory file is written at its end (O_APPEND).
    pub fn append(&self) -> bool
        ensures { result ≡ self.now.append }
    {
        self.append
    }

    /// Whether a call on it never waits (O_NONBLOCK).
    pub fn nonblock(&self) -> bool
        ensures { result ≡ self.now.nonblock }
    {
        self.nonblock
    }

    /// The number of the file object that it leads to, if it leads to one.
    pub fn object(&self) -> Option<u32>
        ensures { result ≡ object_of self.now.target }
    {
        match &self.target {
            Target::Object(o) => Some(*o),
            Target::Socket(_) => None,
        }
    }

    /// The socket that it leads to, if it leads to one.
    pub fn socket(&self) -> Option<&Socket>
        ensures { MatchOption result (socket_of self.now.target ≡ None) (λ s. socket_of self.now.target ≡ Some s.now) }
    {
        match &self.target {
            Target::Object(_) => None,
            Target::Socket(s) => Some(s),
        }
    }

    /// Moves the offset (lseek(2)).
    pub fn set_offset(&mut self, offset: u64)
        ensures { self.new ≡ record self.old { offset = offset } }
    {
        self.offset = offset;
    }

    /// Sets or clears the flags that all its descriptors share (fcntl(2), F_SETFL).
    pub fn set_flags(&mut self, flags: OpenFlags)
        ensures { self.new ≡ with_flags flags self.old }
    {
        self.append = flags.contains(OpenFlags::APPEND);
        self.nonblock = flags.contains(OpenFlags::NONBLOCK);
    }

    /// Queues a message at its socket, of a stream the bytes that there is room for, and says how many bytes.
    /// A stream is sent some, and keeps no sender's name.
    ///
    /// # Errors
    ///
    /// `Full` exactly where there is no room, else `NoMemory`. The rights are given back, and the description stands
    /// as before.
    pub fn send(
        &mut self,
        draft: Draft<'_>,
        rights: RefList,
        from: Option<Addr>,
    ) -> Result<usize, Unsent>
        requires some { IsSomeAnd (socket_of self.old.target) (λ s. IsTrue (is_stream s.kind) → 0 < length draft.bytes.now) }
        ensures count { IfOk result (λ count. IsSomeAnd (socket_of self.old.target) (λ s. count ≡ length (sent_part s (drafted draft.entry rights from)).bytes)) }
        ensures ok { OnOk result (self.new ≡ changed (sent (drafted draft.entry rights from)) self.old) }
        ensures full { IsErrAnd result (λ e. e.error ≡ SendError.Full) ↔ IsSomeAnd (socket_of self.old.target) (λ s. has_room s ≡ false) }
        ensures given_back { IfErr result (λ e. e.rights ≡ rights) }
        ensures err { OnErr result (self.new ≡ self.old) }
    {
        match &mut self.target {
            // It is a socket, as the contract requires.
            Target::Object(_) => unreachable!(),
            Target::Socket(s) => s.send(draft, rights, from),
        }
    }

    /// Takes off what a receive of at most n bytes takes at its socket, and gives the rights that come with
    /// it, and the user who sent them where there are any. It takes no memory.
    pub fn skip(&mut self, n: usize) -> (RefList, Option<u32>)
        requires some { IsSomeAnd (socket_of self.old.target) (λ s. 0 < length s.queue) }
        ensures rights { IsSomeAnd (socket_of self.old.target) (λ s. OnFront n s (λ f. result.0 ≡ f.rights)) }
        ensures sender { IsSomeAnd (socket_of self.old.target) (λ s. OnFront n s (λ f. result.1 ≡ option_map (λ o. o.uid) f.origin)) }
        ensures rest { IsSomeAnd (socket_of self.old.target) (λ s. OnFront n s (λ f. self.new ≡ changed (with_queue f.rest) self.old)) }
    {
        match &mut self.target {
            // It is a socket, as the contract requires.
            Target::Object(_) => unreachable!(),
            Target::Socket(s) => s.skip(n),
        }
    }

    /// The description that its loss resets, if there is one.
    pub fn lost_peer(&self) -> Option<DescriptionId>
        ensures { result ≡ lost_peer self.now }
    {
        match &self.target {
            Target::Socket(s) if s.resets_peer() => s.peer(),
            _ => None,
        }
    }

    /// ECONNRESET is pending at its socket from now on, or no longer.
    pub fn set_reset(&mut self, on: bool)
        ensures { self.new ≡ changed (with_reset on) self.old }
    {
        if let Target::Socket(s) = &mut self.target {
            s.set_reset(on);
        }
    }

    /// What it leads to, taken out of it.
    pub fn into_target(self) -> Target
        ensures { target_of result ≡ self.target }
    {
        let Description {
            offset: _,
            mode: _,
            append: _,
            nonblock: _,
            target,
        } = self;
        target
    }
}
