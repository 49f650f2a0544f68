//! Changes of the socket that a description leads to.
ghost use Rattle.std.specs.Prelude.{◌≡◌, ◌↔◌, ◌≤◌, length, Some, None, IsSome, IsSomeAnd, MatchOption, OnOk, OnErr, option_and_then, slice_get};
ghost use Rattle.ux_model.specs.Backlog.{backlog_of};
ghost use Rattle.ux_model.specs.Socket.{pending_ends, awaiting, with_passcred, with_queue_limit, with_association, shut_down};
ghost use Rattle.ux_model.specs.Description.{socket_of, changed};
ghost use Rattle.ux_model.specs.Binding.{with_name};
ghost use Rattle.ux_model.specs.Connecting.{listener_of, with_listening, tied};
ghost use Rattle.ux_model.specs.Accepting.{accepted_with, without_first_end};
ghost use Rattle.ux_model.specs.Owning.{abstract_name, target_name};

use crate::description::{Description, Target};
use crate::socket::Socket;
use std::alloc::Global;
use ux_backlog::PushError;
use ux_types::{Addr, Cred, DescriptionId, Mode, Name, OpenFlags};

impl Description {
    /// The name of the abstract namespace that its socket shows, if it shows one.
    pub fn abstract_name(&self) -> Option<&Name>
        ensures { MatchOption result (target_name self.now.target ≡ None) (λ name. target_name self.now.target ≡ Some name.now) }
    {
        match &self.target {
            Target::Object(_) => None,
            Target::Socket(s) => abstract_name_of(s.name()),
        }
    }

    /// Gives its socket a name (bind(2)).
    pub fn set_name(&mut self, name: Addr)
        ensures { self.new ≡ changed (with_name name) self.old }
    {
        if let Target::Socket(s) = &mut self.target {
            s.set_name(name);
        }
    }

    /// Has its socket listen, for a process with these credentials (listen(2)). It takes no memory.
    pub fn listen(&mut self, alloc: Global, backlog: i32, cred: Cred)
        ensures { self.new ≡ changed (with_listening (backlog_of backlog) cred) self.old }
    {
        if let Target::Socket(s) = &mut self.target {
            s.listen(alloc, backlog, cred);
        }
    }

    /// One more end waits at its socket, behind all others.
    ///
    /// # Errors
    ///
    /// `Full` exactly where the backlog is full, else `NoMemory`. The description is then as before.
    pub fn push_pending(&mut self, end: DescriptionId) -> Result<(), PushError>
        requires { IsSomeAnd (socket_of self.old.target) (λ s. IsSome (listener_of s.phase)) }
        ensures ok { OnOk result (self.new ≡ changed (awaiting end) self.old) }
        ensures full { (result ≡ Err PushError.Full) ↔
            IsSomeAnd (socket_of self.old.target) (λ s. IsSomeAnd (listener_of s.phase) (λ kept. kept.backlog.limit ≤ length kept.backlog.pending)) }
        ensures err { OnErr result (self.new ≡ self.old) }
    {
        match &mut self.target {
            // It is a socket, as the contract requires.
            Target::Object(_) => unreachable!(),
            Target::Socket(s) => s.push_pending(end),
        }
    }

    /// Takes the oldest of the ends that wait at its socket off. It takes no memory.
    pub fn pop_pending(&mut self) -> Option<DescriptionId>
        ensures first { result ≡ option_and_then (λ s. slice_get (pending_ends s.phase) 0) (socket_of self.old.target) }
        ensures others { self.new ≡ changed without_first_end self.old }
    {
        match &mut self.target {
            Target::Object(_) => None,
            Target::Socket(s) => s.pop_pending(),
        }
    }

    /// Connects its socket to that of another description, whose process has these credentials.
    pub fn tie(&mut self, peer: DescriptionId, cred: Cred)
        ensures { self.new ≡ changed (tied peer cred) self.old }
    {
        if let Target::Socket(s) = &mut self.target {
            s.tie(peer, cred);
        }
    }

    /// Associates its datagram socket with that of another description, or with none (connect(2)).
    pub fn set_association(&mut self, target: Option<DescriptionId>)
        ensures { self.new ≡ changed (with_association target) self.old }
    {
        if let Target::Socket(s) = &mut self.target {
            s.set_association(target);
        }
    }

    /// Shuts its socket down for reading, for writing or for both (shutdown(2)).
    pub fn shut_down(&mut self, how: Mode)
        ensures { self.new ≡ changed (shut_down how) self.old }
    {
        if let Target::Socket(s) = &mut self.target {
            s.shut_down(how);
        }
    }

    /// A receive at its socket gets credentials from now on, or no longer (SO_PASSCRED).
    pub fn set_passcred(&mut self, on: bool)
        ensures { self.new ≡ changed (with_passcred on) self.old }
    {
        if let Target::Socket(s) = &mut self.target {
            s.set_passcred(on);
        }
    }

    /// Another limit of the bytes in its socket's queue. Nothing is dropped where these are more.
    pub fn set_queue_limit(&mut self, limit: u32)
        ensures { self.new ≡ changed (with_queue_limit limit) self.old }
    {
        if let Target::Socket(s) = &mut self.target {
            s.set_queue_limit(limit);
        }
    }

    /// An accept has taken its socket, and sets these flags (accept4(2)).
    pub fn set_accepted(&mut self, flags: OpenFlags)
        ensures { self.new ≡ accepted_with flags self.old }
    {
        if let Target::Socket(s) = &mut self.target {
            s.set_accepted();
        }
        self.set_flags(flags);
    }
}

/// The name of an address of the abstract namespace.
fn abstract_name_of(name: &Addr) -> Option<&Name>
    ensures { MatchOption result (abstract_name name.now ≡ None) (λ x. abstract_name name.now ≡ Some x.now) }
{
    match name {
        Addr::Abstract(name) => Some(name),
        _ => None,
    }
}
