//! How a socket gets a name, listens, and is connected to another.
ghost use Rattle.std.specs.Prelude.{◌≡◌, ◌↔◌, ◌≤◌, length, Some, None, IfOk, IsSome, IsSomeAnd, MatchOption, OnOk, OnErr, is_some, option_map};
ghost use Rattle.ux_model.specs.Backlog.{backlog_of};
ghost use Rattle.ux_model.specs.Names.{is_unnamed_addr};
ghost use Rattle.ux_model.specs.Socket.{peer_of, awaiting};
ghost use Rattle.ux_model.specs.Binding.{with_name};
ghost use Rattle.ux_model.specs.Connecting.{listener_of, with_listening, server_end, tied};
ghost use Rattle.ux_model.specs.Accepting.{as_accepted};

use crate::phase::{Listener, Phase};
use crate::socket::Socket;
use std::alloc::{AllocError, Global};
use ux_backlog::{Backlog, PushError};
use ux_types::{Addr, Cred, DescriptionId};

impl Socket {
    /// Whether it has no name.
    pub fn is_unnamed(&self) -> bool
        ensures { result ≡ is_unnamed_addr self.now.name }
    {
        matches!(self.name, Addr::Unnamed)
    }

    /// Whether it is connected, also to one that is gone.
    pub fn is_connected(&self) -> bool
        ensures { result ≡ is_some (peer_of self.now.phase) }
    {
        matches!(self.phase, Phase::Connected(_))
    }

    /// Whether it listens.
    pub fn is_listening(&self) -> bool
        ensures { result ≡ is_some (listener_of self.now.phase) }
    {
        matches!(self.phase, Phase::Listening(_))
    }

    /// The ends that wait for accept(2), while it listens.
    pub fn backlog(&self) -> Option<&Backlog>
        ensures { MatchOption result (listener_of self.now.phase ≡ None) (λ b. option_map (λ kept. kept.backlog) (listener_of self.now.phase) ≡ Some b.now) }
    {
        match &self.phase {
            Phase::Listening(listener) => Some(&listener.backlog),
            _ => None,
        }
    }

    /// The credentials of the process that called listen(2), while it listens.
    pub fn listener_cred(&self) -> Option<Cred>
        ensures { result ≡ option_map (λ kept. kept.cred) (listener_of self.now.phase) }
    {
        match &self.phase {
            Phase::Listening(listener) => Some(listener.cred),
            _ => None,
        }
    }

    /// Gives it a name (bind(2)).
    pub fn set_name(&mut self, name: Addr)
        ensures { self.new ≡ with_name name self.old }
    {
        self.name = name;
    }

    /// Has it listen, for a process with these credentials (listen(2)). The ends that wait already stay. It
    /// takes no memory.
    pub fn listen(&mut self, alloc: Global, backlog: i32, cred: Cred)
        ensures { self.new ≡ with_listening (backlog_of backlog) cred self.old }
    {
        if let Phase::Listening(listener) = &mut self.phase {
            listener.backlog.set_limit(backlog);
            listener.cred = cred;
            return;
        }
        self.phase = Phase::Listening(Listener {
            backlog: Backlog::new(alloc, backlog),
            cred,
        });
    }

    /// The end that it gets of a new connection to this client, whose process has these credentials
    /// (connect(2)). It shows the listener's name.
    ///
    /// # Errors
    ///
    /// Out of memory.
    pub fn server_end(
        &self,
        alloc: Global,
        client: DescriptionId,
        cred: Cred,
    ) -> Result<Socket, AllocError>
        ensures { IfOk result (λ s. s ≡ server_end self.now client cred) }
    {
        let mut socket = Socket::new(alloc, self.kind());
        socket.phase = Phase::Connected(client);
        socket.name = self.name.clone()?;
        socket.peer_cred = Some(cred);
        socket.accepted = false;
        Ok(socket)
    }

    /// One more end waits at it, behind all others.
    ///
    /// # Errors
    ///
    /// `Full` exactly where the backlog is full, else `NoMemory`. The socket is then as before.
    pub fn push_pending(&mut self, end: DescriptionId) -> Result<(), PushError>
        requires { IsSome (listener_of self.old.phase) }
        ensures ok { OnOk result (self.new ≡ awaiting end self.old) }
        ensures full { (result ≡ Err PushError.Full) ↔ IsSomeAnd (listener_of self.old.phase) (λ kept. kept.backlog.limit ≤ length kept.backlog.pending) }
        ensures err { OnErr result (self.new ≡ self.old) }
    {
        match &mut self.phase {
            Phase::Listening(listener) => listener.backlog.push(end),
            // It listens, as the contract requires.
            _ => unreachable!(),
        }
    }

    /// Connects it to the socket of this description, whose process has these credentials.
    pub fn tie(&mut self, peer: DescriptionId, cred: Cred)
        ensures { self.new ≡ tied peer cred self.old }
    {
        self.phase = Phase::Connected(peer);
        self.peer_cred = Some(cred);
    }

    /// An accept has taken it.
    pub fn set_accepted(&mut self)
        ensures { self.new ≡ as_accepted self.old }
    {
        self.accepted = true;
    }
}
