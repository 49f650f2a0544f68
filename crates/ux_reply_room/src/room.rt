//! Room for a copy of one reply.
ghost use Rattle.std.specs.Prelude.{◌≡◌, IfOk, OnOk, OnErr, IsTrue, IsSomeAnd};
ghost use Rattle.ux_model.specs.Rooms.{size_of, room_for, Fits};
ghost use Rattle.ux_reply_room.specs.Sizes.{size_by};

use crate::copying::{addr_copy, sender_copy};
use std::alloc::{AllocError, Global};
use std::marker::Model;
use ux_types::{
    BytesRoom, CONTROL_LIMIT, GREATEST_QUEUE_LIMIT, NAME_LIMIT, READ_LIMIT, Reply, Request,
};

/// Room for a copy of one reply. Contracts see how many bytes of data, of control and of a name it has room for.
#[derive(Drop)]
pub struct ReplyRoom {
    data: BytesRoom,
    control: BytesRoom,
    name: BytesRoom,
    sizes: Sizes,
}

/// How many bytes of data, of control and of a name.
#[derive(Clone, Copy)]
struct Sizes {
    data: usize,
    control: usize,
    name: usize,
}

impl Model for ReplyRoom {
    ghost use Rattle.ux_model.specs.Rooms.{Size, Fits};
    ghost use Rattle.ux_reply_room.specs.Sizes.{size_by};

    ghost Value = { Size };

    ghost view = { λ r. record { data_bytes = r.data; control = r.control; name = r.name } };

    ghost invariant = { λ r. Fits (size_by r.sizes) (record { data_bytes = r.data; control = r.control; name = r.name }) };
}

/// How many bytes the reply to a request may have.
#[tactic(auto, unfolding(ux_model::specs::Rooms::room_for))]
fn sizes_for(request: &Request) -> Sizes
    ensures { size_by result ≡ room_for request.now }
{
    let mut sizes = Sizes {
        data: 0,
        control: 0,
        name: 0,
    };
    match request {
        Request::Read { n, .. } => sizes.data = READ_LIMIT.min(*n),
        Request::RecvMsg { n, space, .. } => {
            sizes.data = (GREATEST_QUEUE_LIMIT as usize).min(*n);
            sizes.control = CONTROL_LIMIT.min(*space);
            sizes.name = NAME_LIMIT;
        }
        Request::Accept { .. } | Request::GetSockName { .. } | Request::GetPeerName { .. } => {
            sizes.name = NAME_LIMIT;
        }
        _ => {}
    }
    sizes
}

impl ReplyRoom {
    /// Room for the reply to this request, whichever it is. A request whose replies hold no bytes takes none.
    ///
    /// # Errors
    ///
    /// An allocation failed.
    pub fn for_request(alloc: Global, request: &Request) -> Result<ReplyRoom, AllocError>
        ensures { IfOk result (λ room. Fits (room_for request.now) room) }
    {
        ReplyRoom::of_sizes(alloc, sizes_for(request))
    }

    /// Room for so many bytes.
    fn of_sizes(alloc: Global, sizes: Sizes) -> Result<ReplyRoom, AllocError>
        ensures { IfOk result (λ room. Fits (size_by sizes) room) }
    {
        Ok(ReplyRoom {
            data: BytesRoom::new(alloc, sizes.data)?,
            control: BytesRoom::new(alloc, sizes.control)?,
            name: BytesRoom::new(alloc, sizes.name)?,
            sizes,
        })
    }

    /// Sees to it that there is room for the reply to this request. Room that was kept stays where it is
    /// enough, or where there is no memory for more, and else makes way for more.
    ///
    /// # Errors
    ///
    /// An allocation failed.
    pub fn provide(
        kept: &mut Option<ReplyRoom>,
        alloc: Global,
        request: &Request,
    ) -> Result<(), AllocError>
        ensures room { OnOk result (IsSomeAnd kept.new (λ room. Fits (room_for request.now) room)) }
        ensures same { OnErr result (kept.new ≡ kept.old) }
    {
        let wanted = sizes_for(request);
        let wanted = match kept {
            Some(room) if room.has(wanted) => return Ok(()),
            Some(room) => room.sizes.or_more(wanted),
            None => wanted,
        };
        *kept = Some(ReplyRoom::of_sizes(alloc, wanted)?);
        Ok(())
    }

    /// A copy of the reply: further owners of what it holds, and where there can be none, a copy in the room
    /// that was kept. It takes no memory.
    pub fn lend(kept: &mut Option<ReplyRoom>, reply: &Reply) -> Reply
        requires fits { IsSomeAnd kept.old (λ room. Fits (size_of reply.now) room) }
        ensures same { result ≡ reply.now }
    {
        if let Some(copy) = reply.numbers() {
            return copy;
        }
        ReplyRoom::lend_parts(kept, reply)
    }

    /// A copy of a reply that holds bytes or a name.
    // Apart, a copy of numbers moves no room for parts.
    #[inline(never)]
    fn lend_parts(kept: &mut Option<ReplyRoom>, reply: &Reply) -> Reply
        requires fits { IsSomeAnd kept.old (λ room. Fits (size_of reply.now) room) }
        ensures same { result ≡ reply.now }
    {
        if let Ok(copy) = reply.clone() {
            return copy;
        }
        match kept.take() {
            Some(room) => room.copy(reply),
            // There is room, as the contract requires.
            None => unreachable!(),
        }
    }

    /// Whether there is room for so many bytes.
    fn has(&self, sizes: Sizes) -> bool
        ensures { IsTrue result → Fits (size_by sizes) self.now }
    {
        sizes.data <= self.sizes.data
            && sizes.control <= self.sizes.control
            && sizes.name <= self.sizes.name
    }

    /// A copy of the reply, in this room: it takes no memory.
    #[tactic(auto, unfolding(ux_model::specs::Rooms::size_of))]
    pub fn copy(self, reply: &Reply) -> Reply
        requires fits { Fits (size_of reply.now) self }
        ensures same { result ≡ reply.now }
    {
        match reply {
            Reply::Ok => Reply::Ok,
            Reply::Fd(fd) => Reply::Fd(*fd),
            Reply::Fds(first, second) => Reply::Fds(*first, *second),
            Reply::Count(count) => Reply::Count(*count),
            Reply::Bytes(bytes) => Reply::Bytes(bytes.share(self.data)),
            Reply::At(offset) => Reply::At(*offset),
            Reply::Received {
                flags,
                count,
                bytes,
                control,
                from,
            } => Reply::Received {
                flags: *flags,
                count: *count,
                bytes: bytes.share(self.data),
                control: control.share(self.control),
                from: sender_copy(self.name, from),
            },
            Reply::Accepted(fd, addr) => Reply::Accepted(*fd, addr_copy(self.name, addr)),
            Reply::Addr(addr) => Reply::Addr(addr_copy(self.name, addr)),
            Reply::Opt(value) => Reply::Opt(*value),
            Reply::Cred(cred) => Reply::Cred(*cred),
            Reply::Poll(flags) => Reply::Poll(*flags),
            Reply::Polled(found) => Reply::Polled(found.copy()),
            Reply::Child(pid) => Reply::Child(*pid),
            Reply::Flags(flags) => Reply::Flags(*flags),
            Reply::Err(errno) => Reply::Err(*errno),
        }
    }
}

impl Sizes {
    /// As many, or more where these are more.
    fn or_more(self, other: Sizes) -> Sizes
        ensures { Fits (size_by other) (size_by result) }
    {
        Sizes {
            data: self.data.max(other.data),
            control: self.control.max(other.control),
            name: self.name.max(other.name),
        }
    }
}
