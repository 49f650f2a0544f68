//! Copies while every allocation fails.
ghost use Rattle.std.specs.Prelude.{◌≡◌, IfOk};
ghost use Rattle.ux_model.specs.Limits.{name_limit};
ghost use Rattle.ux_model.specs.Rooms.{sender_bytes, size_of, room_for, Fits};

use hoard::Hoard;
use std::alloc::{AllocError, Global};
use std::process::Abort;
use std::test::Fail;
use ux_reply_room::ReplyRoom;
use ux_types::{
    Addr, Bytes, Cred, Errno, Fd, MsgFlags, Name, OpenFlags, Pid, PollFlags, Reply, Request,
};

/// Makes room for the reply to a request, and copies a reply while every allocation fails.
#[tactic(auto, using(ux_reply_room::proofs::Fitting::fits_trans))]
fn copy_without_memory(alloc: Global, request: &Request, reply: &Reply) -> Result<Reply, AllocError>
    requires { Fits (size_of reply.now) (room_for request.now) }
{
    let room = ReplyRoom::for_request(alloc, request)?;
    let hoard = Hoard::take_all(alloc)?;
    let copy = room.copy(reply);
    drop(hoard);
    Ok(copy)
}

/// Sees that a reply to a request is copied.
fn expect(rt: &impl Abort, alloc: Global, request: Request, reply: Reply)
    requires { Fits (size_of reply) (room_for request) }
{
    let copy = copy_without_memory(alloc, &request, &reply);
    drop(request);
    assert_eq!(rt; copy, Ok(reply));
}

#[test]
#[tactic(auto, unfolding(ux_model::specs::Rooms::size_of, ux_model::specs::Rooms::room_for))]
fn replies_without_bytes_are_copied(rt: HostRuntime) -> Result<(), Fail> {
    let alloc = rt.alloc();
    let cred = Cred {
        pid: Pid(2),
        uid: 1000,
        gid: 100,
    };
    expect(&rt, alloc, Request::Exit, Reply::Ok);
    expect(&rt, alloc, Request::Exit, Reply::Fd(Fd(3)));
    expect(&rt, alloc, Request::Exit, Reply::Fds(Fd(3), Fd(4)));
    expect(&rt, alloc, Request::Exit, Reply::Count(5));
    expect(&rt, alloc, Request::Exit, Reply::At(6));
    expect(&rt, alloc, Request::Exit, Reply::Opt(1));
    expect(&rt, alloc, Request::Exit, Reply::Cred(cred));
    expect(&rt, alloc, Request::Exit, Reply::Poll(PollFlags::IN));
    expect(&rt, alloc, Request::Exit, Reply::Err(Errno::EBADF));
    Ok(())
}

#[test]
#[tactic(auto, unfolding(ux_model::specs::Rooms::size_of, ux_model::specs::Rooms::room_for))]
fn bytes_that_were_read_are_copied(rt: HostRuntime) -> Result<(), Fail> {
    let alloc = rt.alloc();
    let fd = Fd(0);
    let few = Reply::Bytes(Bytes::from_slice(alloc, b"ping")?);
    expect(&rt, alloc, Request::Read { fd, n: 4 }, few);
    let many = Reply::Bytes(Bytes::from_slice(alloc, b"ping and then pong")?);
    expect(&rt, alloc, Request::Read { fd, n: 18 }, many);
    Ok(())
}

#[test]
#[tactic(auto, unfolding(ux_model::specs::Rooms::size_of, ux_model::specs::Rooms::room_for))]
fn addresses_are_copied(rt: HostRuntime) -> Result<(), Fail> {
    let alloc = rt.alloc();
    let fd = Fd(0);
    let path = Addr::Path(Name::from_slice(alloc, b"/a")?);
    expect(&rt, alloc, Request::GetSockName { fd }, Reply::Addr(path));
    let taken = Addr::Abstract(Name::from_slice(alloc, b"00000")?);
    expect(&rt, alloc, Request::GetPeerName { fd }, Reply::Addr(taken));
    let flags = OpenFlags(0);
    let accepted = Reply::Accepted(Fd(1), Addr::Unnamed);
    expect(&rt, alloc, Request::Accept { fd, flags }, accepted);
    let accepted = Reply::Accepted(Fd(1), Addr::Path(Name::from_slice(alloc, b"/b")?));
    expect(&rt, alloc, Request::Accept { fd, flags }, accepted);
    Ok(())
}

/// A receive of at most 4 bytes, with room for 2 of control.
#[tactic(auto, unfolding(ux_model::specs::Rooms::room_for))]
fn receive() -> Request
    ensures { room_for result ≡ record { data_bytes = 4; control = 2; name = name_limit } }
{
    Request::RecvMsg {
        fd: Fd(0),
        n: 4,
        space: 2,
        flags: MsgFlags(0),
    }
}

/// A message of a sender.
#[tactic(auto, unfolding(ux_model::specs::Rooms::size_of))]
fn message(alloc: Global, from: Option<Addr>) -> Result<Reply, AllocError>
    ensures { IfOk result (λ r. size_of r ≡ record { data_bytes = 4; control = 2; name = sender_bytes from }) }
{
    Ok(Reply::Received {
        flags: MsgFlags::TRUNC,
        count: 5,
        bytes: Bytes::from_slice(alloc, b"ping")?,
        control: Bytes::from_slice(alloc, &[7, 8])?,
        from,
    })
}

#[test]
fn messages_are_copied(rt: HostRuntime) -> Result<(), Fail> {
    let alloc = rt.alloc();
    let unnamed = message(alloc, None)?;
    expect(&rt, alloc, receive(), unnamed);
    let sender = Addr::Abstract(Name::from_slice(alloc, b"sender")?);
    let named = message(alloc, Some(sender))?;
    expect(&rt, alloc, receive(), named);
    Ok(())
}

/// Whether there is no room for the reply to a request.
fn fails(alloc: Global, request: Request) -> bool {
    let failed = ReplyRoom::for_request(alloc, &request).is_err();
    drop(request);
    failed
}

#[test]
fn room_needs_memory(rt: HostRuntime) -> Result<(), Fail> {
    let alloc = rt.alloc();
    let fd = Fd(0);
    let hoard = Hoard::take_all(alloc)?;
    let few = fails(alloc, Request::Read { fd, n: 14 });
    let read = fails(alloc, Request::Read { fd, n: 15 });
    let named = fails(alloc, Request::GetSockName { fd });
    let plain = fails(alloc, Request::Close { fd });
    drop(hoard);
    assert!(rt; read && named, "nothing failed");
    assert!(rt;
        !plain && !few,
        "a reply without bytes, or with 14, takes memory"
    );
    Ok(())
}
