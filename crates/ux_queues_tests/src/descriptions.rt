//! A description of each kind, and what a socket does with what is sent to it. The helpers promise
//! nothing, so that the proofs needn't follow a socket through a test.
ghost use Rattle.std.specs.Prelude.{◌≡◌};

use crate::values::{expect_references, path, references};
use std::alloc::{AllocError, Global};
use std::process::Abort;
use ux_backlog::PushError;
use ux_description::{Description, Socket, Target};
use ux_record::Peeked;
use ux_rights::{Draft, RefList, SendError};
use ux_types::{Addr, Bytes, Cred, DescriptionId, Mode, OpenFlags, Pid, SockType};

fn user() -> Cred {
    Cred {
        pid: Pid(1),
        uid: 1000,
        gid: 1000,
    }
}

/// One end of a pair, whose other end has number 4.
fn pair_end(alloc: Global) -> Socket {
    Socket::pair_end(alloc, SockType::Stream, DescriptionId::new(4), user())
}

/// What the user 1000 sends by a call.
fn draft(tag: u64, bytes: &Bytes) -> Draft<'_>
    ensures { result.bytes.now ≡ bytes.now }
{
    Draft {
        tag,
        bytes,
        cred: user(),
        uid: 1000,
    }
}

/// Sends, of which so many bytes are taken.
fn send(rt: &impl Abort, s: &mut Socket, bytes: &Bytes, rights: RefList, count: usize) {
    assert!(rt; !bytes.is_empty());
    match s.send(draft(1, bytes), rights, None) {
        Ok(sent) => assert!(rt; sent == count),
        Err(_) => assert!(rt; false),
    }
}

/// Sees that these references were taken off, of which the user sent all.
fn expect_skip(rt: &impl Abort, skipped: (RefList, Option<u32>), numbers: &[u128]) {
    let (rights, sender) = skipped;
    expect_references(rt, &rights, numbers);
    assert!(rt; sender == if numbers.is_empty() { None } else { Some(1000) });
}

/// Sends where there is no room, which gives these references back.
fn expect_full(rt: &impl Abort, s: &mut Socket, rights: RefList, numbers: &[u128]) {
    match s.send(draft(3, &Bytes::short(b"z")), rights, None) {
        Ok(_) => assert!(rt; false),
        Err(unsent) => {
            assert!(rt; unsent.error == SendError::Full);
            expect_references(rt, &unsent.rights, numbers);
        }
    }
}

/// Sees what a receive gave.
fn expect(rt: &impl Abort, received: Peeked, bytes: &[u8], numbers: &[u128]) {
    assert!(rt; received.bytes.as_slice() == bytes);
    expect_references(rt, &received.rights, numbers);
}

/// Takes these bytes with these rights off.
fn take(
    rt: &impl Abort,
    alloc: Global,
    s: &mut Socket,
    n: usize,
    bytes: &[u8],
    numbers: &[u128],
) -> Result<(), AllocError> {
    assert!(rt; !s.is_empty());
    expect(rt, s.peek(alloc, n)?, bytes, numbers);
    expect_skip(rt, s.skip(n), numbers);
    Ok(())
}

#[test]
fn a_file_has_no_socket(rt: HostRuntime) {
    let mut d = Description::of_object(3, Mode::Write, OpenFlags(1));
    d.set_offset(7);
    d.set_reset(true);
    assert!(rt; d.object() == Some(3) && d.socket().is_none() && d.lost_peer().is_none());
    assert!(rt; d.offset() == 7 && d.mode() == Mode::Write);
    assert!(rt; d.append() && !d.nonblock());
    d.set_flags(OpenFlags(2));
    assert!(rt; !d.append() && d.nonblock());
    match d.into_target() {
        Target::Object(o) => assert!(rt; o == 3),
        Target::Socket(_) => assert!(rt; false),
    }
}

#[test]
fn a_socket_keeps_what_was_sent(rt: HostRuntime) -> Result<(), AllocError> {
    let alloc = rt.alloc();
    let mut s = pair_end(alloc);
    assert!(rt; s.peer() == Some(DescriptionId::new(4)) && *s.name() == Addr::Unnamed);
    assert!(rt; !s.passcred() && s.has_room());
    send(&rt, &mut s, &Bytes::short(b"abc"), RefList::new(alloc), 3);
    send(
        &rt,
        &mut s,
        &Bytes::short(b"de"),
        references(alloc, &[9, 7])?,
        2,
    );
    take(&rt, alloc, &mut s, 2, b"ab", &[])?;
    assert!(rt; !s.is_empty());
    expect(&rt, s.peek(alloc, 9)?, b"cde", &[9, 7]);
    take(&rt, alloc, &mut s, 9, b"cde", &[9, 7])?;
    assert!(rt; s.is_empty() && s.pop_message().is_none());
    Ok(())
}

#[test]
fn a_full_socket_gives_rights_back(rt: HostRuntime) -> Result<(), AllocError> {
    let alloc = rt.alloc();
    let mut s = pair_end(alloc);
    let most = Bytes::new(vec![in alloc; b'x'; 65535]?)?;
    send(&rt, &mut s, &most, references(alloc, &[5, 6])?, 65535);
    send(
        &rt,
        &mut s,
        &Bytes::short(b"yz"),
        references(alloc, &[8, 8])?,
        1,
    );
    expect_full(&rt, &mut s, references(alloc, &[1, 2])?, &[1, 2]);
    for numbers in [[5, 6], [8, 8]] {
        match s.pop_message() {
            Some((rights, uid)) => {
                expect_references(&rt, &rights, &numbers);
                assert!(rt; uid == 1000);
            }
            None => assert!(rt; false),
        }
    }
    assert!(rt; s.is_empty() && s.has_room() && s.pop_pending().is_none());
    Ok(())
}

#[test]
fn unread_messages_reset_the_peer(rt: HostRuntime) -> Result<(), AllocError> {
    let alloc = rt.alloc();
    let mut d = Description::of_socket(OpenFlags(0), pair_end(alloc));
    assert!(rt; d.object().is_none() && d.lost_peer().is_none());
    let sent = d.send(draft(1, &Bytes::short(b"ab")), RefList::new(alloc), None);
    assert!(rt; sent.is_ok_and(|count| count == 2));
    assert!(rt; d.lost_peer() == Some(DescriptionId::new(4)));
    assert!(rt; d.socket().is_some_and(|s| !s.is_empty()));
    expect_skip(&rt, d.skip(2), &[]);
    assert!(rt; d.socket().is_some_and(|s| s.is_empty()) && d.lost_peer().is_none());
    d.set_reset(true);
    assert!(rt; d.socket().is_some_and(|s| s.reset()));
    d.set_reset(false);
    assert!(rt; d.socket().is_some_and(|s| !s.reset()));
    Ok(())
}

/// The types, and whether each is a stream and whether it takes datagrams (socket(2)).
const TYPES: &[(SockType, bool, bool)] = &[
    (SockType::Stream, true, false),
    (SockType::Dgram, false, true),
    (SockType::Seq, false, false),
];

#[test]
fn a_new_socket_is_open_both_ways_and_tied_to_nobody(rt: HostRuntime) {
    for (kind, stream, datagram) in TYPES {
        let s = Socket::new(rt.alloc(), *kind);
        assert!(rt; s.is_stream() == *stream && s.is_datagram() == *datagram);
        assert!(rt; !s.is_read_shut() && !s.is_write_shut());
        assert!(rt; s.queue_limit() == 65536 && s.peer_cred().is_none());
        assert!(rt; s.tied_socket().is_none());
    }
}

/// What is shut down, what is shut down behind that, and whether reading and writing are then (shutdown(2)).
const SHUT: &[(Mode, Mode, bool, bool)] = &[
    (Mode::Read, Mode::Read, true, false),
    (Mode::Write, Mode::Write, false, true),
    (Mode::Read, Mode::Write, true, true),
    (Mode::Both, Mode::Read, true, true),
    (Mode::Both, Mode::Write, true, true),
];

/// Sees in which directions a socket is shut down.
fn expect_shut(rt: &impl Abort, d: &Description, read: bool, write: bool) {
    match d.socket() {
        Some(s) => assert!(rt; s.is_read_shut() == read && s.is_write_shut() == write),
        None => assert!(rt; false),
    }
}

#[test]
fn what_is_shut_down_stays_so(rt: HostRuntime) {
    for (first, second, read, write) in SHUT {
        let mut d = Description::of_socket(OpenFlags(0), pair_end(rt.alloc()));
        d.shut_down(*first);
        d.shut_down(*second);
        expect_shut(&rt, &d, *read, *write);
    }
}

#[test]
fn a_lowered_limit_drops_nothing(rt: HostRuntime) -> Result<(), AllocError> {
    let alloc = rt.alloc();
    let mut s = pair_end(alloc);
    s.set_queue_limit(5);
    send(&rt, &mut s, &Bytes::short(b"abc"), RefList::new(alloc), 3);
    send(&rt, &mut s, &Bytes::short(b"defg"), RefList::new(alloc), 2);
    s.set_queue_limit(4);
    assert!(rt; s.queue_limit() == 4 && !s.has_room());
    take(&rt, alloc, &mut s, 1, b"a", &[])?;
    // As many wait as there may.
    assert!(rt; !s.has_room());
    take(&rt, alloc, &mut s, 1, b"b", &[])?;
    assert!(rt; s.has_room());
    send(&rt, &mut s, &Bytes::short(b"xy"), RefList::new(alloc), 1);
    take(&rt, alloc, &mut s, 9, b"cdex", &[])
}

/// Sends a byte as a user of the number 5.
fn send_as_another(rt: &impl Abort, alloc: Global, s: &mut Socket) {
    let bytes = Bytes::short(b"c");
    assert!(rt; !bytes.is_empty());
    let other = Draft {
        tag: 2,
        bytes: &bytes,
        cred: Cred { uid: 5, ..user() },
        uid: 5,
    };
    let sent = s.send(other, RefList::new(alloc), None);
    assert!(rt; sent.is_ok_and(|count| count == 1));
}

#[test]
fn with_credentials_a_receive_ends_before_another_sender(
    rt: HostRuntime,
) -> Result<(), AllocError> {
    let alloc = rt.alloc();
    let mut s = pair_end(alloc);
    send(&rt, &mut s, &Bytes::short(b"ab"), RefList::new(alloc), 2);
    send_as_another(&rt, alloc, &mut s);
    assert!(rt; !s.is_empty());
    expect(&rt, s.peek(alloc, 9)?, b"abc", &[]);
    s.set_passcred(true);
    assert!(rt; s.passcred());
    assert!(rt; !s.is_empty());
    expect(&rt, s.peek(alloc, 9)?, b"ab", &[]);
    s.set_passcred(false);
    assert!(rt; !s.passcred());
    assert!(rt; !s.is_empty());
    expect(&rt, s.peek(alloc, 9)?, b"abc", &[]);
    Ok(())
}

/// The credentials of a process that listens.
const SERVER: Cred = Cred {
    pid: Pid(2),
    uid: 5,
    gid: 6,
};

#[test]
fn each_end_has_the_credentials_of_the_other(rt: HostRuntime) -> Result<(), AllocError> {
    let alloc = rt.alloc();
    let mut listener = Socket::new(alloc, SockType::Stream);
    listener.listen(alloc, 1, SERVER);
    let end = listener.server_end(alloc, DescriptionId::new(7), user())?;
    assert!(rt; end.peer_cred() == Some(user()));
    let mut client = Description::of_socket(OpenFlags(0), Socket::new(alloc, SockType::Stream));
    if let Some(cred) = listener.listener_cred() {
        client.tie(DescriptionId::new(3), cred);
    }
    assert!(rt;
        client
            .socket()
            .is_some_and(|s| s.peer_cred() == Some(SERVER))
    );
    assert!(rt; listener.peer_cred().is_none());
    assert!(rt; pair_end(alloc).peer_cred() == Some(user()));
    Ok(())
}

/// One more end waits, or the backlog is full.
fn expect_push(rt: &impl Abort, s: &mut Socket, end: u128, answer: Result<(), PushError>) {
    assert!(rt; s.is_listening());
    assert!(rt; s.push_pending(DescriptionId::new(end)) == answer);
}

#[test]
fn a_listener_keeps_its_ends_when_it_listens_again(rt: HostRuntime) -> Result<(), AllocError> {
    let alloc = rt.alloc();
    let mut s = Socket::new(alloc, SockType::Stream);
    assert!(rt; s.kind() == SockType::Stream && s.backlog().is_none() && s.is_unnamed());
    s.set_name(path(alloc, b"a")?);
    s.listen(alloc, 2, user());
    expect_push(&rt, &mut s, 8, Ok(()));
    expect_push(&rt, &mut s, 9, Ok(()));
    expect_push(&rt, &mut s, 10, Err(PushError::Full));
    s.listen(alloc, 3, Cred { uid: 5, ..user() });
    assert!(rt; s.listener_cred().is_some_and(|cred| cred.uid == 5));
    expect_push(&rt, &mut s, 10, Ok(()));
    assert!(rt; s.pop_pending() == Some(DescriptionId::new(8)));
    assert!(rt; s.backlog().is_some_and(|backlog| backlog.len() == 2));
    Ok(())
}

#[test]
fn a_server_end_shows_its_listeners_name(rt: HostRuntime) -> Result<(), AllocError> {
    let alloc = rt.alloc();
    let mut listener = Socket::new(alloc, SockType::Stream);
    listener.set_name(path(alloc, b"a")?);
    listener.listen(alloc, 1, user());
    let mut end = listener.server_end(alloc, DescriptionId::new(7), user())?;
    assert!(rt; *end.name() == path(alloc, b"a")?);
    assert!(rt; end.peer() == Some(DescriptionId::new(7)));
    assert!(rt; end.is_connected() && end.resets_peer());
    end.set_accepted();
    assert!(rt; !end.resets_peer());
    let mut client = Description::of_socket(OpenFlags(0), Socket::new(alloc, SockType::Stream));
    client.tie(DescriptionId::new(3), user());
    client.set_accepted(OpenFlags(2));
    assert!(rt; client.nonblock());
    assert!(rt;
        client
            .socket()
            .is_some_and(|s| s.peer() == Some(DescriptionId::new(3)))
    );
    assert!(rt; client.abstract_name().is_none());
    Ok(())
}

/// Takes one message off, of which so many bytes are asked for.
fn take_message(
    rt: &impl Abort,
    alloc: Global,
    s: &mut Socket,
    n: usize,
    bytes: &[u8],
    whole: usize,
    from: Option<&Addr>,
) -> Result<(), AllocError> {
    assert!(rt; !s.is_empty());
    let front = s.peek(alloc, n)?;
    assert!(rt; front.whole == whole);
    assert!(rt; front.from.as_ref() == from);
    expect(rt, front, bytes, &[]);
    expect_skip(rt, s.skip(n), &[]);
    Ok(())
}

#[test]
fn a_datagram_is_taken_whole(rt: HostRuntime) -> Result<(), AllocError> {
    let alloc = rt.alloc();
    let mut s = Socket::new(alloc, SockType::Dgram);
    let from = Some(path(alloc, b"a")?);
    let sent = s.send(draft(1, &Bytes::short(b"abc")), RefList::new(alloc), from);
    assert!(rt; sent.is_ok_and(|count| count == 3));
    let sent = s.send(draft(2, &Bytes::empty()), RefList::new(alloc), None);
    assert!(rt; sent.is_ok_and(|count| count == 0));
    take_message(&rt, alloc, &mut s, 2, b"ab", 3, Some(&path(alloc, b"a")?))?;
    take_message(&rt, alloc, &mut s, 2, b"", 0, None)?;
    assert!(rt; s.is_empty());
    assert!(rt; s.kind() == SockType::Dgram);
    assert!(rt; !s.resets_peer());
    Ok(())
}

#[test]
fn sixteen_records_wait(rt: HostRuntime) -> Result<(), AllocError> {
    let alloc = rt.alloc();
    let mut s = Socket::new(alloc, SockType::Seq);
    for _ in 0..16 {
        assert!(rt; s.has_room());
        let sent = s.send(draft(1, &Bytes::short(b"x")), RefList::new(alloc), None);
        assert!(rt; sent.is_ok());
    }
    assert!(rt; !s.has_room());
    expect_full(&rt, &mut s, references(alloc, &[1, 2])?, &[1, 2]);
    assert!(rt; s.pop_message().is_some());
    assert!(rt; s.has_room());
    Ok(())
}

#[test]
fn an_associated_socket_takes_from_its_target_alone(rt: HostRuntime) {
    let alloc = rt.alloc();
    let (target, other) = (DescriptionId::new(7), DescriptionId::new(8));
    let mut s = Socket::new(alloc, SockType::Dgram);
    assert!(rt; s.takes_from(target) && s.takes_from(other));
    s.set_association(Some(target));
    assert!(rt; s.takes_from(target) && !s.takes_from(other));
    assert!(rt; s.association() == Some(target));
    assert!(rt; s.peer().is_none());
    assert!(rt; s.tied_socket() == Some(target));
    s.set_association(None);
    assert!(rt; s.association().is_none() && s.takes_from(other));
    let mut end = pair_end(alloc);
    end.set_association(None);
    assert!(rt; end.peer() == Some(DescriptionId::new(4)));
}
