//! The messages that wait at a socket, looked at where they are.

use crate::values::{path, references};
use std::alloc::AllocError;
use std::process::Abort;
use ux_description::Socket;
use ux_rights::{Draft, RefList};
use ux_types::{Addr, Bytes, Cred, DescriptionId, Pid, SockType};

fn user(pid: u32) -> Cred {
    Cred {
        pid: Pid(pid),
        uid: 1000,
        gid: 1000,
    }
}

/// Queues the two bytes `ab`, which the process with this number sends.
fn send(rt: &impl Abort, s: &mut Socket, pid: u32, rights: RefList, from: Option<Addr>) {
    let bytes = Bytes::short(b"ab");
    assert!(rt; !bytes.is_empty());
    let draft = Draft {
        tag: 1,
        bytes: &bytes,
        cred: user(pid),
        uid: 1000,
    };
    assert!(rt; s.send(draft, rights, from).is_ok());
}

/// Sees that the message at an index has so many bytes, these rights, and this process's credentials.
fn expect_message(
    rt: &impl Abort,
    s: &Socket,
    index: usize,
    len: usize,
    numbers: &[u128],
    pid: u32,
) {
    let Some(unread) = s.message(index) else {
        assert!(rt; false);
        return;
    };
    assert!(rt; unread.tag == 1 && unread.len == len && unread.cred == user(pid));
    assert!(rt; unread.rights.len() == numbers.len());
    for (reference, number) in unread.rights.iter().zip(numbers) {
        assert!(rt; reference.description() == DescriptionId::new(*number));
    }
}

#[test]
fn each_message_of_a_stream_is_seen(rt: HostRuntime) -> Result<(), AllocError> {
    let alloc = rt.alloc();
    let mut s = Socket::pair_end(alloc, SockType::Stream, DescriptionId::new(4), user(1));
    assert!(rt; s.message_count() == 0 && s.message(0).is_none());
    send(&rt, &mut s, 1, RefList::new(alloc), None);
    send(&rt, &mut s, 2, references(alloc, &[9, 7])?, None);
    assert!(rt; s.message_count() == 2 && s.message(2).is_none());
    expect_message(&rt, &s, 0, 2, &[], 1);
    expect_message(&rt, &s, 1, 2, &[9, 7], 2);
    assert!(rt; !s.is_empty());
    let (rights, _sender) = s.skip(1);
    assert!(rt; rights.is_empty() && s.message_count() == 2);
    expect_message(&rt, &s, 0, 1, &[], 1);
    Ok(())
}

#[test]
fn a_datagram_shows_its_senders_name(rt: HostRuntime) -> Result<(), AllocError> {
    let alloc = rt.alloc();
    let mut s = Socket::new(alloc, SockType::Dgram);
    send(
        &rt,
        &mut s,
        3,
        references(alloc, &[5])?,
        Some(path(alloc, b"a")?),
    );
    send(&rt, &mut s, 3, RefList::new(alloc), None);
    assert!(rt; s.message_count() == 2);
    expect_message(&rt, &s, 0, 2, &[5], 3);
    let name = path(alloc, b"a")?;
    assert!(rt;
        s.message(0)
            .is_some_and(|unread| unread.from == Some(&name))
    );
    assert!(rt; s.message(1).is_some_and(|unread| unread.from.is_none()));
    Ok(())
}
