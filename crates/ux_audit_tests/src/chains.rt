//! Which chains are pedigrees, and which aren't.

use crate::calls::{Call, history};
use hoard::Hoard;
use std::alloc::Global;
use std::process::Abort;
use std::test::Fail;
use ux_audit::{Audit, Chain, How, Link};
use ux_types::{Entry, Fd, Pid};

/// A file that is passed from one process to another, which has accepted its connection.
const CALLS: [(u32, Call); 9] = [
    (2, Call::Socket),
    (2, Call::Bind(0)),
    (2, Call::Listen(0)),
    (1, Call::Open(false)),
    (1, Call::Socket),
    (1, Call::Connect(1)),
    (2, Call::Accept(0)),
    (1, Call::Send(1, &[0])),
    (2, Call::Recv(1, 24)),
];

fn link(entry: usize, pid: u32, fd: u32, how: How) -> Link {
    Link {
        entry,
        pid: Pid(pid),
        fd: Fd(fd),
        how,
    }
}

/// Whether the links are the pedigree of a descriptor of process 2.
fn is_right_of(alloc: Global, entries: &[Entry], fd: u32, links: &[Link]) -> Result<bool, Fail> {
    let audit = Audit::new(alloc, entries)?;
    let chain = Chain {
        links: Vec::from_slice(alloc, links)?,
    };
    Ok(audit.check_pedigree(alloc, &chain, Pid(2), Fd(fd))?)
}

/// Whether they are that of its descriptor 2.
fn is_right(alloc: Global, entries: &[Entry], links: &[Link]) -> Result<bool, Fail> {
    is_right_of(alloc, entries, 2, links)
}

#[test]
fn the_one_chain_is_right_and_no_other(rt: HostRuntime) -> Result<(), Fail> {
    let alloc = rt.alloc();
    let entries = history(alloc, 2, &CALLS)?;
    let made = link(3, 1, 0, How::Made);
    let got = link(8, 2, 2, How::Received(7));
    assert!(rt; is_right(alloc, entries.as_slice(), &[made, got])?);
    let others: [&[Link]; 9] = [
        &[],
        &[got],
        &[made],
        &[made, link(8, 2, 2, How::Received(6))],
        &[made, made, got],
        &[got, made],
        &[link(4, 1, 1, How::Made), got],
        &[link(3, 2, 0, How::Made), got],
        &[made, link(8, 1, 2, How::Received(7))],
    ];
    for links in others {
        assert!(rt; !is_right(alloc, entries.as_slice(), links)?);
    }
    Ok(())
}

#[test]
fn a_chain_of_another_number(rt: HostRuntime) -> Result<(), Fail> {
    let alloc = rt.alloc();
    let entries = history(alloc, 2, &CALLS)?;
    let audit = Audit::new(alloc, entries.as_slice())?;
    let Some(chain) = audit.pedigree(alloc, Pid(2), Fd(1))? else {
        panic!(rt; "no chain");
    };
    assert!(rt; audit.check_pedigree(alloc, &chain, Pid(2), Fd(1))?);
    assert!(rt; !audit.check_pedigree(alloc, &chain, Pid(2), Fd(2))?);
    assert!(rt; !audit.check_pedigree(alloc, &chain, Pid(1), Fd(1))?);
    assert!(rt; audit.pedigree(alloc, Pid(2), Fd(3))?.is_none());
    assert!(rt; audit.pedigree(alloc, Pid(3), Fd(0))?.is_none());
    Ok(())
}

/// A file is opened, passed on, closed and opened anew: the receiver's is the first, and the number's the last.
#[test]
fn a_number_that_was_closed_since(rt: HostRuntime) -> Result<(), Fail> {
    let alloc = rt.alloc();
    let calls = [
        (1, Call::Open(false)),
        (1, Call::Pair),
        (1, Call::Send(1, &[0])),
        (1, Call::Close(0)),
        (1, Call::Open(false)),
        (1, Call::Fork),
        (2, Call::Recv(2, 24)),
        (2, Call::Dup2(0, 2)),
    ];
    let entries = history(alloc, 1, &calls)?;
    let forked = link(5, 2, 0, How::Forked);
    let copied = link(7, 2, 2, How::Dup);
    let anew = link(4, 1, 0, How::Made);
    let before = link(0, 1, 0, How::Made);
    assert!(rt; is_right(alloc, entries.as_slice(), &[anew, forked, copied])?);
    assert!(rt; !is_right(alloc, entries.as_slice(), &[before, forked, copied])?);
    assert!(rt; !is_right(alloc, entries.as_slice(), &[anew, copied])?);
    let received = link(6, 2, 3, How::Received(2));
    assert!(rt; is_right_of(alloc, entries.as_slice(), 3, &[before, received])?);
    assert!(rt; !is_right_of(alloc, entries.as_slice(), 3, &[anew, received])?);
    Ok(())
}

#[test]
fn without_memory(rt: HostRuntime) -> Result<(), Fail> {
    let alloc = rt.alloc();
    let entries = history(alloc, 2, &CALLS)?;
    let audit = Audit::new(alloc, entries.as_slice())?;
    let hoard = Hoard::take_all(alloc)?;
    let made = Audit::new(alloc, entries.as_slice()).is_ok();
    let listed = audit.holdings(alloc).is_ok();
    let found = audit.pedigree(alloc, Pid(2), Fd(2)).is_ok();
    drop(hoard);
    assert!(rt; !made && !listed && !found);
    Ok(())
}
