//! A short history that is made once more, as it was, otherwise, and on another kernel.
use hoard::Hoard;
use std::alloc::{AllocError, Global};
use std::process::Abort;
use std::test::Fail;
use ux_kernel::Kernel;
use ux_objects::Counter;
use ux_replay::{ReplayFault, check_history, replay};
use ux_script::run_serial;
use ux_syntax::parse_script;
use ux_types::{
    Bytes, Entry, Errno, Fd, MsgFlags, OpenFlags, Pid, ProcSpec, Released, Reply, Request, SockType,
};

/// What one process asks for: a pair, one send, and its exit.
fn history(alloc: Global) -> Result<Vec<Entry>, AllocError> {
    let pair = Request::SocketPair {
        kind: SockType::Stream,
        flags: OpenFlags(0),
    };
    let send = Request::SendMsg {
        fd: Fd(0),
        addr: None,
        bytes: Bytes::from_slice(alloc, b"hi")?,
        control: Bytes::empty(),
        flags: MsgFlags(0),
    };
    let mut entries = Vec::new(alloc);
    entries.push(entry(alloc, 0, pair, Reply::Fds(Fd(0), Fd(1))))?;
    entries.push(entry(alloc, 1, send, Reply::Count(2)))?;
    entries.push(entry(alloc, 2, Request::Exit, Reply::Ok))?;
    Ok(entries)
}

/// An entry of the one process, which releases nothing.
fn entry(alloc: Global, k: u64, request: Request, reply: Reply) -> Entry {
    Entry {
        pid: Pid(1),
        k,
        request,
        reply,
        released: Released::new(alloc),
        delivered: None,
    }
}

/// A kernel of one process that may have so many descriptors.
fn kernel_with(alloc: Global, limit: u32) -> Result<Kernel<Counter>, Fail> {
    let user = ProcSpec {
        uid: 1000,
        gid: 1000,
        privileged: false,
        limit,
    };
    match Kernel::<Counter>::boot(alloc, Vec::new(alloc), &[user]) {
        Ok(kernel) => Ok(kernel),
        Err(_) => Err(Fail::from("no kernel")),
    }
}

/// What is found on a kernel of one process that may have so many descriptors.
fn found(alloc: Global, entries: &[Entry], limit: u32) -> Result<Result<u64, u64>, Fail> {
    let kernel = kernel_with(alloc, limit)?;
    Ok(check_history(alloc, entries, kernel))
}

#[test]
fn a_history_is_made_once_more(rt: HostRuntime) -> Result<(), Fail> {
    let entries = history(rt.alloc())?;
    assert_eq!(rt; found(rt.alloc(), &entries, 16)?, Ok(3));
    Ok(())
}

#[test]
fn a_kernel_with_a_lower_limit_differs_at_the_pair(rt: HostRuntime) -> Result<(), Fail> {
    let entries = history(rt.alloc())?;
    assert_eq!(rt; found(rt.alloc(), &entries, 1)?, Err(0));
    Ok(())
}

#[test]
fn another_reply_differs(rt: HostRuntime) -> Result<(), Fail> {
    let mut entries = history(rt.alloc())?;
    let send = entries.get_mut(1).ok_or("no send")?;
    send.reply = Reply::Count(1);
    assert_eq!(rt; found(rt.alloc(), &entries, 16)?, Err(1));
    Ok(())
}

#[test]
fn other_released_objects_differ(rt: HostRuntime) -> Result<(), Fail> {
    let mut entries = history(rt.alloc())?;
    let exit = entries.get_mut(2).ok_or("no exit")?;
    let mut other = Released::new(rt.alloc());
    other.push_back(0)?;
    exit.released = other;
    assert_eq!(rt; found(rt.alloc(), &entries, 16)?, Err(2));
    Ok(())
}

/// A message that brings a descriptor.
const PASSING: &str = "proc 1000 1000 0 16
1 pair stream -
1 send 0 - 78 r:0 -
1 recv 1 8 24 -
";

/// The history of a process that passes itself a descriptor. The receive reports the number of the send.
fn passing(rt: &impl Abort, alloc: Global) -> Result<Vec<Entry>, Fail> {
    let script = parse_script(alloc, PASSING.as_bytes())?;
    let mut trace: Vec<u8> = Vec::new(alloc);
    let Ok(kernel) = Kernel::<Counter>::boot(alloc, Vec::new(alloc), &script.procs) else {
        return Err(Fail::from("no kernel"));
    };
    let entries = run_serial(alloc, &script, &mut trace, kernel)?;
    let receive = entries.get(2).ok_or("no receive")?;
    assert_eq!(rt; receive.delivered, Some(1));
    Ok(entries)
}

#[test]
fn rights_of_another_message_differ(rt: HostRuntime) -> Result<(), Fail> {
    let alloc = rt.alloc();
    let mut entries = passing(&rt, alloc)?;
    assert_eq!(rt; found(alloc, &entries, 16)?, Ok(4));
    for delivered in [None, Some(0)].as_slice() {
        let receive = entries.get_mut(2).ok_or("no receive")?;
        receive.delivered = *delivered;
        assert_eq!(rt; found(alloc, &entries, 16)?, Err(2));
    }
    Ok(())
}

#[test]
fn a_call_after_the_exit_differs(rt: HostRuntime) -> Result<(), Fail> {
    let mut entries = history(rt.alloc())?;
    entries.push(entry(rt.alloc(), 3, Request::Exit, Reply::Ok))?;
    assert_eq!(rt; found(rt.alloc(), &entries, 16)?, Err(3));
    Ok(())
}

#[test]
fn a_refusal_for_lack_of_memory_is_left_out(rt: HostRuntime) -> Result<(), Fail> {
    let mut entries = history(rt.alloc())?;
    let dup = Request::Dup { fd: Fd(0) };
    let exit = entries.pop().ok_or("no exit")?;
    entries.push(entry(rt.alloc(), 2, dup, Reply::Err(Errno::ENOMEM)))?;
    entries.push(exit)?;
    assert_eq!(rt; found(rt.alloc(), &entries, 16)?, Ok(4));
    Ok(())
}

#[test]
fn without_memory_nothing_is_made_once_more(rt: HostRuntime) -> Result<(), Fail> {
    let alloc = rt.alloc();
    let entries = history(alloc)?;
    let (first, second) = (kernel_with(alloc, 16)?, kernel_with(alloc, 16)?);
    let hoard = Hoard::take_all(alloc)?;
    let checked = check_history(alloc, &entries, first);
    let replayed = replay(alloc, &entries, second);
    drop(hoard);
    assert_eq!(rt; checked, Err(0));
    assert_eq!(rt; replayed, Err(ReplayFault::NoMemory(0)));
    Ok(())
}
