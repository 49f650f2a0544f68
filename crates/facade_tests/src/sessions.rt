//! The methods of a session.
use crate::methods::{CALLER, CALLS, MOST, Wrong, boot_all, call_all, gives, refuses};
use delortxa::{
    BookName, BookProgram, Boot, CallFault, Calls, Entry, Errno, OffFault, Pid, Reply, Session,
    call, trace_text, with_book,
};
use std::alloc::Global;
use std::process::Abort;
use std::test::Fail;

/// A number of no process.
const STRANGER: Pid = Pid(9);

/// Makes every call, makes and ends processes, and ends the layer.
#[derive(Drop)]
struct EveryMethod(Global);

impl BookProgram for EveryMethod {
    type Output = Result<(), Wrong>;

    fn run<W: BookName>(self, session: &mut Session<W>) -> Self::Output {
        call_all(session, CALLER.pid)?;
        call_by_request(session)?;
        is(session.entries().len() as u64 == CALLS + 1, "entries")?;
        match session.holdings(self.0) {
            // The program that was executed last has lost two of 16.
            Ok(held) => is(held.len() == 14, "holdings")?,
            Err(_) => return Err(Wrong("holdings")),
        }
        is(session.off() == Err(OffFault::Alive), "off")?;
        make_processes(session)?;
        is(session.off() == Ok(()), "off")?;
        is(session.off() == Err(OffFault::Given), "off")
    }
}

/// Sees that this holds of a method.
fn is(holds: bool, method: &'static str) -> Result<(), Wrong> {
    if holds { Ok(()) } else { Err(Wrong(method)) }
}

/// Makes a call by its request, which is refused where no live process has the number.
fn call_by_request<W: BookName>(session: &mut Session<W>) -> Result<(), Wrong> {
    let request = call::exec();
    let answered = session.call(CALLER.pid, &request);
    is(answered == Ok(Reply::Ok), "call")?;
    let refused = session.call(STRANGER, &request);
    is(refused == Err(CallFault::Stranger), "call")
}

/// Makes as many processes as there may be, and has all exit.
fn make_processes<W: BookName>(session: &mut Session<W>) -> Result<(), Wrong> {
    for number in 3..=MOST {
        is(session.fork(CALLER.pid) == Ok(Pid(number)), "fork")?;
    }
    refuses("fork", session.fork(CALLER.pid), Errno::EAGAIN)?;
    is(session.is_live(Pid(MOST)), "is_live")?;
    for number in 1..=MOST {
        is(session.exit(Pid(number)) == Ok(()), "exit")?;
    }
    is(session.exit(Pid(MOST)) == Err(CallFault::Stranger), "exit")?;
    is(!session.is_live(Pid(MOST)), "is_live")
}

#[test]
fn every_method_of_a_session_is_answered_and_refused(rt: HostRuntime) -> Result<(), Fail> {
    let alloc = rt.alloc();
    let Ok(kernel) = boot_all(alloc)?.start() else {
        return Err(Fail::from("no kernel"));
    };
    let Ok((outcome, history)) = with_book(alloc, kernel, EveryMethod(alloc)) else {
        return Err(Fail::from("no memory"));
    };
    assert_eq!(&rt; outcome, Ok(()));
    is_traced(&rt, alloc, &history)
}

/// Sees that the history's trace has a line for each entry, and the last one's is the end.
fn is_traced<R: Abort>(rt: &R, alloc: Global, history: &[Entry]) -> Result<(), Fail> {
    let Ok(text) = trace_text(alloc, history) else {
        return Err(Fail::from("no memory"));
    };
    let lines = text.as_str().bytes().filter(|byte| *byte == 10).count();
    assert_eq!(rt; lines, history.len());
    assert!(rt; text.as_str().ends_with(" off = ok closed 1 2 3 4\n"));
    Ok(())
}

/// Two processes of one user, of which the first alone has privileges, take another user's ids.
#[derive(Drop)]
struct TakeIds;

impl BookProgram for TakeIds {
    type Output = Result<(), Wrong>;

    fn run<W: BookName>(self, session: &mut Session<W>) -> Self::Output {
        gives("set_ids", session.set_ids(Pid(1), 2000, 200), ())?;
        refuses("set_ids", session.set_ids(Pid(2), 2000, 200), Errno::EPERM)
    }
}

#[test]
fn only_a_privileged_process_takes_other_ids(rt: HostRuntime) -> Result<(), Fail> {
    let alloc = rt.alloc();
    let (uid, gid) = (CALLER.uid, CALLER.gid);
    let boot = Boot::new(alloc);
    let boot = boot.privileged(uid, gid, 4)?.process(uid, gid, 4)?;
    let Ok(kernel) = boot.start() else {
        return Err(Fail::from("no kernel"));
    };
    let Ok((outcome, _)) = with_book(alloc, kernel, TakeIds) else {
        return Err(Fail::from("no memory"));
    };
    assert_eq!(&rt; outcome, Ok(()));
    Ok(())
}
