//! Who may give which credentials.
use std::process::Abort;
use std::test::Fail;
use ux_cmsg::{CredError, check_cred};
use ux_types::{Cred, Errno, Pid, Refusal};

fn cred(pid: u32, uid: u32, gid: u32) -> Cred {
    Cred {
        pid: Pid(pid),
        uid,
        gid,
    }
}

/// Sees what a sender with credentials (2, 1000, 100) is answered.
fn expect(
    rt: &impl Abort,
    privileged: bool,
    given: Cred,
    lives: bool,
    answer: Result<(), CredError>,
) {
    let found = check_cred(cred(2, 1000, 100), privileged, given, lives);
    assert_eq!(rt; found, answer);
}

#[test]
fn an_unprivileged_sender_gives_its_own(rt: HostRuntime) {
    expect(&rt, false, cred(2, 1000, 100), true, Ok(()));
    for given in [cred(1, 1000, 100), cred(2, 0, 100), cred(2, 1000, 0)] {
        expect(&rt, false, given, true, Err(CredError::NotOwn));
    }
}

#[test]
fn a_privileged_sender_names_a_process_that_lives(rt: HostRuntime) {
    for given in [cred(2, 1000, 100), cred(7, 0, 4_294_967_295)] {
        expect(&rt, true, given, true, Ok(()));
        expect(&rt, true, given, false, Err(CredError::NoProcess));
    }
}

#[test]
fn refusals_are_errors_of_errno(rt: HostRuntime) -> Result<(), Fail> {
    assert_eq!(rt; Errno::from(CredError::NotOwn), Errno::EPERM);
    assert_eq!(rt; Errno::from(CredError::NoProcess), Errno::ESRCH);
    let refusal = Refusal::from(CredError::NoProcess);
    assert_eq!(rt; refusal, Refusal::Answer(Errno::ESRCH));
    let not_own = CredError::NotOwn;
    let no_process = CredError::NoProcess;
    let text = format!(in rt.alloc(); "{not_own}, {no_process}")?;
    assert_eq!(rt;
        text.as_str(),
        "credentials that aren't the sender's own, credentials of a process that doesn't live"
    );
    Ok(())
}
