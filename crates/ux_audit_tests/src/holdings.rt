//! Who holds what at the end, and from whom.

use crate::calls::{Call, New, expect, history};
use std::test::Fail;

#[test]
fn a_file_is_passed_to_a_server(rt: HostRuntime) -> Result<(), Fail> {
    let calls = [
        (2, Call::Socket),
        (2, Call::Bind(0)),
        (2, Call::Listen(0)),
        (1, Call::Open(false)),
        (1, Call::Socket),
        (1, Call::Connect(1)),
        (2, Call::Accept(0)),
        (1, Call::Send(1, &[0])),
        (2, Call::Recv(1, 24)),
    ];
    let entries = history(rt.alloc(), 2, &calls)?;
    expect(
        &rt,
        rt.alloc(),
        entries.as_slice(),
        &[
            (1, 0, "made 3 1 0"),
            (1, 1, "made 4 1 1"),
            (2, 0, "made 0 2 0"),
            (2, 1, "made 6 2 1"),
            (2, 2, "made 3 1 0; got 8 2 2 from 7"),
        ],
    )
}

#[test]
fn a_program_inherits_what_has_no_flag(rt: HostRuntime) -> Result<(), Fail> {
    let calls = [
        (1, Call::Open(true)),
        (1, Call::Dup(0)),
        (1, Call::Fork),
        (2, Call::Exec),
    ];
    let entries = history(rt.alloc(), 1, &calls)?;
    expect(
        &rt,
        rt.alloc(),
        entries.as_slice(),
        &[
            (1, 0, "made 0 1 0"),
            (1, 1, "made 0 1 0; dup 1 1 1"),
            (2, 1, "made 0 1 0; dup 1 1 1; fork 2 2 1"),
        ],
    )
}

#[test]
fn a_copy_from_a_minimum_on_is_a_dup(rt: HostRuntime) -> Result<(), Fail> {
    let calls = [
        (1, Call::Open(false)),
        (1, Call::DupFrom(0, 2)),
        (1, Call::DupFrom(2, 0)),
        (1, Call::DupFrom(7, 0)),
        (1, Call::Close(0)),
    ];
    let entries = history(rt.alloc(), 1, &calls)?;
    expect(
        &rt,
        rt.alloc(),
        entries.as_slice(),
        &[
            (1, 1, "made 0 1 0; dup 1 1 2; dup 2 1 1"),
            (1, 2, "made 0 1 0; dup 1 1 2"),
        ],
    )
}

#[test]
fn what_a_process_makes_is_its_own_at_first(rt: HostRuntime) -> Result<(), Fail> {
    let calls = [
        (1, Call::Make(New::File, false)),
        (1, Call::Make(New::Memory, true)),
        (1, Call::Make(New::Counter, false)),
        (1, Call::Make(New::Pipe, false)),
        (1, Call::Fork),
        (2, Call::Exec),
        (2, Call::Dup(4)),
    ];
    let entries = history(rt.alloc(), 1, &calls)?;
    expect(
        &rt,
        rt.alloc(),
        entries.as_slice(),
        &[
            (1, 0, "made 0 1 0"),
            (1, 1, "made 1 1 1"),
            (1, 2, "made 2 1 2"),
            (1, 3, "made 3 1 3"),
            (1, 4, "made 3 1 4"),
            (2, 0, "made 0 1 0; fork 4 2 0"),
            (2, 1, "made 3 1 4; fork 4 2 4; dup 6 2 1"),
            (2, 2, "made 2 1 2; fork 4 2 2"),
            (2, 3, "made 3 1 3; fork 4 2 3"),
            (2, 4, "made 3 1 4; fork 4 2 4"),
        ],
    )
}

#[test]
fn nobody_holds_anything(rt: HostRuntime) -> Result<(), Fail> {
    let none = history(rt.alloc(), 1, &[])?;
    expect(&rt, rt.alloc(), none.as_slice(), &[])?;
    let calls = [(1, Call::Pair), (1, Call::Exit)];
    let entries = history(rt.alloc(), 1, &calls)?;
    expect(&rt, rt.alloc(), entries.as_slice(), &[])
}

#[test]
fn dup2_onto_itself_and_onto_another(rt: HostRuntime) -> Result<(), Fail> {
    let calls = [
        (1, Call::Open(false)),
        (1, Call::Pair),
        (1, Call::Dup2(1, 1)),
        (1, Call::Dup2(0, 2)),
        (1, Call::Dup2(2, 0)),
    ];
    let entries = history(rt.alloc(), 1, &calls)?;
    expect(
        &rt,
        rt.alloc(),
        entries.as_slice(),
        &[
            (1, 0, "made 0 1 0; dup 3 1 2; dup 4 1 0"),
            (1, 1, "made 1 1 1"),
            (1, 2, "made 0 1 0; dup 3 1 2"),
        ],
    )
}

#[test]
fn a_number_sent_twice_and_a_cut_delivery(rt: HostRuntime) -> Result<(), Fail> {
    let calls = [
        (1, Call::Open(false)),
        (1, Call::Pair),
        (1, Call::Send(1, &[0, 0])),
        (1, Call::Recv(2, 24)),
        (1, Call::Send(1, &[3, 0])),
        (1, Call::Recv(2, 20)),
        (1, Call::Send(1, &[0])),
        (1, Call::Recv(2, 0)),
    ];
    let entries = history(rt.alloc(), 1, &calls)?;
    expect(
        &rt,
        rt.alloc(),
        entries.as_slice(),
        &[
            (1, 0, "made 0 1 0"),
            (1, 1, "made 1 1 1"),
            (1, 2, "made 1 1 2"),
            (1, 3, "made 0 1 0; got 3 1 3 from 2"),
            (1, 4, "made 0 1 0; got 3 1 4 from 2"),
            (1, 5, "made 0 1 0; got 3 1 3 from 2; got 5 1 5 from 4"),
        ],
    )
}

#[test]
fn a_peek_and_then_a_receive(rt: HostRuntime) -> Result<(), Fail> {
    let calls = [
        (1, Call::Open(false)),
        (1, Call::Pair),
        (1, Call::Send(1, &[0])),
        (1, Call::Close(0)),
        (1, Call::Peek(2, 24)),
        (1, Call::Recv(2, 24)),
    ];
    let entries = history(rt.alloc(), 1, &calls)?;
    expect(
        &rt,
        rt.alloc(),
        entries.as_slice(),
        &[
            (1, 0, "made 0 1 0; got 4 1 0 from 2"),
            (1, 1, "made 1 1 1"),
            (1, 2, "made 1 1 2"),
            (1, 3, "made 0 1 0; got 5 1 3 from 2"),
        ],
    )
}

#[test]
fn a_child_inherits_what_was_received(rt: HostRuntime) -> Result<(), Fail> {
    let calls = [
        (1, Call::Open(false)),
        (1, Call::Pair),
        (1, Call::Send(1, &[0])),
        (1, Call::Recv(2, 24)),
        (1, Call::Mark(0, true)),
        (1, Call::Fork),
        (2, Call::Dup(3)),
        (2, Call::Mark(1, true)),
        (2, Call::Exec),
    ];
    let entries = history(rt.alloc(), 1, &calls)?;
    expect(
        &rt,
        rt.alloc(),
        entries.as_slice(),
        &[
            (1, 0, "made 0 1 0"),
            (1, 1, "made 1 1 1"),
            (1, 2, "made 1 1 2"),
            (1, 3, "made 0 1 0; got 3 1 3 from 2"),
            (2, 2, "made 1 1 2; fork 5 2 2"),
            (2, 3, "made 0 1 0; got 3 1 3 from 2; fork 5 2 3"),
            (2, 4, "made 0 1 0; got 3 1 3 from 2; fork 5 2 3; dup 6 2 4"),
        ],
    )
}
