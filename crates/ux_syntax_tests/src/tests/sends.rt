//! Sends of a script: to which address, and with which control data.
use super::{addr_of, expect_bad_lines, expect_request, fault_of, request_in};
use std::alloc::Global;
use std::process::Abort;
use std::test::*;
use ux_types::{Addr, Bytes, Fd, MsgFlags, Request};

/// Sees which address a send has, and which control bytes.
fn expect_send(
    rt: &impl Abort,
    alloc: Global,
    call: &str,
    addr: Option<Addr>,
    control: &[u8],
) -> Result<(), Fail> {
    let send = Request::SendMsg {
        fd: Fd(0),
        addr,
        bytes: Bytes::from_slice(alloc, b"hi")?,
        control: Bytes::from_slice(alloc, control)?,
        flags: MsgFlags(1),
    };
    expect_request(rt, alloc, call, send)
}

/// Addresses as they are written, their form, and the bytes of their name.
const ADDRESSES: &[(&str, char, &[u8])] = &[
    ("u", 'u', b""),
    ("p:s", 'p', b"s"),
    ("p:-", 'p', b"-"),
    ("p:", 'p', b""),
    ("a:q", 'a', b"q"),
    ("a:", 'a', b""),
    ("a:%00%ff", 'a', &[0, 0xff]),
];

#[test]
fn addresses_of_sends_are_read(rt: HostRuntime) -> Result<(), Fail> {
    let alloc = rt.alloc();
    expect_send(&rt, alloc, "send 0 - 6869 - p", None, b"")?;
    for (text, form, name) in ADDRESSES {
        let call = format!(in alloc; "send 0 {text} 6869 - p")?;
        let addr = addr_of(alloc, *form, name)?;
        expect_send(&rt, alloc, &call, Some(addr), b"")?;
    }
    Ok(())
}

/// What is no address of a send.
const BAD_ADDRESSES: &[&str] = &[
    "", "--", "-u", "u-", "u:", "U", "s", "p", "a", "P:s", "p:%73", "a:%7e", "a:%2", "r:3",
];

#[test]
fn bad_addresses_of_sends_are_reported(rt: HostRuntime) -> Result<(), Fail> {
    expect_bad_lines(&rt, rt.alloc(), "1 send 0 ", BAD_ADDRESSES, " 6869 - p")
}

/// Control data as it is written, and its bytes. The last two stand for the same.
const CONTROLS: &[(&str, &[u8])] = &[
    ("-", b""),
    ("x:00", &[0]),
    ("x:00ff9a", &[0, 0xff, 0x9a]),
    (
        "r:0",
        &[20, 0, 0, 0, 0, 0, 0, 0, 1, 0, 0, 0, 1, 0, 0, 0, 0, 0, 0, 0],
    ),
    (
        "r:4294967295",
        &[
            20, 0, 0, 0, 0, 0, 0, 0, 1, 0, 0, 0, 1, 0, 0, 0, 0xff, 0xff, 0xff, 0xff,
        ],
    ),
    (
        "r:10,4294967295,0",
        &[
            28, 0, 0, 0, 0, 0, 0, 0, 1, 0, 0, 0, 1, 0, 0, 0, 10, 0, 0, 0, 0xff, 0xff, 0xff, 0xff,
            0, 0, 0, 0,
        ],
    ),
    (
        "r:3,4",
        &[
            24, 0, 0, 0, 0, 0, 0, 0, 1, 0, 0, 0, 1, 0, 0, 0, 3, 0, 0, 0, 4, 0, 0, 0,
        ],
    ),
    (
        "x:180000000000000001000000010000000300000004000000",
        &[
            24, 0, 0, 0, 0, 0, 0, 0, 1, 0, 0, 0, 1, 0, 0, 0, 3, 0, 0, 0, 4, 0, 0, 0,
        ],
    ),
];

#[test]
fn control_data_is_read(rt: HostRuntime) -> Result<(), Fail> {
    let alloc = rt.alloc();
    for (text, control) in CONTROLS {
        let call = format!(in alloc; "send 0 - 6869 {text} p")?;
        expect_send(&rt, alloc, &call, None, control)?;
    }
    Ok(())
}

/// Items with credentials as they are written, and the digits of their bytes.
const ITEMS: &[(&str, &str)] = &[
    (
        "c:2,1000,1000",
        "1c00000000000000010000000200000002000000e8030000e8030000",
    ),
    (
        "c:0,4294967295,1",
        "1c00000000000000010000000200000000000000ffffffff01000000",
    ),
    (
        "c:2,1000,1000+r:3",
        "1c00000000000000010000000200000002000000e8030000e803000000000000\
         1400000000000000010000000100000003000000",
    ),
    (
        "c:2,1000,1000+r:3,4",
        "1c00000000000000010000000200000002000000e8030000e803000000000000\
         180000000000000001000000010000000300000004000000",
    ),
    (
        "r:3+c:2,1000,1000",
        "140000000000000001000000010000000300000000000000\
         1c00000000000000010000000200000002000000e8030000e8030000",
    ),
    // Two numbers end on a multiple of 8.
    (
        "r:3,4+c:2,1000,1000",
        "180000000000000001000000010000000300000004000000\
         1c00000000000000010000000200000002000000e8030000e8030000",
    ),
    (
        "r:3,4,5+c:2,1000,1000",
        "1c0000000000000001000000010000000300000004000000\
         0500000000000000\
         1c00000000000000010000000200000002000000e8030000e8030000",
    ),
];

/// Sees that control data stands for the bytes with these digits.
fn expect_layout(rt: &impl Abort, alloc: Global, text: &str, digits: &str) -> Result<(), Fail> {
    let of_digits = format!(in alloc; "send 0 - 6869 x:{digits} p")?;
    let of_text = format!(in alloc; "send 0 - 6869 {text} p")?;
    let written = request_in(alloc, &of_digits)?;
    expect_request(rt, alloc, &of_text, written)
}

#[test]
fn items_are_laid_out(rt: HostRuntime) -> Result<(), Fail> {
    for (text, digits) in ITEMS {
        expect_layout(&rt, rt.alloc(), text, digits)?;
    }
    Ok(())
}

/// What is no control data.
const BAD_CONTROLS: &[&str] = &[
    "",
    "--",
    "-,",
    "u",
    "00",
    "x",
    "x:",
    "x:-",
    "x:0",
    "x:000",
    "x:AB",
    "x:0g",
    "x:00,00",
    "x:00+r:1",
    "x00",
    "X:00",
    "3",
    "3,4",
    "r",
    "r:",
    "r:-",
    "r:1,",
    "r:,1",
    "r:,",
    "r:1,,2",
    "r:01",
    "r:1,00",
    "r:-1",
    "r:+1",
    "r:1;2",
    "r:1x",
    "r:4294967296",
    "r:1,4294967296",
    "R:1",
];

/// What is no item of control data, and no row of items.
const BAD_ITEMS: &[&str] = &[
    "c",
    "c:",
    "c:1",
    "c:1,2",
    "c:1,2,3,4",
    "c:1,2,3,",
    "c:,2,3",
    "c:1,,3",
    "c:01,2,3",
    "c:1,-2,3",
    "c:1,2,4294967296",
    "c:1;2;3",
    "c:-",
    "c1,2,3",
    "C:1,2,3",
    "1,2,3",
    "+",
    "+r:1",
    "r:1+",
    "r:+c:1,2,3",
    "c:1,2+r:3",
    "c:1,2,3+",
    "c:1,2,3+r:",
    "c:1,2,3+c:1,2,3",
    "r:0+r:1",
    "c:1,2,3++r:1",
    "c:1,2,3+r:1+",
    "c:1,2,3+r:1+r:2",
    "r:1+c:1,2,3+r:1",
    "c:1,2,3,r:1",
    "c:1,2,3+-",
    "-+r:1",
    "x:00+c:1,2,3",
    "c:1,2,3+x:00",
];

#[test]
fn bad_control_data_is_reported(rt: HostRuntime) -> Result<(), Fail> {
    expect_bad_lines(&rt, rt.alloc(), "1 send 0 - 6869 ", BAD_CONTROLS, " p")
}

#[test]
fn bad_items_are_reported(rt: HostRuntime) -> Result<(), Fail> {
    expect_bad_lines(&rt, rt.alloc(), "1 send 0 - 6869 ", BAD_ITEMS, " p")
}

/// A send of this many descriptor numbers.
fn send_of_rights(alloc: Global, count: usize) -> Result<String, Fail> {
    let mut call = format!(in alloc; "send 0 - - r:0")?;
    for _ in 1..count {
        call.push_str(",0")?;
    }
    call.push_str(" -")?;
    Ok(call)
}

/// How many control bytes a call has.
fn control_len(alloc: Global, call: &str) -> Result<usize, Fail> {
    match request_in(alloc, call)? {
        Request::SendMsg { control, .. } => Ok(control.as_slice().len()),
        _ => Err("no send".into()),
    }
}

#[test]
fn a_line_of_numbers_is_read_up_to_its_limit(rt: HostRuntime) -> Result<(), Fail> {
    let alloc = rt.alloc();
    let call = send_of_rights(alloc, 2040)?;
    assert_eq!(rt; control_len(alloc, &call)?, 16 + 4 * 2040);
    let call = send_of_rights(alloc, 2041)?;
    let text = format!(in alloc; "proc 0 0 0 1\n1 {call}")?;
    let reported = fault_of(alloc, text.as_bytes())?;
    assert_eq!(rt; reported.as_str(), "line 2: too long");
    Ok(())
}
