//! Who holds what: rows of each kind, as lines.

use serde_json::Value;
use std::alloc::Global;
use std::test::Fail;
use ux_fdtable::Descriptor;
use ux_holders::{
    DescriptionRow, MessageRow, NumberRow, ObjectRow, PathRow, ProcessRow, Snapshot, SocketRow,
    TargetRow, snapshot_values,
};
use ux_json::line_of;
use ux_names::PathTarget;
use ux_object::ObjKind;
use ux_types::{Addr, Cred, DescriptionId, Fd, Mode, Name, Pid, SockType};

/// A process with one number, which is closed on exec.
fn process(alloc: Global) -> Result<ProcessRow, Fail> {
    let row = NumberRow {
        fd: Fd(3),
        descriptor: Descriptor {
            description: DescriptionId::new(1),
            cloexec: true,
        },
    };
    Ok(ProcessRow {
        pid: Pid(2),
        numbers: Vec::from_slice(alloc, &[row])?,
    })
}

/// A socket without anything that is tied to it or set.
fn idle(alloc: Global, kind: SockType, name: Addr) -> SocketRow {
    SocketRow {
        kind,
        name,
        peer: None,
        association: None,
        backlog: None,
        pending: Vec::new(alloc),
        messages: Vec::new(alloc),
        passcred: false,
        read_shut: false,
        write_shut: false,
        reset: false,
    }
}

fn description(number: u128, references: u64, target: TargetRow) -> DescriptionRow {
    DescriptionRow {
        id: DescriptionId::new(number),
        references,
        offset: 0,
        mode: Mode::Both,
        append: false,
        nonblock: false,
        target,
    }
}

/// A memory file at an offset, which is appended to.
fn opened() -> DescriptionRow {
    let mut row = description(0, 2, TargetRow::Object(1));
    row.offset = 18446744073709551615;
    row.mode = Mode::Write;
    row.append = true;
    row.nonblock = true;
    row
}

/// A listener with a name, at which an end waits.
fn listener(alloc: Global) -> Result<DescriptionRow, Fail> {
    let name = Addr::Abstract(Name::from_slice(alloc, b"\0s")?);
    let mut socket = idle(alloc, SockType::Seq, name);
    socket.backlog = Some(8);
    socket.pending = Vec::from_slice(alloc, &[DescriptionId::new(5)])?;
    Ok(description(1, 1, TargetRow::Socket(socket)))
}

/// A connected socket, at which a message waits that passes two descriptions, and whose number has more than 64 bits.
fn connected(alloc: Global) -> Result<DescriptionRow, Fail> {
    let mut socket = idle(alloc, SockType::Stream, Addr::Unnamed);
    socket.peer = Some(DescriptionId::new(4));
    socket.messages.push(MessageRow {
        tag: 9,
        len: 7,
        rights: Vec::from_slice(alloc, &[DescriptionId::new(0), DescriptionId::new(1)])?,
        cred: Cred {
            pid: Pid(1),
            uid: 1000,
            gid: 100,
        },
    })?;
    socket.passcred = true;
    socket.write_shut = true;
    Ok(description(18446744073709551616, 3, TargetRow::Socket(socket)))
}

/// A datagram socket that sends to another, shut for reading and reset.
fn associated(alloc: Global) -> Result<DescriptionRow, Fail> {
    let mut socket = idle(alloc, SockType::Dgram, Addr::Unnamed);
    socket.association = Some(DescriptionId::new(18446744073709551615));
    socket.read_shut = true;
    socket.reset = true;
    Ok(description(6, 1, TargetRow::Socket(socket)))
}

/// All of these, file objects of each kind, and a path to each kind of thing.
fn snapshot(alloc: Global) -> Result<Snapshot, Fail> {
    let mut held = Snapshot {
        processes: Vec::new(alloc),
        descriptions: Vec::new(alloc),
        objects: Vec::new(alloc),
        paths: Vec::new(alloc),
    };
    held.processes.push(process(alloc)?)?;
    held.descriptions.push(opened())?;
    held.descriptions.push(listener(alloc)?)?;
    held.descriptions.push(associated(alloc)?)?;
    held.descriptions.push(connected(alloc)?)?;
    let kinds = [
        (ObjKind::Memory, 5u64),
        (ObjKind::Counter, 0),
        (ObjKind::Pipe, 0),
    ];
    let mut number: u32 = 1;
    for (kind, size) in kinds.as_slice() {
        held.objects.push(ObjectRow {
            number,
            kind: *kind,
            size: *size,
        })?;
        number = number.saturating_add(1);
    }
    held.paths.push(PathRow {
        name: Name::from_slice(alloc, b"a b")?,
        target: PathTarget::File(1),
    })?;
    held.paths.push(PathRow {
        name: Name::from_slice(alloc, b"s")?,
        target: PathTarget::Socket(DescriptionId::new(6)),
    })?;
    Ok(held)
}

/// What stands in a line for each.
const LINES: [&str; 10] = [
    r#"{"kind": "process", "pid": 2, "numbers": [{"fd": 3, "description": 1, "cloexec": true}]}"#,
    r#"{"kind": "description", "description": 0, "references": 2, "nonblock": true, "target": {"object": 1, "mode": "w", "offset": 18446744073709551615, "append": true}}"#,
    r#"{"kind": "description", "description": 1, "references": 1, "nonblock": false, "target": {"type": "seq", "name": "a:%00s", "peer": null, "association": null, "backlog": 8, "pending": [5], "messages": [], "passcred": false, "read_shut": false, "write_shut": false, "reset": false}}"#,
    r#"{"kind": "description", "description": 6, "references": 1, "nonblock": false, "target": {"type": "dgram", "name": "u", "peer": null, "association": 18446744073709551615, "backlog": null, "pending": [], "messages": [], "passcred": false, "read_shut": true, "write_shut": false, "reset": true}}"#,
    r#"{"kind": "description", "description": "18446744073709551616", "references": 3, "nonblock": false, "target": {"type": "stream", "name": "u", "peer": 4, "association": null, "backlog": null, "pending": [], "messages": [{"call": 9, "n": 7, "passes": [0, 1], "cred": {"pid": 1, "uid": 1000, "gid": 100}}], "passcred": true, "read_shut": false, "write_shut": true, "reset": false}}"#,
    r#"{"kind": "object", "object": 1, "type": "mem", "size": 5}"#,
    r#"{"kind": "object", "object": 2, "type": "counter", "size": 0}"#,
    r#"{"kind": "object", "object": 3, "type": "pipe", "size": 0}"#,
    r#"{"kind": "path", "path": "p:a%20b", "object": 1}"#,
    r#"{"kind": "path", "path": "p:s", "description": 6}"#,
];

#[test]
fn each_row_is_a_line(rt: HostRuntime) -> Result<(), Fail> {
    let alloc = rt.alloc();
    let values = snapshot_values(alloc, &snapshot(alloc)?)?;
    assert_eq!(&rt; values.len(), LINES.len());
    for (value, wanted) in values.iter().zip(&LINES) {
        let line = line_of(alloc, value)?;
        let read = Value::from_str(alloc, line.as_str().trim_end())?;
        assert!(rt; read == Value::from_str(alloc, wanted)?, "{wanted}");
    }
    Ok(())
}
