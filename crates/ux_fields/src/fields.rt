//! The fields of a request, without copies.

ghost use Rattle.std.specs.Prelude.{◌≡◌, ◌≤◌};

use std::marker::Model;
use ux_types::{
    Addr, Bytes, Fd, Mode, MsgFlags, Name, OpenFlags, PollFds, SockOpt, SockType, Whence,
};

/// A field of a request.
#[derive(Clone, Copy)]
pub enum Field<'a> {
    Fd(Fd),
    Number(u32),
    Size(usize),
    Space(usize),
    Value(u64),
    Offset(i64),
    Backlog(i32),
    Path(&'a Name),
    Bytes(&'a Bytes),
    Addr(&'a Addr),
    Target(&'a Option<Addr>),
    Mode(Mode),
    Whence(Whence),
    SockType(SockType),
    SockOpt(SockOpt),
    OpenFlags(OpenFlags),
    CounterFlags(bool, OpenFlags),
    MsgFlags(MsgFlags),
    Control(&'a Bytes),
    PollFds(&'a PollFds),
    Waits(bool),
}

/// The fields of a request, of which no call has more than five. Contracts see their list.
#[derive(Drop)]
pub struct Fields<'a> {
    pub(crate) slots: [Field<'a>; 5],
    pub(crate) len: usize,
    ghost in_range: { len ≤ 5 },
}

impl<'a> Model for Fields<'a> {
    ghost use Rattle.std.specs.Prelude.{List, take};
    ghost use Rattle.ux_fields.specs.declared.fields.Field.{Field};

    ghost Value = { List Field };

    ghost view = { λ fields. take fields.len fields.slots };
}

impl<'a> Fields<'a> {
    /// The fields, in the order of a script's line.
    pub fn as_slice(&self) -> &[Field<'a>]
        ensures { result.now ≡ self.now }
    {
        &self.slots[..self.len]
    }
}
