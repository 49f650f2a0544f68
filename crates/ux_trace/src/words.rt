//! The words of a reply: bytes, names, addresses, flags, and what control bytes spell.

ghost use Rattle.std.specs.Prelude.{◌≡◌, Some, map};
ghost use Rattle.ux_trace.specs.Trace.{hex, stands, name_text, addr_text, addr_or_dash, flags_text, received_flags_text, poll_flags_text, open_flags_text, rights_text, cred_text, said_text, parsed_control_text};

use bitflags::Flags;
use std::fmt;
use ux_cmsg::Control;
use ux_types::{Addr, Cred, Fd, MsgFlags, OpenFlags, PollFlags};

/// Bytes as pairs of hexadecimal digits, or `-` where there is none.
#[derive(Clone, Copy)]
pub struct HexText<'a>(pub &'a [u8]);

impl fmt::Display for HexText<'_> {
    ghost output = { λ h. Some (hex h.0.now) };

    fn fmt<W: fmt::Write>(&self, f: &mut fmt::Formatter<W>) -> fmt::Result {
        if self.0.is_empty() {
            return write!(f, "-");
        }
        for byte in self.0 {
            let byte = *byte;
            write!(f, "{byte:02x}")?;
        }
        Ok(())
    }
}

/// Whether a byte stands for itself in a name: one that is printed, is no blank, and isn't `%`.
pub fn stands(byte: u8) -> bool
    ensures { result ≡ stands byte }
{
    (0x21..=0x7e).contains(&byte) && byte != b'%'
}

/// A name as a word has it: a byte that doesn't stand for itself is `%` and two digits.
#[derive(Clone, Copy)]
pub struct NameText<'a>(pub &'a [u8]);

impl fmt::Display for NameText<'_> {
    ghost output = { λ name. Some (name_text name.0.now) };

    fn fmt<W: fmt::Write>(&self, f: &mut fmt::Formatter<W>) -> fmt::Result {
        for byte in self.0 {
            let byte = *byte;
            if stands(byte) {
                let letter = char::from(byte);
                write!(f, "{letter}")?;
            } else {
                write!(f, "%{byte:02x}")?;
            }
        }
        Ok(())
    }
}

/// An address as a word has it: `u`, or `p:` or `a:` and the name.
#[derive(Clone, Copy)]
pub struct AddrText<'a>(pub &'a Addr);

impl fmt::Display for AddrText<'_> {
    ghost output = { λ addr. Some (addr_text addr.0.now) };

    fn fmt<W: fmt::Write>(&self, f: &mut fmt::Formatter<W>) -> fmt::Result {
        match self.0 {
            Addr::Unnamed => write!(f, "u"),
            Addr::Path(name) => {
                let name = NameText(name.as_bytes());
                write!(f, "p:{name}")
            }
            Addr::Abstract(name) => {
                let name = NameText(name.as_bytes());
                write!(f, "a:{name}")
            }
        }
    }
}

/// An address, or `-` for none.
#[derive(Clone, Copy)]
pub(crate) struct AddrOrDash<'a>(pub(crate) &'a Option<Addr>);

impl fmt::Display for AddrOrDash<'_> {
    ghost output = { λ addr. Some (addr_or_dash addr.0.now) };

    fn fmt<W: fmt::Write>(&self, f: &mut fmt::Formatter<W>) -> fmt::Result {
        match self.0 {
            Some(addr) => write!(f, "{}", AddrText(addr)),
            None => write!(f, "-"),
        }
    }
}

/// The names of the flags that are set, joined by `|`, or `-` where none is.
#[derive(Clone, Copy)]
struct SetNames<'a>(&'a [(bool, &'a str)]);

impl fmt::Display for SetNames<'_> {
    ghost output = { λ names. Some (flags_text (map (λ row. (row.0, row.1.now)) names.0.now)) };

    fn fmt<W: fmt::Write>(&self, f: &mut fmt::Formatter<W>) -> fmt::Result {
        let mut separator = "";
        for (is_set, name) in self.0 {
            if *is_set {
                write!(f, "{separator}{name}")?;
                separator = "|";
            }
        }
        if separator.is_empty() {
            write!(f, "-")?;
        }
        Ok(())
    }
}

/// The flags that a receive set.
#[derive(Clone, Copy)]
pub(crate) struct ReceivedFlags(pub(crate) MsgFlags);

impl fmt::Display for ReceivedFlags {
    ghost output = { λ flags. Some (received_flags_text flags.0) };

    fn fmt<W: fmt::Write>(&self, f: &mut fmt::Formatter<W>) -> fmt::Result {
        let rows = [
            (self.0.contains(MsgFlags::TRUNC), "TRUNC"),
            (self.0.contains(MsgFlags::CTRUNC), "CTRUNC"),
            (self.0.contains(MsgFlags::EOR), "EOR"),
        ];
        let names = SetNames(&rows);
        write!(f, "{names}")
    }
}

/// The conditions that a poll found (poll(2)).
#[derive(Clone, Copy)]
pub(crate) struct PollFlagNames(pub(crate) PollFlags);

impl fmt::Display for PollFlagNames {
    ghost output = { λ flags. Some (poll_flags_text flags.0) };

    fn fmt<W: fmt::Write>(&self, f: &mut fmt::Formatter<W>) -> fmt::Result {
        let rows = [
            (self.0.contains(PollFlags::IN), "IN"),
            (self.0.contains(PollFlags::OUT), "OUT"),
            (self.0.contains(PollFlags::RDHUP), "RDHUP"),
            (self.0.contains(PollFlags::HUP), "HUP"),
            (self.0.contains(PollFlags::ERR), "ERR"),
            (self.0.contains(PollFlags::NVAL), "NVAL"),
        ];
        let names = SetNames(&rows);
        write!(f, "{names}")
    }
}

/// The flags of a descriptor and of its description.
#[derive(Clone, Copy)]
pub(crate) struct OpenFlagNames(pub(crate) OpenFlags);

impl fmt::Display for OpenFlagNames {
    ghost output = { λ flags. Some (open_flags_text flags.0) };

    fn fmt<W: fmt::Write>(&self, f: &mut fmt::Formatter<W>) -> fmt::Result {
        let rows = [
            (self.0.contains(OpenFlags::APPEND), "APPEND"),
            (self.0.contains(OpenFlags::NONBLOCK), "NONBLOCK"),
            (self.0.contains(OpenFlags::CLOEXEC), "CLOEXEC"),
        ];
        let names = SetNames(&rows);
        write!(f, "{names}")
    }
}

/// Descriptor numbers, as `r:3,4`.
#[derive(Clone, Copy)]
struct RightsText<'a>(&'a [Fd]);

impl fmt::Display for RightsText<'_> {
    ghost output = { λ rights. Some (rights_text (map (λ fd. fd.0) rights.0.now)) };

    fn fmt<W: fmt::Write>(&self, f: &mut fmt::Formatter<W>) -> fmt::Result {
        write!(f, "r:")?;
        let mut separator = "";
        for fd in self.0 {
            let number = fd.0;
            write!(f, "{separator}{number}")?;
            separator = ",";
        }
        Ok(())
    }
}

/// Credentials, as `c:2,1000,1000`: the process, the user and the group.
#[derive(Clone, Copy)]
struct CredText(Cred);

impl fmt::Display for CredText {
    ghost output = { λ cred. Some (cred_text cred.0) };

    fn fmt<W: fmt::Write>(&self, f: &mut fmt::Formatter<W>) -> fmt::Result {
        let pid = self.0.pid.0;
        let uid = self.0.uid;
        let gid = self.0.gid;
        write!(f, "c:{pid},{uid},{gid}")
    }
}

/// What control bytes say: credentials and descriptor numbers joined by `+`, or `-` where there is neither.
#[derive(Clone, Copy)]
struct SaidText<'a>(&'a Control);

impl fmt::Display for SaidText<'_> {
    ghost output = { λ said. Some (said_text said.0.now) };

    fn fmt<W: fmt::Write>(&self, f: &mut fmt::Formatter<W>) -> fmt::Result {
        let rights = RightsText(self.0.rights());
        match self.0.cred() {
            Some(cred) => {
                let cred = CredText(cred);
                if rights.0.is_empty() {
                    write!(f, "{cred}")
                } else {
                    write!(f, "{cred}+{rights}")
                }
            }
            None if rights.0.is_empty() => write!(f, "-"),
            None => write!(f, "{rights}"),
        }
    }
}

/// What control bytes spell that read so: what they say, or `x:` and the bytes where they read as nothing.
#[derive(Clone, Copy)]
pub(crate) struct ParsedControl<'a> {
    pub(crate) bytes: &'a [u8],
    pub(crate) read: &'a Option<Control>,
}

impl fmt::Display for ParsedControl<'_> {
    ghost output = { λ control. Some (parsed_control_text control.bytes.now control.read.now) };

    fn fmt<W: fmt::Write>(&self, f: &mut fmt::Formatter<W>) -> fmt::Result {
        match self.read {
            Some(control) => write!(f, "{}", SaidText(control)),
            None => write!(f, "x:{}", HexText(self.bytes)),
        }
    }
}
