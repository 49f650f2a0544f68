//! The local socket layer in few words: a program names its file objects and processes, and calls. This crate passes
//! on what such a program names, and nothing else of the crates below.
#![tactic(auto)]

mod answers;
mod boot;
mod calls;
mod family;
mod fault;
mod layered;
mod nursery;
mod objects;
mod orders;
mod program;
mod seat;
mod session;
mod text;
mod whole;

pub use answers::{Message, ReplyExt};
pub use boot::Boot;
pub use calls::Calls;
pub use family::{Family, FamilyProgram, with_family};
pub use fault::CallError;
pub use layered::{LayerProgram, with_layer};
pub use nursery::Nursery;
pub use objects::AnyObject;
pub use orders::{Programs, explore, explore_each};
pub use program::{BookProgram, with_book};
pub use seat::{Layer, Seat};
pub use session::Session;
pub use text::trace_text;
pub use ux_audit::holdings;
pub use ux_book::{BookName, CallFault, NoMemory, OffFault, Receipt, Spent};
pub use ux_calls::call;
pub use ux_cmsg::{Control, ControlError};
pub use ux_kernel::{BootFault, Kernel};
pub use ux_object::{FileObject, ObjError, ObjKind};
pub use ux_objects::{FailAt, Plain};
pub use ux_orders::{Found, OrderFault, OrderList, Ran};
pub use ux_trace::entry_text;
pub use ux_types::{
    Addr, Bytes, Cred, Entry, Errno, Fd, Mode, MsgFlags, Name, OpenFlags, Pid, PollFd, PollFds,
    PollFlags, ProcSpec, Reply, Request, Revents, SockOpt, SockType, Whence,
};
pub use whole::Unfinished;
