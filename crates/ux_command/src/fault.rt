//! Why no whole trace was printed.

use std::alloc::{AllocError, AllocFailed};
use thiserror::Error;
use ux_kernel::BootFault;
use ux_object::ObjError;
use ux_orders::OrderFault;
use ux_script_names::NameFault;
use ux_syntax::ScriptFault;
use ux_types::{Fd, Pid};

/// Why no whole trace was printed. Its text stands behind `uxrun: ` on standard error.
#[derive(Debug, Drop, Error)]
pub enum CommandFault {
    /// The script is at fault, or couldn't be read or run.
    #[error("{0}")]
    Script(ScriptFault),
    /// No kernel could be made for the script's file objects and processes, for the reason of this number.
    #[error("boot fault {0}")]
    Boot(u8),
    /// A call that was made once more, with this number in the trace, wasn't answered as the first time.
    #[error("check differs at {0}")]
    Differs(u64),
    /// A call answered otherwise than the script expects.
    #[error("expect differs")]
    Unexpected,
    /// The chain of holdings of this process's descriptor isn't its pedigree.
    #[error("audit fails at {} {}", .0.0, .1.0)]
    Audit(Pid, Fd),
    /// What was asked about has no such moment: this line makes no call.
    #[error("line {0} makes no call")]
    NoCall(u32),
    /// In the order that was asked for, the process at this place, counted from 1, can make no call.
    #[error("order: the process at place {0} can't go on")]
    Order(usize),
    /// In the order that was asked for, no process has the number at this place, counted from 1.
    #[error("order: at place {} there is no process {}", .0, .1.0)]
    Nobody(usize, Pid),
    /// In some orders each process that is left waits: so many outcomes are deadlocks, of so many.
    #[error("deadlock in {0} of {1} outcomes")]
    Deadlocks(usize, usize),
    /// In so many outcomes, of so many, a call answered otherwise than the script expects.
    #[error("expect differs in {0} of {1} outcomes")]
    UnexpectedIn(usize, usize),
    /// So many lines of a script that was run as it came were at fault, and left out.
    #[error("left out {0} of the lines")]
    LeftOut(usize),
    /// Not all orders were made.
    #[error("not all orders were made")]
    Limit,
    /// The file for the page can't be written.
    #[error("page not written")]
    Page,
    /// A name of the script means nothing where it stands.
    #[error("{0}")]
    Name(NameFault),
    /// The script has names or constants, and its replies were to be written into it.
    #[error("names and constants don't go with --update")]
    Named,
    /// In a script with the line `wide` another process than 1 forks, and orders were asked for.
    #[error("with --order and --orders process 1 alone may fork")]
    ForksElsewhere,
    /// A script's answers can't be written into it.
    #[error("replies not written")]
    Update,
}

impl From<ScriptFault> for CommandFault {
    fn from(fault: ScriptFault) -> CommandFault {
        CommandFault::Script(fault)
    }
}

impl From<NameFault> for CommandFault {
    fn from(fault: NameFault) -> CommandFault {
        match fault {
            NameFault::NoMemory => CommandFault::Script(ScriptFault::NoMemory),
            fault => CommandFault::Name(fault),
        }
    }
}

impl From<BootFault> for CommandFault {
    fn from(fault: BootFault) -> CommandFault {
        CommandFault::Boot(fault as u8)
    }
}

impl From<OrderFault> for CommandFault {
    fn from(fault: OrderFault) -> CommandFault {
        match fault {
            OrderFault::Stranger => CommandFault::Script(ScriptFault::Stranger),
            OrderFault::NoMemory | OrderFault::NoKernel => CommandFault::Script(
                ScriptFault::NoMemory,
            ),
        }
    }
}

impl From<AllocError> for CommandFault {
    fn from(_error: AllocError) -> CommandFault {
        CommandFault::Script(ScriptFault::NoMemory)
    }
}

impl<T: Drop> From<AllocFailed<T>> for CommandFault {
    fn from(_error: AllocFailed<T>) -> CommandFault {
        CommandFault::Script(ScriptFault::NoMemory)
    }
}

impl From<ObjError> for CommandFault {
    /// A file object that isn't made lacks memory: no line of a script is as long as a file may be.
    fn from(_error: ObjError) -> CommandFault {
        CommandFault::Script(ScriptFault::NoMemory)
    }
}
