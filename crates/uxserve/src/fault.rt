//! Why the program didn't come to the end of its input.
use std::alloc::{AllocError, AllocFailed};
use thiserror::Error;
use ux_kernel::BootFault;
use ux_syntax::ScriptFault;
use ux_types::{Fd, Pid};

/// Why the program didn't come to the end of its input. Its text stands behind `uxserve: ` on standard error.
#[derive(Debug, Drop, Error)]
pub enum ServeFault {
    /// A read or a write failed, or memory ran out.
    #[error("{0}")]
    Script(ScriptFault),
    /// No kernel could be made for the header's file objects and processes, for the reason of this number.
    #[error("boot fault {0}")]
    Boot(u8),
    /// No chain of holdings leads to this process's descriptor.
    #[error("audit fails at {} {}", .0.0, .1.0)]
    Audit(Pid, Fd),
}

impl From<ScriptFault> for ServeFault {
    fn from(fault: ScriptFault) -> ServeFault {
        ServeFault::Script(fault)
    }
}

impl From<BootFault> for ServeFault {
    fn from(fault: BootFault) -> ServeFault {
        ServeFault::Boot(fault as u8)
    }
}

impl From<AllocError> for ServeFault {
    fn from(_error: AllocError) -> ServeFault {
        ServeFault::Script(ScriptFault::NoMemory)
    }
}

impl<T: Drop> From<AllocFailed<T>> for ServeFault {
    fn from(_error: AllocFailed<T>) -> ServeFault {
        ServeFault::Script(ScriptFault::NoMemory)
    }
}
