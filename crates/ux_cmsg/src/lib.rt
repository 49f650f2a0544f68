//! Control buffers of sendmsg(2) and recvmsg(2): which credentials and which descriptor numbers their bytes
//! spell, the bytes that spell them, and which credentials a sender may give (cmsg(3), SCM_RIGHTS and
//! SCM_CREDENTIALS of unix(7)).
#![tactic(auto)]

ghost use Rattle.ux_model.specs.Control.{ReadsOnce};
ghost use Rattle.ux_model.specs.ControlReading.{ReadsByGrammar};

mod control;
mod credentials;
mod item;
mod reading;
mod writing;

pub use control::Control;
pub use credentials::{CredError, check_cred};
pub use reading::{ControlError, read_control};
pub use writing::write_control;

/// A control buffer reads as one Control, or as none, and never as two.
#[tactic(auto, using(crate::proofs::Collecting::reads_once))]
pub fn control_buffer_reads_once()
    ensures { ReadsOnce }
{}

/// What is read of a control buffer from left to right is what the grammar says of it.
#[tactic(auto, using(crate::proofs::Collecting::reads_by_grammar))]
pub fn control_is_read_by_its_grammar()
    ensures { ReadsByGrammar }
{}
