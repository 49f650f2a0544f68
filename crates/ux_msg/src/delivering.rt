//! How rights and credentials come to a receiver (recvmsg(2), cmsg(3)).
ghost use Rattle.std.specs.Prelude.{◌≡◌, ◌==◌, not, IsTrue, IfOk, OnOk, OnErr, Some, None, if◌then◌else◌, map, take, length};
ghost use Rattle.ux_model.specs.State.{is_live, table_of, with_table};
ghost use Rattle.ux_model.specs.Process.{free_numbers};
ghost use Rattle.ux_model.specs.Delivery.{delivery, installed, install_count, writes_cred, space_for_rights};
ghost use Rattle.ux_state.specs.Moves.{AreReferenced};

use std::alloc::{AllocError, Global};
use ux_cmsg::{Control, write_control};
use ux_object::FileObject;
use ux_record::Peeked;
use ux_rights::install_count;
use ux_state::State;
use ux_types::{Bytes, CMSG_CRED_LEN, CMSG_CRED_SPACE, Cred, Fd, Pid};

/// What a receive reports beside the bytes.
#[derive(Drop)]
pub(crate) struct Delivered {
    /// The bytes of its control buffer.
    pub(crate) control: Bytes,
    /// Whether something was left out that came with the bytes (MSG_CTRUNC).
    pub(crate) truncated: bool,
    /// Whether at least one right was installed.
    pub(crate) installs: bool,
}

/// How a receiver wants what comes with the bytes.
#[derive(Clone, Copy)]
pub(crate) struct Wanted {
    /// Whether it wants credentials (SO_PASSCRED).
    pub(crate) cred: bool,
    /// The bytes of its control space.
    pub(crate) space: usize,
    /// Whether its descriptors get close-on-exec (MSG_CMSG_CLOEXEC).
    pub(crate) cloexec: bool,
}

/// Installs the rights for which a process has numbers and control space, and writes the control buffer. The
/// process lives. Every growth comes before the first change.
///
/// # Errors
///
/// Out of memory. The state is then as before.
#[tactic(auto, unfolding(ux_model::specs::Delivery::delivery))]
pub(crate) fn deliver<O: FileObject>(
    state: &mut State<O>,
    alloc: Global,
    pid: Pid,
    received: &Peeked,
    wanted: Wanted,
) -> Result<Delivered, AllocError>
    requires live { IsTrue (is_live state.old pid.0) }
    requires held { AreReferenced state.old received.now.rights }
    ensures control { IfOk result (λ r. r.control ≡ (delivery wanted.cred received.now.cred received.now.rights wanted.space (table_of state.old pid.0)).control) }
    ensures truncated { IfOk result (λ r. r.truncated ≡ (delivery wanted.cred received.now.cred received.now.rights wanted.space (table_of state.old pid.0)).truncated) }
    ensures installs { IfOk result (λ r. r.installs ≡ not (length (delivery wanted.cred received.now.cred received.now.rights wanted.space (table_of state.old pid.0)).numbers == 0)) }
    ensures installed { OnOk result (state.new ≡ with_table state.old pid.0 (installed wanted.cloexec
        (delivery wanted.cred received.now.cred received.now.rights wanted.space (table_of state.old pid.0)).numbers received.now.rights (table_of state.old pid.0))) }
    ensures err { OnErr result (state.new ≡ state.old) }
{
    let rights = received.rights.as_slice();
    let cred = written_cred(wanted, received.cred);
    let numbers = find_numbers(state, alloc, pid, rights.len(), space_for_rights(wanted))?;
    let truncated = numbers.len() < rights.len() || (wanted.cred && cred.is_none());
    let installs = !numbers.is_empty();
    let control = Control::new(cred, numbers);
    let bytes = Bytes::new(write_control(alloc, &control)?)?;
    state.install_rights(pid, control.rights(), rights, wanted.cloexec)?;
    Ok(Delivered {
        control: bytes,
        truncated,
        installs,
    })
}

/// The numbers that a process gets for so many rights in this space.
fn find_numbers<O: FileObject>(
    state: &State<O>,
    alloc: Global,
    pid: Pid,
    count: usize,
    space: usize,
) -> Result<Vec<Fd>, AllocError>
    requires live { IsTrue (is_live state.now pid.0) }
    ensures { IfOk result (λ numbers. map (λ fd. fd.0) numbers.items ≡ take
        (install_count count space (length (free_numbers (table_of state.now pid.0)))) (free_numbers (table_of state.now pid.0))) }
{
    let table = state.table(pid);
    let count = install_count(count, space, table.limit() as usize);
    table.lowest_numbers(alloc, count)
}

/// The credentials, where they are wanted and the space holds them whole.
fn written_cred(wanted: Wanted, cred: Cred) -> Option<Cred>
    ensures { result ≡ (if writes_cred wanted.cred wanted.space then Some cred else None) }
{
    if wanted.cred && wanted.space >= CMSG_CRED_LEN {
        Some(cred)
    } else {
        None
    }
}

/// The space that credentials leave for rights.
fn space_for_rights(wanted: Wanted) -> usize
    ensures { result ≡ space_for_rights wanted.cred wanted.space }
{
    if wanted.cred && wanted.space >= CMSG_CRED_LEN {
        wanted.space.saturating_sub(CMSG_CRED_SPACE)
    } else {
        wanted.space
    }
}
