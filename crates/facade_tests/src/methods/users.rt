//! Who a process runs as.
use super::{CALLER, Wrong, gives, refuses};
use delortxa::{Calls, Errno};

/// Takes the caller's own ids, and is refused those of the superuser.
pub(super) fn take_ids<C: Copy, P: Calls<C>>(p: &mut P, who: C) -> Result<(), Wrong> {
    let own = p.set_ids(who, CALLER.uid, CALLER.gid);
    gives("set_ids", own, ())?;
    refuses("set_ids", p.set_ids(who, 0, 0), Errno::EPERM)
}
