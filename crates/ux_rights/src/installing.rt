//! How many rights a receiver gets.
ghost use Rattle.std.specs.Prelude.{◌≡◌};
ghost use Rattle.ux_model.specs.Delivery.{install_count, rights_fit};

use ux_types::{CMSG_FD_LEN, CMSG_HEAD_LEN};

/// How many of a message's rights are installed, the first ones: as many as the control space has room for and as
/// the table has free numbers (recvmsg(2), cmsg(3)). Where that is fewer than all, the rest is left out (MSG_CTRUNC).
pub fn install_count(count: usize, space: usize, free: usize) -> usize
    ensures { result ≡ install_count count space free }
{
    count.min(rights_fit(space)).min(free)
}

/// How many numbers fit a control space.
fn rights_fit(space: usize) -> usize
    ensures { result ≡ rights_fit space }
{
    if space < CMSG_HEAD_LEN + CMSG_FD_LEN {
        return 0;
    }
    (space - CMSG_HEAD_LEN) / CMSG_FD_LEN
}
