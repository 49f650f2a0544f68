//! The sizes of what stands in a control buffer (cmsg(3)).

/// The bytes of an item's head: its length in 8, its level and its type in 4 each (CMSG_LEN(0)).
pub const CMSG_HEAD_LEN: usize = 16;

/// The bytes of a descriptor's number.
pub const CMSG_FD_LEN: usize = 4;

/// The bytes of an item of credentials: the head, and pid, uid and gid (CMSG_LEN).
pub const CMSG_CRED_LEN: usize = CMSG_HEAD_LEN + 12;

/// The same up to where the next item begins (CMSG_SPACE).
pub const CMSG_CRED_SPACE: usize = 32;
