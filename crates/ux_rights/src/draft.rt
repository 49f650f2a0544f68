//! A message before it is queued.

use ux_types::{Bytes, Cred};

/// What a process sends, but for the rights and its socket's name.
#[derive(Clone, Copy)]
pub struct Draft<'a> {
    /// The number of the call.
    pub tag: u64,
    /// The bytes.
    pub bytes: &'a Bytes,
    /// The credentials that it reports (SCM_CREDENTIALS).
    pub cred: Cred,
    /// The user of the sending process, whatever the credentials say.
    pub uid: u32,
}
