//! What one call answers.
use crate::replies::Reply;

/// The answer to a call, and of which message rights came with it.
#[derive(Debug, Drop, PartialEq, Eq)]
pub struct Done {
    /// The answer.
    pub reply: Reply,
    /// The tag of the message of which a receive, or a peek, installed at least one right (SCM_RIGHTS).
    pub delivered: Option<u64>,
}
