//! A call, as its process knows it.
use ux_types::{Reply, Request};

/// What was asked, and what was answered. No value of it is made: contracts see a process's calls as a list of these.
pub struct Call {
    /// What it asked for.
    pub request: Request,
    /// What it was answered.
    pub reply: Reply,
}

impl Drop for Call {
    fn drop(self) {
        let Self { request, reply } = self;
        drop(request);
        drop(reply)
    }
}
