//! A queue as a plain list of whole messages.

use std::alloc::{AllocError, Global};
use std::collections::VecDeque;
use ux_rights::Origin;
use ux_types::Cred;

/// A message with all that is sent with it.
pub struct ListMessage {
    pub bytes: Vec<u8>,
    pub rights: Vec<u128>,
    pub origin: Origin,
    pub cred: Cred,
}

/// Written out, a drop is a call, and not each of its parts in the proof of each function that drops one.
impl Drop for ListMessage {
    fn drop(self) {
        let ListMessage {
            bytes,
            rights,
            origin: _,
            cred: _,
        } = self;
        drop(bytes);
        drop(rights);
    }
}

/// What a receive gives.
pub struct ListFront {
    pub bytes: Vec<u8>,
    pub rights: Vec<u128>,
    pub origin: Option<Origin>,
    pub cred: Cred,
}

/// As of a message.
impl Drop for ListFront {
    fn drop(self) {
        let ListFront {
            bytes,
            rights,
            origin: _,
            cred: _,
        } = self;
        drop(bytes);
        drop(rights);
    }
}

/// The messages, the oldest first.
pub struct ListQueue {
    pub messages: VecDeque<ListMessage>,
    alloc: Global,
}

/// As of a message.
impl Drop for ListQueue {
    fn drop(self) {
        let ListQueue { messages, alloc: _ } = self;
        drop(messages);
    }
}

impl ListQueue {
    pub fn new(alloc: Global) -> ListQueue {
        ListQueue {
            messages: VecDeque::new(alloc),
            alloc,
        }
    }

    pub fn len_bytes(&self) -> usize {
        let mut total: usize = 0;
        for m in &self.messages {
            total = total.saturating_add(m.bytes.len());
        }
        total
    }

    pub fn front(&self, n: usize, wants_cred: bool) -> Result<Option<ListFront>, AllocError> {
        let Some(first) = self.messages.front() else {
            return Ok(None);
        };
        let mut front = ListFront {
            bytes: Vec::new(self.alloc),
            rights: Vec::new(self.alloc),
            origin: None,
            cred: first.cred,
        };
        for m in &self.messages {
            let wanted = n.saturating_sub(front.bytes.len());
            if wanted == 0 || (wants_cred && m.cred != front.cred) {
                break;
            }
            let count = wanted.min(m.bytes.len());
            front.bytes.extend_from_slice(&m.bytes[..count])?;
            if !m.rights.is_empty() {
                front.rights.extend_from_slice(&m.rights)?;
                front.origin = Some(m.origin);
                break;
            }
        }
        Ok(Some(front))
    }

    /// Byte by byte.
    pub fn drop_front(&mut self, n: usize) {
        for _ in 0..n {
            let Some(first) = self.messages.front_mut() else {
                return;
            };
            first.rights.clear();
            if !first.bytes.is_empty() {
                first.bytes.remove(0);
            }
            if first.bytes.is_empty() {
                self.messages.pop_front();
            }
        }
    }
}
