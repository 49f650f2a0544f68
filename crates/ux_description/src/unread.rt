//! The messages that wait at a socket, looked at where they are.
ghost use Rattle.std.specs.Prelude.{◌≡◌, length, None, option_map, option_and_then, slice_get};
ghost use Rattle.ux_model.specs.Message.{queued_bytes};
ghost use Rattle.ux_model.specs.QueueLengths.{waiting_bytes};

use crate::queue::Queue;
use crate::socket::Socket;
use ux_record::Record;
use ux_rights::Reference;
use ux_stream::Mark;
use ux_types::{Addr, Cred};

/// A message that nobody has received.
#[derive(Clone, Copy)]
pub struct Unread<'a> {
    /// The number of the call that sent it.
    pub tag: u64,
    /// How many of its bytes wait.
    pub len: usize,
    /// The descriptions that it passes, in order.
    pub rights: &'a [Reference],
    pub cred: Cred,
    /// The user of the sending process, of whose rights in flight these are.
    pub uid: u32,
    /// The sender's name at the time of sending, of a datagram.
    pub from: Option<&'a Addr>,
}

impl Socket {
    /// How many messages wait to be received.
    pub fn message_count(&self) -> usize
        ensures { result ≡ length self.now.queue }
    {
        match &self.queue {
            Queue::Stream(queue) => queue.len(),
            Queue::Dgram(queue) | Queue::Seq(queue) => queue.len(),
        }
    }

    /// How many bytes wait to be received, in all messages.
    pub fn queued_bytes(&self) -> usize
        ensures { result ≡ queued_bytes self.now.queue }
    {
        match &self.queue {
            Queue::Stream(queue) => queue.len_bytes(),
            Queue::Dgram(queue) | Queue::Seq(queue) => queue.len_bytes(),
        }
    }

    /// How many bytes are to be read, as FIONREAD of ioctl(2) has it: of a datagram socket those of the oldest datagram.
    pub fn waiting_bytes(&self) -> usize
        ensures { result ≡ waiting_bytes self.now }
    {
        match &self.queue {
            Queue::Dgram(queue) => queue.first_len(),
            _ => self.queued_bytes(),
        }
    }

    /// The message at an index, the oldest at 0.
    pub fn message(&self, index: usize) -> Option<Unread<'_>>
        ensures tag { option_map (λ u. u.tag) result ≡ option_map (λ m. m.tag) (slice_get self.now.queue index) }
        ensures len { option_map (λ u. u.len) result ≡ option_map (λ m. length m.bytes) (slice_get self.now.queue index) }
        ensures rights { option_map (λ u. u.rights.now) result ≡ option_map (λ m. m.rights) (slice_get self.now.queue index) }
        ensures cred { option_map (λ u. u.cred) result ≡ option_map (λ m. m.cred) (slice_get self.now.queue index) }
        ensures uid { option_map (λ u. u.uid) result ≡ option_map (λ m. m.uid) (slice_get self.now.queue index) }
        ensures from { option_and_then (λ u. option_map (λ a. a.now) u.from) result ≡ option_and_then (λ m. m.from) (slice_get self.now.queue index) }
    {
        match &self.queue {
            Queue::Stream(queue) => match queue.get(index) {
                Some(mark) => Some(of_mark(mark)),
                None => None,
            },
            Queue::Dgram(queue) | Queue::Seq(queue) => match queue.get(index) {
                Some(record) => Some(of_record(record)),
                None => None,
            },
        }
    }
}

/// The message of a stream that has this mark.
fn of_mark(mark: &Mark) -> Unread<'_>
    ensures tag { result.tag ≡ mark.now.tag }
    ensures len { result.len ≡ mark.now.count }
    ensures rights { result.rights.now ≡ mark.now.rights }
    ensures cred { result.cred ≡ mark.now.cred }
    ensures uid { result.uid ≡ mark.now.uid }
    ensures from { result.from ≡ None }
{
    Unread {
        tag: mark.tag(),
        len: mark.len(),
        rights: mark.rights(),
        cred: mark.cred(),
        uid: mark.uid(),
        from: None,
    }
}

/// A whole message.
fn of_record(whole: &Record) -> Unread<'_>
    ensures tag { result.tag ≡ whole.now.tag }
    ensures len { result.len ≡ length whole.now.bytes }
    ensures rights { result.rights.now ≡ whole.now.rights }
    ensures cred { result.cred ≡ whole.now.cred }
    ensures uid { result.uid ≡ whole.now.uid }
    ensures from { option_map (λ a. a.now) result.from ≡ whole.now.from }
{
    Unread {
        tag: whole.tag(),
        len: whole.len(),
        rights: whole.rights(),
        cred: whole.cred(),
        uid: whole.uid(),
        from: whole.from(),
    }
}
