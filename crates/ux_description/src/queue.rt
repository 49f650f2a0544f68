//! What a socket keeps of what was sent to it, by its type.
ghost use Rattle.std.specs.Prelude.{◌≡◌, []};
ghost use Rattle.ux_description.specs.Views.{kind_of, messages_of};

use std::alloc::Global;
use ux_record::RecordQueue;
use ux_stream::StreamQueue;
use ux_types::SockType;

/// The queue of a socket of this type.
#[derive(Drop)]
pub enum Queue {
    /// Bytes.
    Stream(StreamQueue),
    /// Datagrams.
    Dgram(RecordQueue),
    /// Records.
    Seq(RecordQueue),
}

impl Queue {
    /// One in which nothing waits. It takes no memory.
    pub(crate) fn new(alloc: Global, kind: SockType) -> Queue
        ensures kind { kind_of result ≡ kind }
        ensures empty { messages_of result ≡ [] }
    {
        match kind {
            SockType::Stream => Queue::Stream(StreamQueue::new(alloc)),
            SockType::Dgram => Queue::Dgram(RecordQueue::new(alloc)),
            SockType::Seq => Queue::Seq(RecordQueue::new(alloc)),
        }
    }
}
