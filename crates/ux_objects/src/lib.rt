//! The three kinds of file objects, which live in memory and never fail: memory files, counters as of
//! eventfd(2), and pipes (pipe(7)). Beside them one that fails once, for those who want to see
//! what becomes of a failure, and what a layer has: objects that it was given, and those that calls made.
#![tactic(auto)]

mod counter;
mod fail_at;
mod layer_file;
mod mem_file;
mod pipe;
mod plain;

pub use counter::Counter;
pub use fail_at::FailAt;
pub use layer_file::LayerFile;
pub use mem_file::MemFile;
pub use pipe::Pipe;
pub use plain::Plain;
