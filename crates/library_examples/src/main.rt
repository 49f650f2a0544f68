//! The layer as a library, by `delortxa`: a file that is written and read back, a server and a client in threads, a test of
//! a service manager, a parser without rights, a key server and a display server with their clients in threads, and two
//! processes in every order of their calls; then the crates below it: one process without threads, two threads as
//! processes, and a process that makes another.
#![tactic(auto)]

mod activation;
mod display;
mod every_order;
mod greeter;
mod hello;
mod key_server;
mod one_process;
mod parser;
mod relying;
mod service_manager;
mod two_threads;

use anyhow::Result;
use ux_book::{Book, BookName};
use ux_object::FileObject;
use ux_trace::entry_text;

/// Prints the history.
fn print_history<W: BookName, O: FileObject>(
    rt: &(impl Print + AllocGlobal),
    book: &Book<W, O>,
) -> Result<()> {
    for (number, entry) in book.entries().iter().enumerate() {
        print!(rt; "{}", entry_text(rt.alloc(), number, entry)?)?;
    }
    Ok(())
}

fn main(rt: HostRuntime) -> Result<()> {
    hello::run(&rt)?;
    greeter::run(&rt)?;
    activation::run(&rt)?;
    parser::run(&rt)?;
    key_server::run(&rt)?;
    display::run(&rt)?;
    every_order::run(&rt)?;
    one_process::run(&rt)?;
    two_threads::run(&rt)?;
    service_manager::run(&rt)
}
