//! The layer as a library: one process writes a file, reads it by a second descriptor, and closes both.
//! The calls go through a book, which keeps them as a history that is proved legal; at the end the history has
//! exactly the calls that the process's share knows.
ghost use Rattle.std.specs.Prelude.{◌≡◌, [], IfOk};
ghost use Rattle.ux_model.specs.Boot.{IsBootState};

use crate::print_history;
use anyhow::{Result, anyhow};
use delortxa::{AnyObject, Boot, call};
use std::alloc::Global;
use std::marker::Brand;
use ux_book::{Account, Book, BookName, Share, Trail, has_own_call};
use ux_kernel::Kernel;
use ux_state::ReleasedObjects;
use ux_types::{Fd, Mode, Request, Whence};

/// A kernel with one memory file, at the path `notes`, and one process.
fn start(alloc: Global) -> Result<Kernel<AnyObject>>
    ensures { IfOk result (λ kernel. IsBootState kernel) }
{
    let boot = Boot::new(alloc).file(b"notes", b"")?;
    Ok(boot.process(1000, 1000, 16)?.start()?)
}

/// The calls that the process makes before it exits.
fn calls(alloc: Global) -> Result<Vec<Request>> {
    Ok(vec![in alloc;
        call::open(alloc, b"notes", Mode::Both)?,
        call::write(alloc, Fd(0), b"hello")?,
        // The dup shares the offset of its original, which is set back to the beginning.
        call::dup(Fd(0)),
        call::lseek(Fd(1), 0, Whence::Set),
        call::read(Fd(0), 64),
        call::close(Fd(0)),
    ]?)
}

/// Makes these calls of the share's process.
fn make_calls<W: BookName>(
    book: &mut Book<W, AnyObject>,
    share: &mut Share<W>,
    released: &mut ReleasedObjects<AnyObject>,
    requests: &[Request],
) -> Result<()> {
    for request in requests {
        // A process makes another one, and exits, by functions of the book's own.
        if has_own_call(request) {
            return Err(anyhow!("a fork or an exit isn't recorded so"));
        }
        // The file objects that went with the call before, closed, are dropped here.
        released.clear();
        match book.record(share, request, released) {
            Ok(recorded) => drop(recorded),
            Err(fault) => return Err(anyhow!("{fault}")),
        }
    }
    Ok(())
}

/// Ends the process, and compares its share with the history.
fn end<W: BookName>(
    alloc: Global,
    book: &mut Book<W, AnyObject>,
    share: Share<W>,
    released: &mut ReleasedObjects<AnyObject>,
) -> Result<Account> {
    released.clear();
    let mut spents = vec![in alloc; book.exit(share, released)]?;
    match book.settle(&mut spents) {
        Ok(account) => Ok(account),
        Err(missing) => Err(anyhow!("{missing}")),
    }
}

/// Fills this book with the calls of its one process, and prints its history.
fn fill<W: BookName>(
    rt: &(impl Print + AllocGlobal),
    book: &mut Book<W, AnyObject>,
    mut shares: Vec<Share<W>>,
) -> Result<()> {
    let requests = calls(rt.alloc())?;
    let mut released = ReleasedObjects::new(rt.alloc());
    let Some(mut share) = shares.pop() else {
        return Err(anyhow!("no process"));
    };
    make_calls(book, &mut share, &mut released, &requests)?;
    let account = end(rt.alloc(), book, share, &mut released)?;
    print_history(rt, book)?;
    print!(rt; "{} entries settle\n", account.entries)?;
    Ok(())
}

/// Opens a book at this kernel, under a name that lives in here, and fills it.
fn keep_book<W: BookName>(
    rt: &(impl Print + AllocGlobal),
    trail: Trail,
    kernel: Kernel<AnyObject>,
) -> Result<()>
    requires trail { trail ≡ record { id = W.trail; entries = []; given = 0 } }
    requires boots { IsBootState kernel }
    requires named { kernel ≡ W.boot }
{
    match Book::<W, AnyObject>::new(rt.alloc(), trail, kernel) {
        Ok((mut book, shares)) => {
            let filled = fill(rt, &mut book, shares);
            // One drop for all ways out of `fill` keeps the proof short.
            drop(book);
            filled
        }
        // The kernel comes back with the error.
        Err((kernel, error)) => {
            drop(kernel);
            Err(anyhow!("{error}"))
        }
    }
}

/// Runs the example.
pub(crate) fn run(rt: &(impl Print + AllocGlobal)) -> Result<()> {
    let kernel = start(rt.alloc())?;
    keep_book::<Brand>(rt, Trail::new(rt.alloc())?, kernel)
}
