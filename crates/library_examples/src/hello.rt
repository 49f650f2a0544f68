//! One process writes a file, and reads it back. It promises that what it reads is what it wrote.
ghost use Rattle.std.specs.Prelude.{◌≡◌, IfOk, codes};
ghost use Rattle.library_examples.specs.Greeting.{hello_boot};

use anyhow::Result;
use bstr::BStr;
use delortxa::{
    BookName, BookProgram, Boot, Bytes, CallError, Calls, Mode, Pid, Session, Whence, with_book,
};
use std::alloc::Global;

#[derive(Drop)]
struct Hello;

impl BookProgram for Hello {
    type Output = Result<Bytes, CallError>;

    ghost use Rattle.std.specs.Prelude.{◌≡◌, IfOk, codes};
    ghost use Rattle.library_examples.specs.Greeting.{hello_boot};

    ghost promise = { λ boot _ output. boot ≡ hello_boot → IfOk output (λ bytes. bytes ≡ codes "hello") };

    fn run<W: BookName>(self, session: &mut Session<W>) -> Self::Output {
        let writer = Pid(1);
        let notes = session.open(writer, b"notes", Mode::Both)?;
        session.write(writer, notes, b"hello")?;
        session.lseek(writer, notes, 0, Whence::Set)?;
        session.read(writer, notes, 64)
    }
}

/// What the process reads, by a contract that is proved from those of the library.
fn read_back(alloc: Global) -> Result<Bytes>
    ensures { IfOk result (λ bytes. bytes ≡ codes "hello") }
{
    let boot = Boot::new(alloc).file(b"notes", b"")?;
    let kernel = boot.process(1000, 1000, 16)?.start()?;
    let (bytes, _history) = with_book(alloc, kernel, Hello)?;
    Ok(bytes?)
}

pub(crate) fn run(rt: &(impl Print + AllocGlobal)) -> Result<()> {
    println!(rt; "{}", BStr::new(read_back(rt.alloc())?.as_slice()))?;
    Ok(())
}
