//! A kernel alone, and a book that keeps what was called.
ghost use Rattle.std.specs.Prelude.{◌≡◌, [], IfOk};
ghost use Rattle.ux_model.specs.Boot.{IsBootState};

use crate::rows::{FILE, Giving, PAIR_AND_CLOSES, PIPE, Requests, Row, made_anew};
use anyhow::{Result, anyhow};
use std::alloc::Global;
use ux_book::{Book, BookName, Share, Trail, has_own_call};
use ux_kernel::Kernel;
use ux_object::ObjKind;
use ux_objects::Plain;
use ux_state::ReleasedObjects;
use ux_types::{Name, Pid, ProcSpec, Reply, Request, SockType};

/// A user's process with the greatest table.
const PROCESS: ProcSpec = ProcSpec {
    uid: 1000,
    gid: 1000,
    privileged: false,
    limit: 1024,
};

/// How many processes a layer has that isn't shared. The first makes the calls that are measured, four hold
/// descriptors of the file, and five hold sockets with names.
pub(crate) const PROCESSES: usize = 10;

/// What is in the file at first.
const CONTENTS: [u8; 64] = [120; 64];

/// The process whose calls are measured.
pub(crate) const CALLER: Pid = Pid(1);

/// Where calls are made.
pub(crate) trait Layer {
    /// Makes a call, if the process lives, and answers whether it was granted. A book is asked for no fork, no exit and
    /// no end of the layer, for which it has functions of their own.
    fn ask(&mut self, pid: Pid, request: &Request) -> bool;
}

/// A kernel alone.
pub(crate) struct Stepped {
    kernel: Kernel<Plain>,
    released: ReleasedObjects<Plain>,
    tag: u64,
}

/// Written out, a drop is a call, and not each of its parts in the proof of each function that drops a layer.
impl Drop for Stepped {
    fn drop(self) {
        let Stepped {
            kernel,
            released,
            tag: _,
        } = self;
        drop(kernel);
        drop(released);
    }
}

/// A book, and the shares of its processes by rising number. It is given each request.
pub(crate) struct Recorded<W: BookName> {
    alloc: Global,
    giving: Giving,
    book: Book<W, Plain>,
    shares: Vec<Share<W>>,
    released: ReleasedObjects<Plain>,
}

/// As of a kernel alone.
impl<W: BookName> Drop for Recorded<W> {
    fn drop(self) {
        let Recorded {
            alloc: _,
            giving: _,
            book,
            shares,
            released,
        } = self;
        drop(book);
        drop(shares);
        drop(released);
    }
}

/// The file and the pipe that a kernel starts with.
fn objects(alloc: Global) -> Result<Vec<(Name, Plain)>> {
    let file = Plain::new(alloc, ObjKind::Memory, &CONTENTS)?;
    let pipe = Plain::new(alloc, ObjKind::Pipe, &[])?;
    let mut objects = vec![in alloc; (Name::from_slice(alloc, FILE)?, file)]?;
    objects.push((Name::from_slice(alloc, PIPE)?, pipe))?;
    Ok(objects)
}

/// A kernel with a file, a pipe and so many processes.
pub(crate) fn boot(alloc: Global, processes: usize) -> Result<Kernel<Plain>>
    ensures { IfOk result (λ kernel. IsBootState kernel) }
{
    let processes = vec![in alloc; PROCESS; processes]?;
    match Kernel::boot(alloc, objects(alloc)?, &processes) {
        Ok(kernel) => Ok(kernel),
        Err((fault, _objects)) => Err(anyhow!("{fault}")),
    }
}

impl Stepped {
    /// A kernel with a file and a pipe.
    pub(crate) fn new(alloc: Global) -> Result<Stepped> {
        let released = ReleasedObjects::new(alloc);
        Ok(Stepped {
            kernel: boot(alloc, PROCESSES)?,
            released,
            tag: 0,
        })
    }
}

impl<W: BookName> Recorded<W> {
    /// A book of this kernel.
    pub(crate) fn new(
        alloc: Global,
        giving: Giving,
        trail: Trail,
        kernel: Kernel<Plain>,
    ) -> Result<Recorded<W>>
        requires trail { trail ≡ record { id = W.trail; entries = []; given = 0 } }
        requires boots { IsBootState kernel }
        requires named { kernel ≡ W.boot }
    {
        let released = ReleasedObjects::new(alloc);
        match Book::new(alloc, trail, kernel) {
            Ok((book, shares)) => Ok(Recorded {
                alloc,
                giving,
                book,
                shares,
                released,
            }),
            Err((kernel, error)) => {
                drop(kernel);
                Err(anyhow!("{error}"))
            }
        }
    }
}

/// Whether a reply reports no refusal.
pub(crate) fn is_granted(reply: &Reply) -> bool {
    !matches!(reply, Reply::Err(_))
}

/// Makes a call by a share, and answers whether it was granted.
fn is_recorded<W: BookName>(
    book: &mut Book<W, Plain>,
    share: &mut Share<W>,
    request: &Request,
    released: &mut ReleasedObjects<Plain>,
) -> bool
    requires { released.old ≡ [] }
{
    if has_own_call(request) {
        return false;
    }
    match book.record(share, request, released) {
        Ok((reply, _receipt)) => is_granted(&reply),
        Err(_) => false,
    }
}

impl Layer for Stepped {
    fn ask(&mut self, pid: Pid, request: &Request) -> bool {
        if matches!(request, Request::Off) || !self.kernel.is_live(pid) {
            return false;
        }
        let tag = self.tag;
        self.tag = tag.wrapping_add(1);
        self.released.clear();
        let (done, _numbers) = self.kernel.step(pid, tag, request, &mut self.released);
        is_granted(&done.reply)
    }
}

impl<W: BookName> Layer for Recorded<W> {
    fn ask(&mut self, pid: Pid, request: &Request) -> bool {
        if pid.0 == 0 {
            return false;
        }
        let Some(share) = self.shares.get_mut(pid.0 as usize - 1) else {
            return false;
        };
        self.released.clear();
        match self.giving {
            Giving::Again => is_recorded(&mut self.book, share, request, &mut self.released),
            Giving::Anew => match made_anew(self.alloc, request) {
                Ok(request) => is_recorded(&mut self.book, share, &request, &mut self.released),
                Err(_) => false,
            },
        }
    }
}

/// Makes these calls, each of which must be granted.
pub(crate) fn make_all<L: Layer>(layer: &mut L, pid: Pid, requests: &[Request]) -> Result<()> {
    for request in requests {
        if !layer.ask(pid, request) {
            return Err(anyhow!("a call was refused"));
        }
    }
    Ok(())
}

/// Makes the calls of these rows, each of which must be granted.
pub(crate) fn make_rows<L: Layer>(
    alloc: Global,
    layer: &mut L,
    pid: Pid,
    rows: &[Row],
) -> Result<()> {
    let calls = Requests::of(alloc, rows)?;
    make_all(layer, pid, calls.as_slice())
}

/// Opens the file in each process, with so many descriptors of it in all.
pub(crate) fn fill<L: Layer>(alloc: Global, layer: &mut L, open: u32) -> Result<()> {
    make_rows(alloc, layer, CALLER, &[Row::Open])?;
    for pid in 2..=5 {
        make_rows(alloc, layer, Pid(pid), &[Row::Open])?;
        copy_first(alloc, layer, Pid(pid), open / 4)?;
    }
    Ok(())
}

/// Copies the first descriptor of a process, until it has so many.
fn copy_first<L: Layer>(alloc: Global, layer: &mut L, pid: Pid, open: u32) -> Result<()> {
    for _ in 1..open {
        make_rows(alloc, layer, pid, &[Row::Dup(0)])?;
    }
    Ok(())
}

/// Makes so many descriptions of sockets, and closes them.
pub(crate) fn make_before<L: Layer>(alloc: Global, layer: &mut L, made: u32) -> Result<()> {
    for _ in 0..made / 2 {
        make_rows(alloc, layer, CALLER, PAIR_AND_CLOSES)?;
    }
    Ok(())
}

/// Puts so many names in use: half of them are paths whose sockets have gone, half are abstract names of
/// sockets that listen.
pub(crate) fn hold_names<L: Layer>(alloc: Global, layer: &mut L, names: u32) -> Result<()> {
    for pid in 6..=10 {
        hold_in(alloc, layer, Pid(pid), names / 10)?;
    }
    Ok(())
}

/// Puts so many names of each kind in use by a process.
fn hold_in<L: Layer>(alloc: Global, layer: &mut L, pid: Pid, names: u32) -> Result<()> {
    for number in 0..names {
        let name = format!(in alloc; "{}.{number}", pid.0)?;
        hold(alloc, layer, pid, number, name.as_bytes())?;
    }
    Ok(())
}

/// Makes a socket at the lowest free number, which is this one, binds it to this path and closes it; then one
/// there that listens by this abstract name, and stays.
fn hold<L: Layer>(alloc: Global, layer: &mut L, pid: Pid, number: u32, name: &[u8]) -> Result<()> {
    let rows = [
        Row::Socket(SockType::Stream),
        Row::BindPath(number, name),
        Row::Close(number),
        Row::Socket(SockType::Stream),
        Row::Bind(number, name),
        Row::Listen(number, 4),
    ];
    make_rows(alloc, layer, pid, &rows)
}
