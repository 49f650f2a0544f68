//! A program that is run over a layer, with threads as its processes, which make others.
ghost use Rattle.std.specs.Prelude.{◌≡◌, [], ⊤, ◌++◌, length, map, IfOk, IfSome};
ghost use Rattle.std.specs.Thread.{IsSync};
ghost use Rattle.ux_model.specs.Boot.{IsBootState};
ghost use Rattle.ux_model.specs.State.{State};
ghost use Rattle.ux_model.specs.Types.{Pid, Request, Reply};
ghost use Rattle.ux_model.specs.History.{IsLegal};
ghost use Rattle.ux_book.specs.Pasts.{Caller, fresh, made};
ghost use Rattle.delortxa.specs.Promising.{EachPromisesCalls, Ended, EachPromises, EachChildPromises, EndedAsChild, EachEnded, present};

use crate::nursery::{Child, Nursery};
use crate::objects::AnyObject;
use crate::seat::{Layer, Seat};
use std::alloc::{AllocError, Global};
use std::marker::Brand;
use std::sync::Wait;
use std::thread;
use std::thread::Threads;
use ux_book::{BookName, NoMemory, Spent, Trail};
use ux_kernel::Kernel;
use ux_layer::start;
use ux_types::{Entry, Pid};

/// What each process of a layer does, in a thread of its own, where processes make others. `R` is the runtime, with the
/// bounds that the program needs. `W` names the layer's book: values that speak of it don't leave.
pub trait FamilyProgram<R>: Drop + Sync {
    /// What a parent gives a child to do.
    type Task: Drop + Send;
    /// What a process of the start gives.
    type Output: Drop + Send;
    /// What a child gives.
    type ChildOutput: Drop + Send;

    /// What is known of what a process of the start gives, and of the calls that it has made, over the kernel that the layer
    /// is started with: nothing, unless the program says more.
    ghost promise: { State → Pid → Self → Self.Output → Caller → Type 0 } = { λ _ _ _ _ _. ⊤ };

    /// So of a child, with its task.
    ghost promise_of_child: { State → Pid → Self → Self.Task → Self.ChildOutput → Caller → Type 0 } = { λ _ _ _ _ _ _. ⊤ };

    /// Makes the calls of a process of the start, which has made none before. It exits when this returns.
    fn run<W: BookName>(
        &self,
        rt: &R,
        layer: &Layer<W>,
        nursery: &Nursery<W, Self::Task>,
        seat: &mut Seat<W>,
    ) -> Self::Output
        requires { seat.old.past ≡ [] }
        ensures promised { promise W.boot seat.old.pid self.now result seat.new };

    /// Makes the calls of a process that another made. It exits when this returns.
    fn run_child<W: BookName>(
        &self,
        rt: &R,
        layer: &Layer<W>,
        nursery: &Nursery<W, Self::Task>,
        task: Self::Task,
        seat: &mut Seat<W>,
    ) -> Self::ChildOutput
        requires { seat.old.past ≡ [] }
        ensures promised { promise_of_child W.boot seat.old.pid self.now task result seat.new };
}

/// What the processes of a program gave, and all their calls.
#[derive(Drop)]
pub struct Family<O: Drop, C: Drop> {
    /// What each process of the start gave, by their numbers.
    pub outputs: Vec<O>,
    /// What each child gave, in the order in which the nursery took them.
    pub children: Vec<(Pid, C)>,
    /// The history.
    pub entries: Vec<Entry>,
}

/// Runs the program for each process of a layer at the start of this kernel, at the same time, and for each child that one
/// of them makes; `children` is the most that there may be. The history of all their calls is legal: of each process it has
/// the calls that its run made, and its exit. Each process exits once its run is over, also where that ends early by `?`, so
/// that no other waits for it. Where a thread can't be made, its process runs after another on that one's thread, and a
/// process that waits for one that hasn't begun waits for good.
///
/// # Errors
///
/// Out of memory: before any process has begun, or for what they give and the history, which are dropped then.
pub fn with_family<R: Threads + Wait + AllocGlobal + Sync, P: FamilyProgram<R>>(
    rt: &R,
    kernel: Kernel<AnyObject>,
    program: P,
    children: usize,
) -> Result<Family<P::Output, P::ChildOutput>, NoMemory>
    requires { IsBootState kernel }
    ensures all { IfOk result (λ r. length r.outputs.items ≡ length kernel.processes) }
    ensures promised { IfOk result (λ r. EachPromisesCalls (P.promise kernel) program r.outputs.items r.entries.items) }
    ensures children { IfOk result (λ r. EachChildPromises (P.promise_of_child kernel) program r.children.items r.entries.items) }
    ensures legal { IfOk result (λ r. IsLegal kernel r.entries.items) }
{
    keep_family::<Brand, R, P>(rt, Trail::new(rt.alloc())?, kernel, &program, children)
}

/// Runs the program over a layer at this kernel, under a name that lives in here.
fn keep_family<
    W: BookName + Send + Sync,
    R: Threads + Wait + AllocGlobal + Sync,
    P: FamilyProgram<R>,
>(
    rt: &R,
    trail: Trail,
    kernel: Kernel<AnyObject>,
    program: &P,
    children: usize,
) -> Result<Family<P::Output, P::ChildOutput>, NoMemory>
    requires trail { trail ≡ record { id = W.trail; entries = []; given = 0 } }
    requires boots { IsBootState kernel }
    requires named { kernel ≡ W.boot }
    ensures all { IfOk result (λ r. length r.outputs.items ≡ length kernel.processes) }
    ensures promised { IfOk result (λ r. EachPromisesCalls (P.promise kernel) program.now r.outputs.items r.entries.items) }
    ensures children { IfOk result (λ r. EachChildPromises (P.promise_of_child kernel) program.now r.children.items r.entries.items) }
    ensures legal { IfOk result (λ r. IsLegal kernel r.entries.items) }
{
    let alloc = rt.alloc();
    let Ok((layer, places)) = start::<W, AnyObject, R>(rt, alloc, trail, kernel) else {
        return Err(NoMemory);
    };
    let seats = seats_at(alloc, places)?;
    let nursery = Nursery::new(alloc, children)?;
    let (ended, ended_children) = run_both(rt, alloc, &layer, program, &nursery, seats, children);
    let (outputs, mut spents) = split(alloc, ended?)?;
    let (children, mut spent_children) = split(alloc, those_present(alloc, ended_children?)?)?;
    spents.append(&mut spent_children)?;
    let entries = layer.history(rt, alloc, &mut spents)?;
    Ok(Family {
        outputs,
        children,
        entries,
    })
}

/// What became of the processes of the start, and of those that each thread of the nursery ran.
type Ends<W, O, C> = (
    Result<Vec<(O, Spent<W>)>, AllocError>,
    Result<Vec<Option<((Pid, C), Spent<W>)>>, AllocError>,
);

/// Runs the processes of the start and, beside them, those that they make.
fn run_both<W: BookName + Send + Sync, R: Threads + Wait + Sync, P: FamilyProgram<R>>(
    rt: &R,
    alloc: Global,
    layer: &Layer<W>,
    program: &P,
    nursery: &Nursery<W, P::Task>,
    seats: Vec<Seat<W>>,
    children: usize,
) -> Ends<W, P::Output, P::ChildOutput>
    requires fresh { seats.items ≡ fresh (length seats.items) }
    ensures all { IfOk result.0 (λ ended. length ended.items ≡ length seats.items) }
    ensures each { IfOk result.0 (λ ended. EachPromises (Ended (P.promise W.boot)) program.now ended.items) }
    ensures children { IfOk result.1 (λ ended. EachEnded (EndedAsChild (P.promise_of_child W.boot) program.now) (present ended.items)) }
{
    thread::join(
        rt,
        move || -> Result<Vec<(P::Output, Spent<W>)>, AllocError>
            requires sync { IsSync R.row }
            requires fresh { seats.items ≡ fresh (length seats.items) }
            ensures all { IfOk result (λ ended. length ended.items ≡ length seats.items) }
            ensures each { IfOk result (λ ended. EachPromises (Ended (P.promise W.boot)) program.entry.now ended.items) }
        { run_firsts(rt, layer, program, nursery, seats) },
        move || -> Result<Vec<Option<((Pid, P::ChildOutput), Spent<W>)>>, AllocError>
            requires { IsSync R.row }
            ensures { IfOk result (λ ended. EachEnded (EndedAsChild (P.promise_of_child W.boot) program.entry.now) (present ended.items)) }
        { run_children(rt, alloc, layer, program, nursery, children) },
    )
}

/// Runs the processes of the start, after which none of them makes a child: what each gives, with its spent seat.
fn run_firsts<W: BookName + Send + Sync, R: Threads + Wait + Sync, P: FamilyProgram<R>>(
    rt: &R,
    layer: &Layer<W>,
    program: &P,
    nursery: &Nursery<W, P::Task>,
    seats: Vec<Seat<W>>,
) -> Result<Vec<(P::Output, Spent<W>)>, AllocError>
    requires fresh { seats.items ≡ fresh (length seats.items) }
    ensures all { IfOk result (λ ended. length ended.items ≡ length seats.items) }
    ensures each { IfOk result (λ ended. EachPromises (Ended (P.promise W.boot)) program.now ended.items) }
{
    let ended = run_all(rt, layer, program, nursery, seats);
    nursery.leave(rt);
    ended
}

/// Runs the program by each seat, in a thread of its own.
fn run_all<W: BookName + Send + Sync, R: Threads + Wait + Sync, P: FamilyProgram<R>>(
    rt: &R,
    layer: &Layer<W>,
    program: &P,
    nursery: &Nursery<W, P::Task>,
    seats: Vec<Seat<W>>,
) -> Result<Vec<(P::Output, Spent<W>)>, AllocError>
    requires fresh { seats.items ≡ fresh (length seats.items) }
    ensures all { IfOk result (λ ended. length ended.items ≡ length seats.items) }
    ensures each { IfOk result (λ ended. EachPromises (Ended (P.promise W.boot)) program.now ended.items) }
{
    thread::map_vec(
        rt,
        seats,
        &|seat: Seat<W>|
            requires { seat.past ≡ [] }
            ensures { Ended (P.promise W.boot) seat.pid program.entry.now result }
        { run_first(rt, layer, program, nursery, seat) },
    )
}

/// Runs the program by this seat, and has its process exit.
fn run_first<W: BookName, R: Wait, P: FamilyProgram<R>>(
    rt: &R,
    layer: &Layer<W>,
    program: &P,
    nursery: &Nursery<W, P::Task>,
    seat: Seat<W>,
) -> (P::Output, Spent<W>)
    requires { seat.past ≡ [] }
    ensures { Ended (P.promise W.boot) seat.pid program.now result }
{
    let mut seat = seat;
    let output = program.run(rt, layer, nursery, &mut seat);
    let spent = seat.exit(rt);
    (output, spent)
}

/// Runs the child that comes to each place of the nursery, in a thread of its own.
fn run_children<W: BookName + Send + Sync, R: Threads + Wait + Sync, P: FamilyProgram<R>>(
    rt: &R,
    alloc: Global,
    layer: &Layer<W>,
    program: &P,
    nursery: &Nursery<W, P::Task>,
    children: usize,
) -> Result<Vec<Option<((Pid, P::ChildOutput), Spent<W>)>>, AllocError>
    ensures { IfOk result (λ ended. EachEnded (EndedAsChild (P.promise_of_child W.boot) program.now) (present ended.items)) }
{
    let ended = run_places(rt, alloc, layer, program, nursery, children);
    if ended.is_err() {
        nursery.close(rt, alloc);
    }
    ended
}

fn run_places<W: BookName + Send + Sync, R: Threads + Wait + Sync, P: FamilyProgram<R>>(
    rt: &R,
    alloc: Global,
    layer: &Layer<W>,
    program: &P,
    nursery: &Nursery<W, P::Task>,
    children: usize,
) -> Result<Vec<Option<((Pid, P::ChildOutput), Spent<W>)>>, AllocError>
    ensures { IfOk result (λ ended. EachEnded (EndedAsChild (P.promise_of_child W.boot) program.now) (present ended.items)) }
{
    thread::map_indices(
        rt,
        alloc,
        children,
        &|place: usize|
            ensures { IfSome result (EndedAsChild (P.promise_of_child W.boot) program.entry.now) }
        { run_child(rt, layer, program, nursery, place) },
    )
}

/// Runs the program by the child that comes to this place, and has it exit.
fn run_child<W: BookName, R: Wait, P: FamilyProgram<R>>(
    rt: &R,
    layer: &Layer<W>,
    program: &P,
    nursery: &Nursery<W, P::Task>,
    place: usize,
) -> Option<((Pid, P::ChildOutput), Spent<W>)>
    ensures { IfSome result (EndedAsChild (P.promise_of_child W.boot) program.now) }
{
    let Child { seat, task } = nursery.wait_at(rt, place)?;
    let mut seat = seat;
    let pid = seat.pid();
    let output = program.run_child(rt, layer, nursery, task, &mut seat);
    let spent = seat.exit(rt);
    nursery.leave(rt);
    Some(((pid, output), spent))
}

/// Those that are there.
#[tactic(auto, using(crate::proofs::Layers::present_one_more, crate::proofs::Layers::present_no_more))]
fn those_present<T: Drop>(alloc: Global, options: Vec<Option<T>>) -> Result<Vec<T>, AllocError>
    ensures { IfOk result (λ those. those.items ≡ present options.items) }
{
    let mut those = Vec::with_capacity(alloc, options.len())?;
    for option in options {
        match option {
            Some(that) => those.push(that)?,
            None => {}
        }
    }
    Ok(those)
}

/// What processes gave, and their spent seats.
fn split<W: BookName, T: Drop>(
    alloc: Global,
    ended: Vec<(T, Spent<W>)>,
) -> Result<(Vec<T>, Vec<Spent<W>>), AllocError>
    ensures outputs { IfOk result (λ r. r.0.items ≡ map (λ gone. gone.0) ended.items) }
    ensures spents { IfOk result (λ r. r.1.items ≡ map (λ gone. gone.1) ended.items) }
{
    let mut outputs = Vec::with_capacity(alloc, ended.len())?;
    let mut spents = Vec::with_capacity(alloc, ended.len())?;
    for (output, spent) in ended {
        outputs.push(output)?;
        spents.push(spent)?;
    }
    Ok((outputs, spents))
}

/// A seat at each of these places.
fn seats_at<W: BookName>(
    alloc: Global,
    places: Vec<ux_layer::Seat<W, AnyObject>>,
) -> Result<Vec<Seat<W>>, AllocError>
    ensures { IfOk result (λ seats. seats.items ≡ places.items) }
{
    let mut seats = Vec::with_capacity(alloc, places.len())?;
    for place in places {
        seats.push(Seat::new(alloc, place))?;
    }
    Ok(seats)
}
