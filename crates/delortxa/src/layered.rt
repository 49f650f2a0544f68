//! A program that is run over a layer, with threads as its processes.
ghost use Rattle.std.specs.Prelude.{◌≡◌, [], ⊤, length, IfOk};
ghost use Rattle.ux_model.specs.Boot.{IsBootState};
ghost use Rattle.ux_model.specs.State.{State};
ghost use Rattle.ux_model.specs.Types.{Pid};
ghost use Rattle.ux_model.specs.History.{IsLegal};
ghost use Rattle.ux_book.specs.Pasts.{Caller};
ghost use Rattle.delortxa.specs.Promising.{EachPromises, EachPromisesCalls};

use crate::family::{Family, FamilyProgram, with_family};
use crate::nursery::Nursery;
use crate::objects::AnyObject;
use crate::seat::{Layer, Seat};
use std::sync::Wait;
use std::thread::Threads;
use ux_book::{BookName, NoMemory};
use ux_kernel::Kernel;
use ux_types::Entry;

/// What each process of a layer does, in a thread of its own. `R` is the runtime, with the bounds that the program needs.
/// `W` names the layer's book: values that speak of it don't leave.
pub trait LayerProgram<R>: Drop + Sync {
    /// What a process gives.
    type Output: Drop + Send;

    /// What is known of what this process gives, over the kernel that the layer is started with: nothing, unless the
    /// program says more.
    ghost promise: { State → Pid → Self → Self.Output → Type 0 } = { λ _ _ _ _. ⊤ };

    /// What is known of it and of the calls that the process has made: nothing, unless the program says more.
    ghost promise_of_calls: { State → Pid → Self → Self.Output → Caller → Type 0 } = { λ _ _ _ _ _. ⊤ };

    /// Makes the calls of one process, which has made none before. It exits when this returns.
    fn run<W: BookName>(&self, rt: &R, layer: &Layer<W>, seat: &mut Seat<W>) -> Self::Output
        requires { seat.old.past ≡ [] }
        ensures promised { promise W.boot seat.old.pid self.now result }
        ensures calls { promise_of_calls W.boot seat.old.pid self.now result seat.new };
}

/// Runs the program for each process of a layer at the start of this kernel, at the same time: what each gives, by their
/// numbers, and the history of all their calls, which is legal: of each process it has the calls that its run made, and
/// its exit. Each process exits once its run is over, also where that ends early by `?`, so that no other waits for it.
/// Where a thread can't be made, its process runs after another on that one's thread, and a process that waits for one
/// that hasn't begun waits for good.
///
/// # Errors
///
/// Out of memory: before any process has begun, or for what they give and the history, which are dropped then.
pub fn with_layer<R: Threads + Wait + AllocGlobal + Sync, P: LayerProgram<R>>(
    rt: &R,
    kernel: Kernel<AnyObject>,
    program: P,
) -> Result<(Vec<P::Output>, Vec<Entry>), NoMemory>
    requires { IsBootState kernel }
    ensures all { IfOk result (λ r. length r.0.items ≡ length kernel.processes) }
    ensures promised { IfOk result (λ r. EachPromises (P.promise kernel) program r.0.items) }
    ensures calls { IfOk result (λ r. EachPromisesCalls (P.promise_of_calls kernel) program r.0.items r.1.items) }
    ensures legal { IfOk result (λ r. IsLegal kernel r.1.items) }
{
    let Family {
        outputs,
        children,
        entries,
    } = with_family(rt, kernel, Childless { program }, 0)?;
    drop(children);
    Ok((outputs, entries))
}

/// A program whose processes make no others that it would run.
#[derive(Drop)]
struct Childless<P> {
    program: P,
}

impl<R, P: LayerProgram<R>> FamilyProgram<R> for Childless<P> {
    type Task = ();

    type Output = P::Output;

    type ChildOutput = ();

    ghost promise = { λ boot pid childless output caller. P.promise boot pid childless.program output × P.promise_of_calls boot pid childless.program output caller };

    fn run<W: BookName>(
        &self,
        rt: &R,
        layer: &Layer<W>,
        _nursery: &Nursery<W, ()>,
        seat: &mut Seat<W>,
    ) -> P::Output {
        self.program.run(rt, layer, seat)
    }

    fn run_child<W: BookName>(
        &self,
        _rt: &R,
        _layer: &Layer<W>,
        _nursery: &Nursery<W, ()>,
        _task: (),
        _seat: &mut Seat<W>,
    ) {}
}
