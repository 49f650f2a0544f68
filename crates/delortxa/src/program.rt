//! A program that is run over a book of its own.
ghost use Rattle.std.specs.Prelude.{◌≡◌, List, [], ⊤, IfOk};
ghost use Rattle.ux_model.specs.Boot.{IsBootState};
ghost use Rattle.ux_model.specs.History.{IsLegal};
ghost use Rattle.ux_model.specs.State.{State};
ghost use Rattle.ux_model.specs.Types.{Entry};

use crate::objects::AnyObject;
use crate::session::Session;
use std::alloc::Global;
use std::marker::Brand;
use ux_book::{BookName, NoMemory, Trail};
use ux_kernel::Kernel;
use ux_types::Entry;

/// What is done with a session. `W` names its book: values that speak of it don't leave.
pub trait BookProgram: Drop {
    /// What the program gives.
    type Output: Drop;

    /// What is known of it, over the kernel that it is started with: nothing, unless the program says more.
    ghost promise: { State → Self → Self.Output → Type 0 } = { λ _ _ _. ⊤ };

    /// What is known of it and of the calls that were made, with their replies: nothing, unless the program says more.
    ghost promise_of_calls: { State → Self → Self.Output → List Entry → Type 0 } = { λ _ _ _ _. ⊤ };

    /// Makes the program's calls. Nothing was called before.
    fn run<W: BookName>(self, session: &mut Session<W>) -> Self::Output
        requires { session.old ≡ record { boot = W.boot; entries = [] } }
        ensures promised { promise W.boot self result }
        ensures calls { promise_of_calls W.boot self result session.new.entries };
}

/// Runs the program over a book that begins with this kernel: what it gives, and the history of its calls, which is
/// legal.
///
/// # Errors
///
/// Out of memory, before the program is run.
pub fn with_book<P: BookProgram>(
    alloc: Global,
    kernel: Kernel<AnyObject>,
    program: P,
) -> Result<(P::Output, Vec<Entry>), NoMemory>
    requires { IsBootState kernel }
    ensures promised { IfOk result (λ r. P.promise kernel program r.0) }
    ensures calls { IfOk result (λ r. P.promise_of_calls kernel program r.0 r.1.items) }
    ensures legal { IfOk result (λ r. IsLegal kernel r.1.items) }
{
    keep_book::<Brand, P>(alloc, Trail::new(alloc)?, kernel, program)
}

/// Runs the program over a book at this kernel, under a name that lives in here.
#[tactic(auto, using(crate::proofs::Sittings::legal_at, crate::proofs::Sittings::promised_at))]
fn keep_book<W: BookName, P: BookProgram>(
    alloc: Global,
    trail: Trail,
    kernel: Kernel<AnyObject>,
    program: P,
) -> Result<(P::Output, Vec<Entry>), NoMemory>
    requires trail { trail ≡ record { id = W.trail; entries = []; given = 0 } }
    requires boots { IsBootState kernel }
    requires named { kernel ≡ W.boot }
    ensures promised { IfOk result (λ r. P.promise kernel program r.0) }
    ensures calls { IfOk result (λ r. P.promise_of_calls kernel program r.0 r.1.items) }
    ensures legal { IfOk result (λ r. IsLegal kernel r.1.items) }
{
    let mut session = Session::<W>::new(alloc, trail, kernel)?;
    let output = program.run(&mut session);
    Ok((output, session.into_entries()))
}
