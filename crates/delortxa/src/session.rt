//! A book with the right to call of each of its processes.
ghost use Rattle.std.specs.Prelude.{◌≡◌, [], true, false, IfOk, IfErr, OnOk, OnErr};
ghost use Rattle.ux_model.specs.Types.{Request, Reply};
ghost use Rattle.ux_model.specs.State.{is_live};
ghost use Rattle.ux_model.specs.History.{has_live, IsLegal};
ghost use Rattle.ux_model.specs.Boot.{IsBootState};
ghost use Rattle.ux_book.specs.declared.fault.CallFault.{CallFault};
ghost use Rattle.ux_book.specs.declared.fault.OffFault.{OffFault};
ghost use Rattle.ux_book.specs.Books.{has_own_call, state_of, ends_of};
ghost use Rattle.ux_book.specs.Sitting.{Answers, IsFault};
ghost use Rattle.ux_audit.specs.Holdings.{AreHoldings};
ghost use Rattle.delortxa.specs.Answering.{Explains};

use crate::answers::ReplyExt;
use crate::calls::Calls;
use crate::fault::CallError;
use crate::objects::AnyObject;
use std::alloc::{AllocError, Global};
use std::marker::Model;
use ux_audit::holdings;
use ux_book::{BookName, CallFault, NoMemory, OffFault, Serial, Trail};
use ux_kernel::Kernel;
use ux_types::{Entry, Fd, Pid, Reply, Request};

/// A book, by which one thread makes the calls of all its processes. Contracts see where its history began,
/// and its entries.
pub struct Session<W: BookName> {
    alloc: Global,
    serial: Serial<W, AnyObject>,
}

// Written out, so that it is proved here and not in each function that drops one.
impl<W: BookName> Drop for Session<W> {
    fn drop(self) {
        let Session { alloc: _, serial } = self;
        drop(serial)
    }
}

impl<W: BookName> Model for Session<W> {
    ghost use Rattle.ux_book.specs.Books.{KeptHistory};

    ghost Value = { KeptHistory };

    ghost view = { λ s. s.serial };
}

impl<W: BookName> Session<W> {
    /// A session at the start of this kernel.
    ///
    /// # Errors
    ///
    /// Out of memory.
    pub(crate) fn new(
        alloc: Global,
        trail: Trail,
        kernel: Kernel<AnyObject>,
    ) -> Result<Session<W>, NoMemory>
        requires trail { trail ≡ record { id = W.trail; entries = []; given = 0 } }
        requires boots { IsBootState kernel }
        requires named { kernel ≡ W.boot }
        ensures { IfOk result (λ session. session ≡ record { boot = kernel; entries = [] }) }
    {
        let serial = Serial::new(alloc, trail, kernel)?;
        Ok(Session { alloc, serial })
    }

    /// The calls so far, with their replies: a legal history.
    pub fn entries(&self) -> &[Entry]
        ensures entries { result.now ≡ self.now.entries }
        ensures boot { self.now.boot ≡ W.boot }
        ensures legal { IsLegal self.now.boot self.now.entries }
    {
        self.serial.entries()
    }

    /// The calls, with their replies, and nothing else of it.
    pub(crate) fn into_entries(self) -> Vec<Entry>
        ensures entries { result.items ≡ self.entries }
        ensures boot { self.boot ≡ W.boot }
        ensures legal { IsLegal self.boot self.entries }
    {
        let Session { alloc: _, serial } = self;
        serial.into_entries()
    }

    /// Whether a process with this number was made, and hasn't exited.
    pub fn is_live(&self, pid: Pid) -> bool
        ensures { result ≡ is_live (state_of self.now) pid.0 }
    {
        self.serial.is_live(pid)
    }

    /// The pairs of process and descriptor that stand in a table now, rising.
    ///
    /// # Errors
    ///
    /// Out of memory.
    pub fn holdings(&self, alloc: Global) -> Result<Vec<(Pid, Fd)>, AllocError>
        ensures { IfOk result (λ held. AreHoldings (state_of self.now) held.items) }
    {
        holdings(alloc, self.entries())
    }

    /// Makes a call of this process, and keeps it as one more entry. The file objects that went with the call before
    /// are dropped.
    ///
    /// # Errors
    ///
    /// No call was made then: `Stranger` exactly where there is no live process with this number, else `NoMemory`.
    pub fn call(&mut self, pid: Pid, request: &Request) -> Result<Reply, CallFault>
        requires own_call { has_own_call request.now ≡ false }
        ensures made { IfOk result (λ reply. Answers self.old self.new pid request.now reply) }
        ensures fault { IfErr result (λ f. IsFault self.old pid f) }
        ensures same { OnErr result (self.new ≡ self.old) }
    {
        self.serial.call(pid, request)
    }

    /// fork(2): the number of the new process, which is a copy of this one.
    ///
    /// # Errors
    ///
    /// `Refused` where the layer refuses it, and `Fault` where no call was made.
    #[tactic(auto, using(crate::proofs::Calling::explains, crate::specs::Replying::reply_answers))]
    pub fn fork(&mut self, pid: Pid) -> Result<Pid, CallError>
        ensures made { IfOk result (λ child. Answers self.old self.new pid Request.Fork (Reply.Child child)) }
        ensures failed { IfErr result (λ error. Explains (Answers self.old self.new pid Request.Fork) (IsFault self.old pid) self.old self.new error) }
    {
        let reply = self.serial.fork(pid)?;
        reply.child()
    }

    /// _exit(2). It takes no memory.
    ///
    /// # Errors
    ///
    /// `Stranger` exactly where there is no live process with this number.
    pub fn exit(&mut self, pid: Pid) -> Result<(), CallFault>
        ensures made { OnOk result (Answers self.old self.new pid Request.Exit Reply.Ok) }
        ensures stranger { IfErr result (λ fault. (fault ≡ CallFault.Stranger) × (is_live (state_of self.old) pid.0 ≡ false)) }
        ensures same { OnErr result (self.new ≡ self.old) }
    {
        self.serial.exit(pid)
    }

    /// Ends the layer once every process has exited, which closes all that is still open. It takes no memory.
    ///
    /// # Errors
    ///
    /// `Alive` exactly where a process hasn't exited, else `Given` exactly where this was done before.
    pub fn off(&mut self) -> Result<(), OffFault>
        ensures made { OnOk result (Answers self.old self.new (record { 0 = 0 }) Request.Off Reply.Ok) }
        ensures gone { OnOk result (has_live (state_of self.old) ≡ false) }
        ensures first { OnOk result (ends_of self.old.entries ≡ 0) }
        ensures alive { IfErr result (λ f. f ≡ OffFault.Alive → has_live (state_of self.old) ≡ true) }
        ensures given { IfErr result (λ f. f ≡ OffFault.Given → (has_live (state_of self.old) ≡ false) × (ends_of self.old.entries ≡ 1)) }
        ensures same { OnErr result (self.new ≡ self.old) }
    {
        self.serial.off()
    }
}

impl<W: BookName> Calls<Pid> for Session<W> {
    ghost use Rattle.ux_book.specs.Sitting.{Answers, IsFault};
    ghost use Rattle.delortxa.specs.Replying.{reply_answers};

    ghost did = { λ pid old new request reply. Answers old new pid request reply };

    ghost unmade = { λ pid old _ fault. IsFault old pid fault };

    fn allocator(&self) -> Global {
        self.alloc
    }

    fn ask(&mut self, pid: Pid, request: &Request) -> Result<Reply, CallFault> {
        self.serial.call(pid, request)
    }

    ghost replies = { λ pid old new request reply made. reply_answers old new pid request reply made };
}
