//! Questions about a kept history.
ghost use Rattle.std.specs.Prelude.{◌≡◌, ◌↔◌, is_some, IsTrue, IfSome, IfOk};
ghost use Rattle.ux_model.specs.State.{State};
ghost use Rattle.ux_model.specs.History.{replay, IsLegal};
ghost use Rattle.ux_model.specs.Giving.{is_held};
ghost use Rattle.ux_model.specs.Pedigree.{IsPedigree};
ghost use Rattle.ux_audit.specs.Shown.{IsHistory};
ghost use Rattle.ux_audit.specs.Holdings.{AreHoldings};

use crate::chain::{Chain, is_found};
use crate::held::{is_open, list_all};
use crate::index::Index;
use crate::walk::walk;
use std::alloc::{AllocError, Global};
use std::marker::Model;
use ux_types::{Entry, Fd, Pid};

/// A history, and what was found in its entries once for all questions. Contracts see the entries. Of those of a
/// legal history the answers say what was; of others they say nothing.
#[derive(Drop)]
pub struct Audit<'a> {
    entries: &'a [Entry],
    index: Index,
}

impl<'a> Model for Audit<'a> {
    ghost use Rattle.std.specs.Prelude.{List};
    ghost use Rattle.ux_model.specs.Types.{Entry};
    ghost use Rattle.ux_audit.specs.Indexes.{IsIndex};

    ghost Value = { List Entry };

    ghost view = { λ a. a.entries.now };

    ghost invariant = { λ a. IsIndex a.entries.now a.index };
}

impl<'a> Audit<'a> {
    /// Goes over the entries of a history.
    ///
    /// # Errors
    ///
    /// Out of memory.
    pub fn new(alloc: Global, entries: &'a [Entry]) -> Result<Audit<'a>, AllocError>
        ensures { IfOk result (λ audit. audit ≡ entries.now) }
    {
        let index = Index::of(alloc, entries)?;
        Ok(Audit { entries, index })
    }

    /// The pairs of process and descriptor that stand in a table at the end of the legal history, rising.
    ///
    /// # Errors
    ///
    /// Out of memory.
    pub fn holdings(&self, alloc: Global) -> Result<Vec<(Pid, Fd)>, AllocError>
        ensures { IfOk result (λ held. (boot : State) → IsLegal boot self.now → AreHoldings (replay boot self.now) held.items) }
    {
        list_all(alloc, self.index.tables.as_slice())
    }

    /// The chain of holdings through which the process came to the descriptor, the maker's first; none where
    /// it isn't open at the end of the legal history.
    ///
    /// # Errors
    ///
    /// Out of memory.
    pub fn pedigree(&self, alloc: Global, pid: Pid, fd: Fd) -> Result<Option<Chain>, AllocError>
        ensures chain { IfOk result (λ found. (boot : State) → IsLegal boot self.now →
            IfSome found (λ chain. IsPedigree boot self.now chain.links.items pid.0 fd.0)) }
        ensures held { IfOk result (λ found. (boot : State) → IsLegal boot self.now →
            is_some found ≡ is_held (replay boot self.now) pid.0 fd.0) }
    {
        if !is_open(self.index.tables.as_slice(), pid, fd) {
            return Ok(None);
        }
        let mut links = walk(alloc, self.entries, &self.index, pid, fd)?;
        links.reverse();
        Ok(Some(Chain { links }))
    }

    /// Whether the chain is the pedigree of the descriptor, whoever made it.
    ///
    /// # Errors
    ///
    /// Out of memory.
    pub fn check_pedigree(
        &self,
        alloc: Global,
        chain: &Chain,
        pid: Pid,
        fd: Fd,
    ) -> Result<bool, AllocError>
        ensures { IfOk result (λ yes. (boot : State) → IsLegal boot self.now →
            IsTrue yes ↔ IsPedigree boot self.now chain.now.links.items pid.0 fd.0) }
    {
        let found = self.pedigree(alloc, pid, fd)?;
        Ok(is_found(&found, chain))
    }
}

/// The pairs of process and descriptor that stand in a table at the end of the legal history, rising. Who asks
/// more of one history makes an `Audit` of it.
///
/// # Errors
///
/// Out of memory.
pub fn holdings(alloc: Global, entries: &[Entry]) -> Result<Vec<(Pid, Fd)>, AllocError>
    requires legal { IsHistory entries.now }
    ensures { IfOk result (λ held. (boot : State) → IsLegal boot entries.now → AreHoldings (replay boot entries.now) held.items) }
{
    Audit::new(alloc, entries)?.holdings(alloc)
}
