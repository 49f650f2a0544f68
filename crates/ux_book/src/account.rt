//! What the spent shares of all processes say of the history.
ghost use Rattle.std.specs.Prelude.{◌≡◌, ◌≤◌, ℕ, true, length, Some, IfOk, OnOk, OnErr, if◌then◌else◌};
ghost use Rattle.ux_model.specs.Limits.{made_limit};
ghost use Rattle.ux_book.specs.Books.{processes, ends_of};
ghost use Rattle.ux_book.specs.Pasts.{calls_by};
ghost use Rattle.ux_book.specs.Settling.{Exact, AllStand, IsSettled, IsSettledWith, IsWhole, once_each, callers_of};

use crate::book::Book;
use crate::book_name::BookName;
use crate::fault::Missing;
use crate::keeper::Keeper;
use crate::receipts::Receipt;
use crate::shares::Spent;
use crate::trail::Trail;
use ux_object::FileObject;
use ux_types::Pid;

/// What a book comes to whose processes have all exited.
#[derive(Clone, Copy, Debug, PartialEq, Eq)]
pub struct Account {
    /// How many entries it has.
    pub entries: usize,
    /// Whether the layer was ended.
    pub ended: bool,
}

impl<W: BookName, O: FileObject, K: Keeper> Book<W, O, K> {
    /// Sees that each process has one of these spent shares: the history then has of each process exactly the calls
    /// that its share knows, and no others but the layer's end. Nothing is looked up.
    ///
    /// # Errors
    ///
    /// Exactly where a process of the start, or a child that a fork of one of these reports, has no spent share among
    /// them, or several.
    pub fn settle(&mut self, spents: &mut [Spent<W>]) -> Result<Account, Missing>
        ensures settled { IfOk result (λ a. IsSettled W.boot spents.old a.entries a.ended) }
        ensures whole { OnOk result (IsWhole W.boot spents.old) }
        ensures missing { OnErr result (¬ (IsWhole W.boot spents.old)) }
        ensures exact { Exact self.old.entries spents.old }
        ensures once { OnOk result (once_each (processes self.old) spents.old ≡ true) }
        ensures count { IfOk result (λ a. a.entries ≡ length self.old.entries) }
        ensures ended { IfOk result (λ a. (if a.ended then 1 else 0) ≡ ends_of self.old.entries) }
        ensures spents { spents.new ≡ spents.old }
        ensures book { self.new ≡ self.old }
    {
        let entries = self.entry_count();
        let ended = self.has_ended();
        let count = self.process_count();
        confirm_all(&mut self.trail, spents);
        if !is_each_once(spents, count) {
            return Err(Missing);
        }
        Ok(Account { entries, ended })
    }

    /// Compares these spent shares with the book: each knows exactly the calls of its process. Nothing is looked up.
    pub fn confirm_all(&mut self, spents: &mut [Spent<W>])
        ensures exact { Exact self.old.entries spents.old }
        ensures spents { spents.new ≡ spents.old }
        ensures book { self.new ≡ self.old }
    {
        confirm_all(&mut self.trail, spents)
    }

    /// As `settle`, of spent shares of which none is missing: it can't fail.
    pub fn settle_whole(&mut self, spents: &mut [Spent<W>]) -> Account
        requires { IsWhole W.boot spents.old }
        ensures settled { IsSettled W.boot spents.old result.entries result.ended }
        ensures spents { spents.new ≡ spents.old }
        ensures book { self.new ≡ self.old }
    {
        match self.settle(spents) {
            Ok(account) => account,
            Err(Missing) => unreachable!(),
        }
    }

    /// As `settle`; the same history has the entry of each of these receipts at its number, too.
    ///
    /// # Errors
    ///
    /// Those of `settle`.
    pub fn settle_with(
        &mut self,
        spents: &mut [Spent<W>],
        receipts: &mut [Receipt<W>],
    ) -> Result<Account, Missing>
        ensures settled { IfOk result (λ a. IsSettledWith W.boot spents.old receipts.old a.entries a.ended) }
        ensures whole { OnOk result (IsWhole W.boot spents.old) }
        ensures missing { OnErr result (¬ (IsWhole W.boot spents.old)) }
        ensures spents { spents.new ≡ spents.old }
        ensures receipts { receipts.new ≡ receipts.old }
        ensures book { self.new ≡ self.old }
    {
        self.stand_all(receipts);
        let _count = self.entry_count();
        self.settle(spents)
    }

    /// Compares each receipt with the book: its entry stands at its number.
    fn stand_all(&mut self, receipts: &mut [Receipt<W>])
        ensures stand { AllStand self.old.entries receipts.old }
        ensures receipts { receipts.new ≡ receipts.old }
        ensures book { self.new ≡ self.old }
    {
        for receipt in receipts.iter_mut() {
            self.confirm(receipt);
        }
    }
}

/// Compares each with the trail: it knows its process's calls.
fn confirm_all<W: BookName>(trail: &mut Trail, spents: &mut [Spent<W>])
    requires { trail.old.id ≡ W.trail }
    ensures exact { Exact trail.old.entries spents.old }
    ensures spents { spents.new ≡ spents.old }
    ensures trail { trail.new ≡ trail.old }
{
    for spent in spents.iter_mut() {
        confirm(trail, spent);
    }
}

/// Compares one with the trail: it knows its process's calls.
fn confirm<W: BookName>(trail: &mut Trail, spent: &mut Spent<W>)
    requires { trail.old.id ≡ W.trail }
    ensures exact { calls_by spent.old.pid.0 trail.old.entries ≡ spent.old.past }
    ensures spent { spent.new ≡ spent.old }
    ensures trail { trail.new ≡ trail.old }
{
    trail.check(&mut spent.token);
}

/// Whether each of the processes 1 to `count` is among them once.
fn is_each_once<W: BookName>(spents: &[Spent<W>], count: usize) -> bool
    requires { count ≤ made_limit }
    ensures { result ≡ once_each count spents.now }
{
    (1..count as u32 + 1).all(|pid| count_of(spents, Pid(pid)) == 1)
}

/// How many of them are this process's.
fn count_of<W: BookName>(spents: &[Spent<W>], pid: Pid) -> usize
    ensures { result ≡ callers_of pid.0 spents.now }
{
    spents.iter().filter(|spent| spent.pid() == pid).count()
}
