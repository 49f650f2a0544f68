//! What a process holds of a book: the right to call, and what is left of it after its exit.
ghost use Rattle.std.specs.Prelude.{◌≡◌, ◌<◌, false, length};
ghost use Rattle.ux_book.specs.Pasts.{has_exit};

use crate::book_name::BookName;
use crate::trail::Token;
use std::marker::{Model, PhantomData};
use ux_types::Pid;

/// A process's right to call, which is never copied. Contracts see the process, and the calls that it has made: of
/// these only clauses know.
pub struct Share<W: BookName> {
    pub(crate) pid: Pid,
    /// How many calls it has made.
    pub(crate) k: u64,
    pub(crate) token: Token,
    pub(crate) of: PhantomData<W>,
}

// Written out, so that it is proved here and not in each function that drops one.
impl<W: BookName> Drop for Share<W> {
    fn drop(self) {
        let Share {
            pid: _,
            k: _,
            token,
            of: _,
        } = self;
        drop(token)
    }
}

impl<W: BookName> Model for Share<W> {
    ghost use Rattle.std.specs.Prelude.{◌≡◌, ◌<◌, false, length};
    ghost use Rattle.ux_book.specs.Pasts.{Caller, has_exit};

    ghost Value = { Caller };

    ghost view = { λ s. record { pid = s.pid; past = s.token.past } };

    ghost invariant = { λ s. (s.token.id ≡ W.trail) × (s.token.pid ≡ s.pid.0) × (s.k ≡ length s.token.past) × (0 < s.pid.0) × (has_exit s.token.past ≡ false) };
}

impl<W: BookName> Share<W> {
    /// The process.
    pub fn pid(&self) -> Pid
        ensures { result ≡ self.now.pid }
    {
        self.pid
    }

    /// How many calls it has made, of which none is its exit.
    pub fn calls(&self) -> u64
        ensures count { result ≡ length self.now.past }
        ensures process { 0 < self.now.pid.0 }
        ensures no_exit { has_exit self.now.past ≡ false }
    {
        self.k
    }

    /// The process, how many calls it has made, and its token.
    pub(crate) fn into_parts(self) -> (Pid, u64, Token)
        ensures token { (result.2.id ≡ W.trail) × (result.2.pid ≡ self.pid.0) × (result.2.past ≡ self.past) }
        ensures pid { result.0 ≡ self.pid }
        ensures count { result.1 ≡ length self.past }
    {
        let Share {
            pid,
            k,
            token,
            of: _,
        } = self;
        (pid, k, token)
    }
}

/// The share of a process that has exited. Contracts see the process, and its calls with the exit.
pub struct Spent<W: BookName> {
    pub(crate) pid: Pid,
    /// How many calls it made, with its exit.
    pub(crate) k: u64,
    pub(crate) token: Token,
    pub(crate) of: PhantomData<W>,
}

// Written out, so that it is proved here and not in each function that drops one.
impl<W: BookName> Drop for Spent<W> {
    fn drop(self) {
        let Spent {
            pid: _,
            k: _,
            token,
            of: _,
        } = self;
        drop(token)
    }
}

impl<W: BookName> Model for Spent<W> {
    ghost use Rattle.std.specs.Prelude.{◌≡◌, length};
    ghost use Rattle.ux_book.specs.Pasts.{Caller};

    ghost Value = { Caller };

    ghost view = { λ s. record { pid = s.pid; past = s.token.past } };

    ghost invariant = { λ s. (s.token.id ≡ W.trail) × (s.token.pid ≡ s.pid.0) × (s.k ≡ length s.token.past) };
}

impl<W: BookName> Spent<W> {
    /// The process.
    pub fn pid(&self) -> Pid
        ensures { result ≡ self.now.pid }
    {
        self.pid
    }

    /// How many calls it made, with its exit.
    pub fn calls(&self) -> u64
        ensures { result ≡ length self.now.past }
    {
        self.k
    }
}

/// The share of a process that has made no call yet.
pub(crate) fn new_share<W: BookName>(pid: Pid, token: Token) -> Share<W>
    requires token { (token.id ≡ W.trail) × (token.pid ≡ pid.0) }
    requires process { 0 < pid.0 }
    requires none { length token.past ≡ 0 }
    requires no_exit { has_exit token.past ≡ false }
    ensures { result ≡ record { pid = pid; past = token.past } }
{
    Share {
        pid,
        k: 0,
        token,
        of: PhantomData,
    }
}
