//! A list of entries that only clauses see. One holder knows all of it, one token of each process its own calls, and
//! others one place each: that they are of one and the same list is proved, though nobody keeps it.
ghost use Rattle.std.specs.Prelude.{◌≡◌, true, ◌+◌, ◌<◌, ◌++◌, ◌∷◌, [], length, Some, IfOk};
ghost use Rattle.std.specs.List.{slice_get};
ghost use Rattle.ux_book.specs.Pasts.{calls_by};
ghost use Rattle.ux_book.specs.Trails.{knower, noted, owner_of, taking_in, rest_of, own_of};

use crate::call::Call;
use atomic_table::{Join, Play, Seat, Split, Table, TableRule};
use std::alloc::{AllocError, Global};
use std::collections::LinkedList;
use std::marker::{Brand, Model, PhantomData};
use ux_types::{Done, Entry, Pid, Released, Request};

/// What a token knows: all entries and how many had a token, one entry and its number, or a process's calls. No value
/// of it is made.
pub struct Known {
    /// Whether it knows all entries.
    pub keeps: bool,
    /// Those, in order.
    pub all: LinkedList<Entry>,
    /// How many processes have had a token.
    pub given: u64,
    /// Whether it knows one entry.
    pub claims: bool,
    /// Its number, counted from 0.
    pub number: usize,
    /// That entry.
    pub entry: Entry,
    /// Whether it knows a process's calls.
    pub owns: bool,
    /// The number of that process.
    pub pid: u32,
    /// Its calls, in order.
    pub past: LinkedList<Call>,
}

// Written out, so that it is proved here and not in each function that drops a trail.
impl Drop for Known {
    fn drop(self) {
        let Known {
            keeps: _,
            all,
            given: _,
            claims: _,
            number: _,
            entry,
            owns: _,
            pid: _,
            past,
        } = self;
        drop(all);
        drop(entry);
        drop(past)
    }
}

/// The rule of the tokens.
pub struct OneTrail;

impl TableRule<(), Known, ()> for OneTrail {
    ghost use Rattle.std.specs.Prelude.{[]};
    ghost use Rattle.ux_book.specs.Trails.{Kept, knower};

    ghost holds = { λ _ s. Kept s.views };

    ghost first = { λ _. knower [] 0 };
}

/// Which entry is added. Each call picks it.
pub trait Noted {
    ghost use Rattle.ux_model.specs.Types.{Entry};

    ghost entry: { Entry };
}

impl Noted for Brand {
    ghost use Rattle.ux_book.specs.Trails.{no_entry};

    ghost entry = { no_entry };
}

/// A step that adds an entry, by who knows the whole and its process's calls.
pub struct Notes<T: Noted> {
    of: PhantomData<T>,
}

impl<T: Noted> Play<(), Known> for Notes<T> {
    ghost use Rattle.std.specs.Prelude.{◌≡◌};
    ghost use Rattle.ux_book.specs.Trails.{noted};

    ghost then = { λ s v n w. w ≡ (noted v.0 T.entry, v.1) };
}

/// A step that compares a place, or a process's calls, with all entries.
pub struct Checks;

impl Play<(), Known> for Checks {
    ghost use Rattle.std.specs.Prelude.{◌≡◌};
    ghost use Rattle.ux_book.specs.Trails.{Checked};

    ghost then = { λ s v n w. Checked v.0 w.0 × (w.1 ≡ v.1) };
}

/// The place of the last entry.
pub struct Last;

impl Split<Known> for Last {
    ghost use Rattle.ux_book.specs.Trails.{last_claim};

    ghost left = { λ v. v };

    ghost right = { last_claim };
}

/// The same place.
pub struct Again;

impl Split<Known> for Again {
    ghost use Rattle.ux_book.specs.Trails.{place_of};

    ghost left = { λ v. v };

    ghost right = { place_of };
}

/// A token for one process more.
pub struct Opens;

impl Split<Known> for Opens {
    ghost use Rattle.ux_book.specs.Trails.{opened, next_owner};

    ghost left = { opened };

    ghost right = { next_owner };
}

/// A process's calls, which then only the new token knows.
pub struct Own;

impl Split<Known> for Own {
    ghost use Rattle.ux_book.specs.Trails.{rest_of, own_of};

    ghost left = { rest_of };

    ghost right = { own_of };
}

/// Who knows the whole takes in what another token knows.
pub struct TakesIn;

impl Join<Known> for TakesIn {
    ghost use Rattle.ux_book.specs.Trails.{taking_in, nobody};

    ghost both = { taking_in };

    ghost spent = { nobody };
}

/// Who knows all of it. Contracts see the entries, how many processes had a token, and which trail it is.
pub struct Trail {
    table: Table<(), Known, (), OneTrail, Global>,
    keeper: Seat<(), Known>,
}

impl Drop for Trail {
    fn drop(self) {
        let Trail { table, keeper } = self;
        drop(table);
        drop(keeper)
    }
}

impl Model for Trail {
    ghost use Rattle.std.specs.Prelude.{◌≡◌, []};
    ghost use Rattle.ux_book.specs.Trails.{Trailed, knower};

    ghost Value = { Trailed };

    ghost view = { λ t. record { id = t.table.shared.table_id; entries = t.keeper.me.0.all; given = t.keeper.me.0.given } };

    ghost invariant = { λ t. (t.table.shared.table_id.words ≡ 1) × (t.keeper.table_id ≡ t.table.shared.table_id) × (t.keeper.me ≡ (knower t.keeper.me.0.all t.keeper.me.0.given, [])) };
}

/// Who knows one place. It has no bytes.
#[derive(Drop)]
pub(crate) struct Place {
    seat: Seat<(), Known>,
}

impl Model for Place {
    ghost use Rattle.std.specs.Prelude.{◌≡◌, []};
    ghost use Rattle.ux_book.specs.Trails.{Placed, claim};

    ghost Value = { Placed };

    ghost view = { λ m. record { id = m.seat.table_id; number = m.seat.me.0.number; entry = m.seat.me.0.entry } };

    ghost invariant = { λ m. m.seat.me ≡ (claim m.seat.me.0.number m.seat.me.0.entry, []) };
}

/// The only one who knows a process's calls. It has no bytes.
#[derive(Drop)]
pub(crate) struct Token {
    seat: Seat<(), Known>,
}

impl Model for Token {
    ghost use Rattle.std.specs.Prelude.{◌≡◌, []};
    ghost use Rattle.ux_book.specs.Trails.{Owned, owner_of};

    ghost Value = { Owned };

    ghost view = { λ t. record { id = t.seat.table_id; pid = t.seat.me.0.pid; past = t.seat.me.0.past } };

    ghost invariant = { λ t. t.seat.me ≡ (owner_of t.seat.me.0.pid t.seat.me.0.past, []) };
}

impl Trail {
    /// A trail with no entry, of which nobody has a token yet.
    ///
    /// # Errors
    ///
    /// Out of memory.
    pub fn new(alloc: Global) -> Result<Trail, AllocError>
        ensures { IfOk result (λ t. (t.entries ≡ []) × (t.given ≡ 0)) }
    {
        let (table, keeper) = Table::<(), Known, (), OneTrail, Global>::of_words(alloc, &[0], &())?;
        Ok(Trail { table, keeper })
    }

    /// The token of one process more, with what it called.
    pub(crate) fn open(&mut self) -> Token
        ensures trail { self.new ≡ record self.old { given = self.old.given + 1 } }
        ensures token { result ≡ record { id = self.old.id; pid = self.old.given; past = calls_by self.old.given self.old.entries } }
    {
        let Trail { table, keeper } = self;
        let seat = table.shared.split_seat::<Opens>(keeper);
        Token { seat }
    }

    /// Compares a token with the trail, which is some steps on a word: it knows its process's calls, and it is one of
    /// those that were given.
    pub(crate) fn check(&mut self, token: &mut Token)
        requires { token.old.id ≡ self.old.id }
        ensures past { token.old.past ≡ calls_by token.old.pid self.old.entries }
        ensures given { token.old.pid < self.old.given }
        ensures trail { self.new ≡ self.old }
        ensures token { token.new ≡ token.old }
    {
        let Trail { table, keeper } = self;
        take_in(table, keeper, &mut token.seat);
        table.shared.load::<Checks>(keeper, 0);
        give_back(table, keeper, &mut token.seat);
    }

    /// Adds a call of the token's process, and gives its place.
    pub(crate) fn push(
        &mut self,
        token: &mut Token,
        k: u64,
        request: &Request,
        done: &Done,
        released: &Released,
    ) -> Place
        requires { token.old.id ≡ self.old.id }
        ensures trail { self.new ≡ record self.old { entries = self.old.entries ++ record { pid = record { 0 = token.old.pid }; k = k; request = request.now; reply = done.now.reply; released = released.now; delivered = done.now.delivered } ∷ [] } }
        ensures token { token.new ≡ record token.old { past = token.old.past ++ record { request = request.now; reply = done.now.reply } ∷ [] } }
        ensures place { result ≡ record { id = self.old.id; number = length self.old.entries; entry = record { pid = record { 0 = token.old.pid }; k = k; request = request.now; reply = done.now.reply; released = released.now; delivered = done.now.delivered } } }
    {
        let Trail { table, keeper } = self;
        take_in(table, keeper, &mut token.seat);
        note::<Brand>(table, keeper, k, request, done, released);
        give_back(table, keeper, &mut token.seat);
        let seat = table.shared.split_seat::<Last>(keeper);
        Place { seat }
    }

    /// Compares a place with the trail, which is some steps on a word: its entry stands at its number.
    pub(crate) fn find(&mut self, place: &mut Place)
        requires { place.old.id ≡ self.old.id }
        ensures found { slice_get self.old.entries place.old.number ≡ Some place.old.entry }
        ensures trail { self.new ≡ self.old }
        ensures place { place.new ≡ place.old }
    {
        let Trail { table, keeper } = self;
        let again = table.shared.split_seat::<Again>(&mut place.seat);
        table.shared.join_seat::<TakesIn>(keeper, again);
        table.shared.load::<Checks>(keeper, 0);
    }
}

/// The keeper takes in what a process's token knows.
fn take_in(
    table: &Table<(), Known, (), OneTrail, Global>,
    keeper: &mut Seat<(), Known>,
    token: &mut Seat<(), Known>,
)
    requires table { (keeper.old.table_id ≡ table.now.shared.table_id) × (token.old.table_id ≡ table.now.shared.table_id) × (table.now.shared.table_id.words ≡ 1) }
    requires keeper { keeper.old.me ≡ (knower keeper.old.me.0.all keeper.old.me.0.given, []) }
    requires token { token.old.me ≡ (owner_of token.old.me.0.pid token.old.me.0.past, []) }
    ensures same { keeper.new.table_id ≡ keeper.old.table_id }
    ensures keeper { keeper.new.me ≡ (taking_in (knower keeper.old.me.0.all keeper.old.me.0.given) (owner_of token.old.me.0.pid token.old.me.0.past), []) }
{
    let seat = table.shared.split_seat::<Own>(token);
    table.shared.join_seat::<TakesIn>(keeper, seat);
}

/// The keeper gives a process's token back.
fn give_back(
    table: &Table<(), Known, (), OneTrail, Global>,
    keeper: &mut Seat<(), Known>,
    token: &mut Seat<(), Known>,
)
    requires table { (keeper.old.table_id ≡ table.now.shared.table_id) × (table.now.shared.table_id.words ≡ 1) }
    requires keeper { (keeper.old.me.0.owns ≡ true) × (keeper.old.me.1 ≡ []) }
    ensures same { (keeper.new.table_id ≡ keeper.old.table_id) × (token.new.table_id ≡ keeper.old.table_id) }
    ensures keeper { keeper.new.me ≡ (rest_of keeper.old.me.0, []) }
    ensures token { token.new.me ≡ (own_of keeper.old.me.0, []) }
{
    *token = table.shared.split_seat::<Own>(keeper);
}

/// Lets the keeper, and with it a process's token, know one more call.
fn note<T: Noted>(
    table: &Table<(), Known, (), OneTrail, Global>,
    keeper: &mut Seat<(), Known>,
    k: u64,
    request: &Request,
    done: &Done,
    released: &Released,
)
    requires table { (keeper.old.table_id ≡ table.now.shared.table_id) × (table.now.shared.table_id.words ≡ 1) }
    requires keeper { (keeper.old.me.0.keeps ≡ true) × (keeper.old.me.0.owns ≡ true) × (keeper.old.me.1 ≡ []) }
    requires entry { T.entry ≡ record { pid = record { 0 = keeper.old.me.0.pid }; k = k; request = request.now; reply = done.now.reply; released = released.now; delivered = done.now.delivered } }
    ensures same { keeper.new.table_id ≡ keeper.old.table_id }
    ensures keeper { keeper.new.me ≡ (noted keeper.old.me.0 (record { pid = record { 0 = keeper.old.me.0.pid }; k = k; request = request.now; reply = done.now.reply; released = released.now; delivered = done.now.delivered }), []) }
{
    // Borrows, by which the clauses see the arguments.
    let _ = k;
    let _ = request;
    let _ = done;
    let _ = released;
    table.shared.store::<Notes<T>>(keeper, 0, 0);
}
