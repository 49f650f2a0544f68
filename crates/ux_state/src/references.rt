//! Counts of the references that table entries, messages and waiting ends are.
ghost use Rattle.std.specs.Prelude.{◌≡◌, ◌+◌, ◌<◌, ◌≤◌, ◌^◌, ℕ, map, IsTrue};
ghost use Rattle.ux_model.specs.References.{times, queue_refs, socket_refs, target_refs, table_refs};
ghost use Rattle.ux_model.specs.Socket.{pending_ends};
ghost use Rattle.ux_model.specs.Flight.{rights_sent_by, flying_at};
ghost use Rattle.ux_slots.specs.Held.{count_at, once, HasMore};
ghost use Rattle.ux_state.specs.Flights.{flights_of};
ghost use Rattle.ux_state.specs.EntryCounts.{entry_refs, closed_on_exec, AreHeld, HaveRoom, TableHasRoom};

use crate::flights::Flights;
use ux_description::{Description, Socket, Target};
use ux_fdtable::{Descriptor, Table};
use ux_rights::Reference;
use ux_slots::Slots;
use ux_types::{DescriptionId, Fd};

/// Counts one more reference to a description that has one, where there is room.
pub(crate) fn retain(slots: &mut Slots<Description>, id: DescriptionId)
    requires held { 0 < count_at slots.old id }
    requires room { count_at slots.old id + 1 < 2 ^ 64 }
    ensures { HasMore (once id) slots.old slots.new }
{
    if slots.retain_ref(id).is_err() {
        // There is room, as the contract requires.
        unreachable!();
    }
}

/// Counts an entry that was taken away less, if there was one.
pub(crate) fn release(slots: &mut Slots<Description>, entry: Option<Descriptor>)
    requires { (k : ℕ) → entry_refs k entry ≤ count_at slots.old k }
    ensures { HasMore (λ k. entry_refs k entry) slots.new slots.old }
{
    if let Some(entry) = entry {
        slots.release_ref(entry.description);
    }
}

/// Counts all entries of a table less.
pub(crate) fn release_table(slots: &mut Slots<Description>, table: &Table)
    requires { (k : ℕ) → table_refs k table.now ≤ count_at slots.old k }
    ensures { HasMore (λ k. table_refs k table.now) slots.new slots.old }
{
    for number in 0..table.limit() {
        release(slots, table.get(Fd(number)));
    }
}

/// An entry that exec closes, if this is one.
fn closed_on_exec(entry: Option<Descriptor>) -> Option<Descriptor>
    ensures { result ≡ closed_on_exec entry }
{
    match entry {
        Some(entry) if entry.cloexec => Some(entry),
        _ => None,
    }
}

/// Counts the entries of a table less that exec closes.
pub(crate) fn release_marked(slots: &mut Slots<Description>, table: &Table)
    requires { (k : ℕ) → table_refs k (map closed_on_exec table.now) ≤ count_at slots.old k }
    ensures { HasMore (λ k. table_refs k (map closed_on_exec table.now)) slots.new slots.old }
{
    for number in 0..table.limit() {
        release(slots, closed_on_exec(table.get(Fd(number))));
    }
}

/// Whether each entry of a table can be counted once more.
pub(crate) fn table_has_room(slots: &Slots<Description>, table: &Table) -> bool
    ensures { IsTrue result → TableHasRoom slots.now table.now }
{
    for number in 0..table.limit() {
        if let Some(entry) = table.get(Fd(number)) {
            if !slots.has_room(entry.description, table.limit() as usize) {
                return false;
            }
        }
    }
    true
}

/// Counts an entry once more, if there is one.
fn retain_entry(slots: &mut Slots<Description>, entry: Option<Descriptor>)
    requires held { (k : ℕ) → 0 < entry_refs k entry → 0 < count_at slots.old k }
    requires room { (k : ℕ) → 0 < entry_refs k entry → count_at slots.old k + 1 < 2 ^ 64 }
    ensures { HasMore (λ k. entry_refs k entry) slots.old slots.new }
{
    if let Some(entry) = entry {
        retain(slots, entry.description);
    }
}

/// Counts all entries of a table once more.
pub(crate) fn retain_table(slots: &mut Slots<Description>, table: &Table)
    requires held { (k : ℕ) → table_refs k table.now ≤ count_at slots.old k }
    requires room { TableHasRoom slots.old table.now }
    ensures { HasMore (λ k. table_refs k table.now) slots.old slots.new }
{
    for number in 0..table.limit() {
        retain_entry(slots, table.get(Fd(number)));
    }
}

/// Whether each of these can be counted as often as it stands there.
pub(crate) fn have_room(slots: &Slots<Description>, references: &[Reference]) -> bool
    ensures { IsTrue result → HaveRoom slots.now references.now }
{
    references.iter().all(|reference| slots.has_room(reference.description(), references.len()))
}

/// Counts one more reference of each.
pub(crate) fn retain_all(slots: &mut Slots<Description>, references: &[Reference])
    requires held { AreHeld slots.old references.now }
    requires room { HaveRoom slots.old references.now }
    ensures { HasMore (λ k. times k references.now) slots.old slots.new }
{
    for reference in references {
        retain(slots, reference.description());
    }
}

/// Counts one reference of each less.
pub(crate) fn release_all(slots: &mut Slots<Description>, references: &[Reference])
    requires { (k : ℕ) → times k references.now ≤ count_at slots.old k }
    ensures { HasMore (λ k. times k references.now) slots.new slots.old }
{
    for reference in references {
        slots.release_ref(reference.description());
    }
}

/// Counts the references less that a socket's messages hold, and its rights in flight, one message after
/// another.
fn release_queue(slots: &mut Slots<Description>, flights: &mut Flights, socket: &mut Socket)
    requires counted { (k : ℕ) → queue_refs k socket.old.queue ≤ count_at slots.old k }
    requires flying { (u : ℕ) → rights_sent_by u socket.old.queue ≤ flights_of flights.old u }
    ensures counted { HasMore (λ k. queue_refs k socket.old.queue) slots.new slots.old }
    ensures flying { (u : ℕ) → flights_of flights.old u ≡ flights_of flights.new u + rights_sent_by u socket.old.queue }
    ensures phase { socket.new.phase ≡ socket.old.phase }
{
    while let Some((rights, uid)) = socket.pop_message() {
        release_all(slots, rights.as_slice());
        flights.count_out(uid, rights.len());
    }
}

/// Counts the ends less that wait at a socket.
fn release_pending(slots: &mut Slots<Description>, socket: &mut Socket)
    requires { (k : ℕ) → times k (pending_ends socket.old.phase) ≤ count_at slots.old k }
    ensures { HasMore (λ k. times k (pending_ends socket.old.phase)) slots.new slots.old }
{
    while let Some(end) = socket.pop_pending() {
        slots.release_ref(end);
    }
}

/// Counts the references less that a description holds, which was freed, and its rights in flight.
pub(crate) fn release_held(slots: &mut Slots<Description>, flights: &mut Flights, gone: Description)
    requires counted { (k : ℕ) → target_refs k gone.target ≤ count_at slots.old k }
    requires flying { (u : ℕ) → flying_at u gone.target ≤ flights_of flights.old u }
    ensures counted { HasMore (λ k. target_refs k gone.target) slots.new slots.old }
    ensures flying { (u : ℕ) → flights_of flights.old u ≡ flights_of flights.new u + flying_at u gone.target }
{
    if let Target::Socket(mut socket) = gone.into_target() {
        release_queue(slots, flights, &mut socket);
        release_pending(slots, &mut socket);
    }
}
