//! Runs each script of `data/`, compares its trace with the one that lies beside it and each answer with the one that the
//! script expects, makes its calls once more, and makes them by seats, over a book that keeps each call and over one that
//! keeps none.
#![tactic(auto)]

ghost use Rattle.std.specs.Prelude.{◌≡◌, map, IfOk};
ghost use Rattle.ux_model.specs.Boot.{IsBootState, new_process};

mod named;
mod seats;

use anyhow::{Result, anyhow};
use named::{NAMED, must_answer_by_names};
use seats::{is_alike_by_counting_seats, is_alike_by_seats};
use std::alloc::Global;
use std::fs;
use std::marker::Brand;
use std::rt::Files;
use std::sync::Wait;
use ux_book::Trail;
use ux_kernel::{Kernel, Seed};
use ux_object::FileObject;
use ux_replay::check_history;
use ux_script::{differences, line_numbers, objects_of, run_serial};
use ux_syntax::{Script, expectations_of, parse_script};
use ux_types::{Entry, Name};

/// The scripts by their names.
const SCRIPTS: &[&str] = &[
    "hello",
    "lost_peer",
    "peek_then_read",
    "too_many_files",
    "last_close",
    "semaphore",
    "pipe_of_two",
    "counter_and_pipe",
    "ends_of_a_file",
    "one_offset",
    "server_by_path",
    "server_by_abstract_name",
    "full_backlog_and_lost_listener",
    "accept_at_a_full_table",
    "autobind_and_refusals",
    "joined_sends",
    "two_lowest_numbers",
    "further_descriptors",
    "numbers_from_a_minimum",
    "file_objects_are_made",
    "semaphore_taken_one_by_one",
    "what_waits_in_queues",
    "event_loop",
    "thundering_herd",
    "nul_in_names",
    "longest_names",
    "one_name_wanted_twice",
    "bound_once",
    "name_of_a_servers_end",
    "path_outlives_its_socket",
    "listener_without_its_path",
    "abstract_name_goes_with_its_socket",
    "refusals_of_accept",
    "listening_again",
    "lost_listener",
    "server_exits",
    "whom_a_client_reaches",
    "calls_for_sockets_alone",
    "socket_without_a_peer",
    "lost_client",
    "name_of_a_client",
    "end_with_unread_bytes",
    "server_by_path_and_by_name",
    "rights_are_a_barrier",
    "receive_before_rights",
    "rights_come_with_the_first_byte",
    "passed_file_shares_its_offset",
    "file_in_a_lost_message",
    "excess_of_rights_is_closed",
    "most_rights_of_a_message",
    "peek_installs_further_descriptors",
    "full_table_cuts_rights",
    "sockets_in_each_others_queues",
    "service_manager",
    "privilege_separation",
    "refusals_of_send",
    "control_buffers",
    "control_space",
    "datagrams_are_cut",
    "socket_in_its_own_queue",
    "associated_sockets",
    "whom_a_datagram_socket_sends_to",
    "lost_target_stays_lost",
    "refusals_of_datagrams",
    "records_keep_their_ends",
    "record_server",
    "logger",
    "rights_without_data",
    "reads_and_writes_of_messages",
    "lost_record_peer",
    "sixteen_messages_wait",
    "real_length_of_a_stream",
    "shut_down_for_writing",
    "shut_down_both_ways",
    "shut_down_records",
    "shut_down_datagrams",
    "whom_shutdown_refuses",
    "credentials_of_a_sender",
    "different_credentials_are_not_joined",
    "whose_credentials_may_be_given",
    "credentials_and_control_space",
    "credentials_of_a_listener",
    "limit_of_rights_in_flight",
    "whose_rights_are_in_flight",
    "privileges_are_dropped",
    "passcred_names_a_socket",
    "options_of_each_type",
    "limit_of_a_stream_queue",
    "options_and_readiness",
    "readiness_of_files",
    "readiness_of_datagram_sockets",
    "readiness_of_connections",
    "display_server",
    "poll_of_a_half_closed_connection",
    "failed_read",
    "which_calls_fail",
    "exec_closes_what_is_marked",
    "child_at_the_other_end",
    "children_fork_too",
    "lock_order",
    "two_clients",
    "passed_file_closed_by_either",
    "child_dies_at_any_point",
    "message_of_the_day",
    "more_than_64_files",
    "flags_that_calls_lack",
];

/// A file object as a kernel holds it.
type Boxed = Box<dyn FileObject + Send>;

/// A kernel of a script's processes and these file objects.
fn kernel_of<O: FileObject>(
    alloc: Global,
    script: &Script,
    objects: Vec<(Name, O)>,
) -> Result<Kernel<O>>
    ensures boots { IfOk result (λ kernel. IsBootState kernel) }
    ensures processes { IfOk result (λ kernel. kernel.processes ≡ map new_process script.now.procs.items) }
{
    let most = script.object_limit();
    match Kernel::boot_with_seed(alloc, Seed::fixed(), most, objects, &script.procs) {
        Ok(kernel) => Ok(kernel),
        Err((fault, _objects)) => Err(anyhow!("{fault}")),
    }
}

/// A way in which the calls of a script are made.
#[derive(Clone, Copy, Drop)]
enum Pass {
    /// One after the other.
    Serial,
    /// Once more, as the history has them.
    Again,
    /// By the seats of the processes.
    Seats,
    /// By seats over a book that keeps no call.
    RunningSeats,
}

impl Pass {
    /// Whether file objects fail where their lines have it: not where the calls are made again, without those that failed.
    fn fails(self) -> bool {
        !matches!(self, Pass::Again)
    }
}

/// Runs a script over these file objects, and gives its history. It must have this trace.
fn run_over<O: FileObject>(
    alloc: Global,
    script: &Script,
    wanted: &[u8],
    objects: Vec<(Name, O)>,
) -> Result<Vec<Entry>> {
    let kernel = kernel_of(alloc, script, objects)?;
    let mut trace: Vec<u8> = Vec::new(alloc);
    let history = run_serial(alloc, script, &mut trace, kernel)?;
    if trace.as_slice() == wanted {
        return Ok(history);
    }
    Err(anyhow!("another trace"))
}

/// Makes the calls of a history on a second kernel, where they must be answered alike.
fn repeat<O: FileObject>(
    alloc: Global,
    script: &Script,
    history: &[Entry],
    objects: Vec<(Name, O)>,
) -> Result<()> {
    let kernel = kernel_of(alloc, script, objects)?;
    match check_history(alloc, history, kernel) {
        Ok(_count) => Ok(()),
        Err(number) => Err(anyhow!("entry {number} is another the second time")),
    }
}

/// Makes a script's calls by seats. It must have this trace, and be answered as in this history.
fn seat<O: FileObject, R: Wait + AllocGlobal>(
    rt: &R,
    script: &Script,
    history: &[Entry],
    wanted: &[u8],
    objects: Vec<(Name, O)>,
) -> Result<()> {
    let kernel = kernel_of(rt.alloc(), script, objects)?;
    let trail = Trail::new(rt.alloc())?;
    if is_alike_by_seats::<Brand, O, R>(rt, trail, kernel, script, history, wanted)? {
        return Ok(());
    }
    Err(anyhow!("another trace by seats"))
}

/// Makes a script's calls by seats over a book that keeps none. It must be answered as in this history.
fn seat_running<O: FileObject, R: Wait + AllocGlobal>(
    rt: &R,
    script: &Script,
    history: &[Entry],
    objects: Vec<(Name, O)>,
) -> Result<()> {
    let kernel = kernel_of(rt.alloc(), script, objects)?;
    let trail = Trail::new(rt.alloc())?;
    if is_alike_by_counting_seats::<Brand, O, R>(rt, trail, kernel, script, history)? {
        return Ok(());
    }
    Err(anyhow!("other accounts by running seats"))
}

/// Makes a script's file objects and its calls, and gives its history. The boxes are made and used here, since
/// the gate lets no function hand out a `dyn` value that it made.
fn perform<R: Wait + AllocGlobal>(
    rt: &R,
    script: &Script,
    wanted: &[u8],
    pass: Pass,
    history: Vec<Entry>,
) -> Result<Vec<Entry>> {
    let alloc = rt.alloc();
    let mut objects: Vec<(Name, Boxed)> = Vec::new(alloc);
    for (name, object) in objects_of(alloc, script, pass.fails())? {
        let boxed: Boxed = Box::new(alloc, object)?;
        objects.push((name, boxed))?;
    }
    match pass {
        Pass::Serial => return run_over(alloc, script, wanted, objects),
        Pass::Again => repeat(alloc, script, &history, objects)?,
        Pass::Seats => seat(rt, script, &history, wanted, objects)?,
        Pass::RunningSeats => seat_running(rt, script, &history, objects)?,
    }
    Ok(history)
}

/// The ways in which the calls of each script are made.
const PASSES: [Pass; 4] = [Pass::Serial, Pass::Again, Pass::Seats, Pass::RunningSeats];

/// Runs a script, makes its calls once more, and makes them by seats of both kinds. It must have this trace. Gives its
/// history.
fn must_have_trace<R: Wait + AllocGlobal>(
    rt: &R,
    script: &Script,
    wanted: &[u8],
) -> Result<Vec<Entry>> {
    let mut history = Vec::new(rt.alloc());
    for pass in PASSES {
        history = perform(rt, script, wanted, pass, history)?;
    }
    Ok(history)
}

/// Each line of the script that is a call must expect an answer, and its call must have answered so.
fn must_answer_as_expected(
    alloc: Global,
    text: &[u8],
    script: &Script,
    history: &[Entry],
) -> Result<()> {
    let expected = expectations_of(alloc, text)?;
    let lines = line_numbers(alloc, script, history)?;
    let calls = lines.iter().filter(|line| line.is_some()).count();
    if expected.len() != calls {
        return Err(anyhow!("{calls} calls, and another number of expectations"));
    }
    let differing = differences(alloc, &expected, &lines, history)?;
    if differing.is_empty() {
        return Ok(());
    }
    Err(anyhow!("other answers than the script expects"))
}

/// Runs a script, which must have the trace that lies beside it and answer as it expects.
fn must_have_its_trace<R: Files + Wait + AllocGlobal>(rt: &R, name: &str) -> Result<()> {
    let alloc: Global = rt.alloc();
    let script = format!(in alloc; "{name}.ux")?;
    let trace = format!(in alloc; "{name}.trace")?;
    let text = fs::read(rt, script.as_str())?;
    let wanted = fs::read(rt, trace.as_str())?;
    let script = parse_script(alloc, &text)?;
    let history = must_have_trace(rt, &script, &wanted)?;
    must_answer_as_expected(alloc, &text, &script, &history)
}

/// How often a chain's script puts a socket into the queue of the next.
const TURNS: usize = 10_000;

/// What one turn calls, and what is answered.
const TURN: &[(&str, &str, &str)] = &[
    ("pair", "stream -", "fds 1 2"),
    ("send", "1 - 78 r:0 -", "n 1"),
    ("close", "0", "ok"),
    ("close", "1", "ok"),
    ("dup2", "2 0", "fd 0"),
    ("close", "2", "ok"),
];

/// A script in which each of many sockets lies in the queue of the next, and an open file in that of the first.
/// The last socket is closed, or left to the process's exit.
fn chain_script(alloc: Global, closes: bool) -> Result<Vec<u8>> {
    let header = b"object p:f mem -\nproc 0 0 1 16\n1 open p:f r -\n1 unlink p:f\n";
    let mut text = Vec::from_slice(alloc, header)?;
    for _ in 0..TURNS {
        for (word, rest, _) in TURN {
            let line = format!(in alloc; "1 {word} {rest}\n")?;
            text.extend_from_slice(line.as_bytes())?;
        }
    }
    if closes {
        text.extend_from_slice(b"1 close 0\n")?;
    }
    Ok(text)
}

/// Appends the line of a trace of one process.
fn push_line(
    alloc: Global,
    trace: &mut Vec<u8>,
    number: usize,
    word: &str,
    reply: &str,
) -> Result<()> {
    let line = format!(in alloc; "{number} 1 {number} {word} = {reply}\n")?;
    trace.extend_from_slice(line.as_bytes())?;
    Ok(())
}

/// Its trace: the whole chain is freed with its last socket, and the file is closed with it.
fn chain_trace(alloc: Global, closes: bool) -> Result<Vec<u8>> {
    let mut trace = Vec::from_slice(alloc, b"0 1 0 open = fd 0\n1 1 1 unlink = ok\n")?;
    let mut number: usize = 2;
    for _ in 0..TURNS {
        for (word, _, reply) in TURN {
            push_line(alloc, &mut trace, number, word, reply)?;
            number = number.saturating_add(1);
        }
    }
    if closes {
        push_line(alloc, &mut trace, number, "close", "ok closed 0")?;
        push_line(alloc, &mut trace, number.saturating_add(1), "exit", "ok")?;
    } else {
        push_line(alloc, &mut trace, number, "exit", "ok closed 0")?;
    }
    Ok(trace)
}

/// Runs a chain, which must have its trace.
fn must_be_freed<R: Wait + AllocGlobal>(rt: &R, closes: bool) -> Result<()> {
    let alloc = rt.alloc();
    let text = chain_script(alloc, closes)?;
    let wanted = chain_trace(alloc, closes)?;
    let script = parse_script(alloc, &text)?;
    let _history = must_have_trace(rt, &script, &wanted)?;
    Ok(())
}

fn run<R: Files + Wait + Print + AllocGlobal>(rt: &R) -> Result<()> {
    for closes in [true, false] {
        if let Err(error) = must_be_freed(rt, closes) {
            return Err(anyhow!("a chain of passed sockets: {error}"));
        }
    }
    println!(rt; "a chain of {TURNS} passed sockets: ok")?;
    for name in SCRIPTS {
        if let Err(error) = must_have_its_trace(rt, name) {
            return Err(anyhow!("{name}: {error}"));
        }
        println!(rt; "{name}: ok")?;
    }
    for (name, process) in NAMED {
        if let Err(error) = must_answer_by_names(rt, name, process) {
            return Err(anyhow!("named/{name}: {error}"));
        }
        println!(rt; "named/{name}: ok")?;
    }
    Ok(())
}

fn main(rt: HostRuntime) -> Result<()> {
    run(&rt)
}
