//! The command line.

use crate::answers::{NOT_SEVERAL, allows_several, several_of, with_answers};
use crate::forms::with_forms;
use crate::orders::{LIMIT, NO_LIMIT, NO_ORDER, Orders, with_orders};
use crate::point::{Point, number_of};
use crate::views::{NO_POINT, point_of, with_views};
use clap::error::ErrorKind;
use clap::{Arg, ArgAction, ArgMatches, Command, Error};
use std::alloc::{AllocError, Global};
use ux_orders::{Order, read_order};

/// What `--version` prints behind the program's name.
const VERSION: &str = "0.5.0";

/// What was asked for on the command line.
#[derive(Debug, Drop)]
pub struct Args<'a> {
    /// Whether each process is a thread.
    pub threads: bool,
    /// Whether the history is made once more, and compared.
    pub check: bool,
    /// Whether each call is printed with its line's number and its arguments, instead of the trace.
    pub echo: bool,
    /// Whether the answers are compared with those that the script's comments expect.
    pub expect: bool,
    /// Whether it is told in TAP, the Test Anything Protocol, of which scripts that holds.
    pub tap: bool,
    /// Whether the answers are written into the scripts.
    pub update: bool,
    /// When the open descriptors are printed, each with the chain of processes that passed it.
    pub audit: Option<Point>,
    /// When it is printed who holds what.
    pub holders: Option<Point>,
    /// When that is printed as a graph, instead of the trace.
    pub dot: Option<Point>,
    /// Whether the calls are printed as a sequence diagram, instead of the trace.
    pub sequence: bool,
    /// The file to which a page of the run is written, if one is asked for.
    pub html: Option<&'a str>,
    /// In which order the processes' lines are made, where it isn't that of the script.
    pub order: Option<Order>,
    /// Which orders are made, where all are asked for.
    pub orders: Option<Orders>,
    /// Whether what is printed is JSON, one value a line.
    pub json: bool,
    /// Whether replies have text in place of digits, where it can be read.
    pub text: bool,
    /// Whether an audit is told in words.
    pub words: bool,
    /// Whether each line is run as soon as it is read.
    pub follow: bool,
    /// Whether it is reported on standard error how far a long run is. No option asks for it.
    pub progress: bool,
    /// A path, or `-` for standard input.
    pub script: &'a str,
    /// The scripts, where each is told of by itself: whether its answers are those that it expects, or that they were written.
    pub several: Option<Vec<&'a str>>,
}

impl Args<'_> {
    /// Whether the script is standard input, and nothing is asked for that needs all of it. Then it is run as it comes where
    /// it is a terminal.
    pub fn may_follow(&self) -> bool {
        let whole = self.threads
            || self.order.is_some()
            || self.orders.is_some()
            || self.echo
            || self.expect
            || self.json
            || self.text
            || self.dot.is_some()
            || self.sequence
            || self.several.is_some();
        self.script == "-" && !whole
    }
}

/// An option without a value.
fn switch<'a>(alloc: Global, name: &'static str, help: &'static str) -> Arg<'a> {
    Arg::new(alloc, name)
        .long(name)
        .action(ArgAction::SetTrue)
        .help(help)
}

/// The options, and the script's name.
fn command_of<'a>(alloc: Global) -> Result<Command<'a>, AllocError> {
    let script = Arg::new(alloc, "SCRIPT")
        .required(true)
        .num_args(1..)
        .action(ArgAction::Set)
        .help("The script's path, or - for standard input; with --expect or --update several");
    let command = Command::new(alloc, "uxrun")
        .about("Runs a script of socket calls and prints its trace")
        .version(VERSION)
        .arg(switch(alloc, "threads", THREADS))?
        .arg(switch(alloc, "echo", ECHO))?
        .arg(switch(alloc, "check", CHECK))?
        .arg(script)?;
    let command = with_answers(alloc, command)?;
    let command = with_orders(alloc, with_views(alloc, command)?)?;
    with_forms(alloc, command)
}

/// Reads the words of a command line, of which the first is the program's name.
pub fn read_args<'a>(alloc: Global, words: &'a [String]) -> Result<Args<'a>, Error> {
    let mut command = command_of(alloc)?;
    let matches = match command.try_get_matches_from_mut(words) {
        Ok(matches) => matches,
        Err(error) if misses_its_script(&error, words) => {
            return Err(command.error(ErrorKind::MissingRequiredArgument, NO_SCRIPT)?);
        }
        Err(error) if error.kind() == ErrorKind::UnknownArgument && has_negative(words) => {
            return Err(command.error(ErrorKind::ValueValidation, NEGATIVE)?);
        }
        Err(error) => return Err(error),
    };
    let (Some(audit), Some(holders), Some(dot)) = (
        point_of(&matches, "audit"),
        point_of(&matches, "holders"),
        point_of(&matches, "dot"),
    ) else {
        return Err(command.error(ErrorKind::ValueValidation, NO_POINT)?);
    };
    let Some(order) = order_of(alloc, &matches)? else {
        return Err(command.error(ErrorKind::ValueValidation, NO_ORDER)?);
    };
    let Some(orders) = orders_of(&matches) else {
        return Err(command.error(ErrorKind::ValueValidation, NO_LIMIT)?);
    };
    let several = several_of(alloc, &matches)?;
    if several.is_some() && !allows_several(&matches) {
        return Err(command.error(ErrorKind::ArgumentConflict, NOT_SEVERAL)?);
    }
    let mut args = flags_of(&matches);
    args.audit = audit;
    args.holders = holders;
    args.dot = dot;
    args.order = order;
    args.orders = orders;
    args.several = several;
    Ok(args)
}

/// The options without a value, the script, and the file of a page.
// Apart, since each return of `read_args` owes all that its arguments owe.
fn flags_of<'a>(matches: &ArgMatches<'a>) -> Args<'a> {
    Args {
        threads: matches.get_flag("threads"),
        check: matches.get_flag("check"),
        echo: matches.get_flag("echo"),
        expect: matches.get_flag("expect"),
        tap: matches.get_flag("tap"),
        update: matches.get_flag("update"),
        audit: None,
        holders: None,
        dot: None,
        sequence: matches.get_flag("sequence"),
        html: matches.get_str("html"),
        order: None,
        orders: None,
        json: matches.get_flag("json"),
        text: matches.get_flag("text"),
        words: matches.get_flag("words"),
        follow: matches.get_flag("follow"),
        progress: false,
        script: matches.get_str("SCRIPT").unwrap_or("-"),
        several: None,
    }
}

/// The options with a value.
const VALUED: &[&str] = &[
    "--audit",
    "--holders",
    "--dot",
    "--html",
    "--order",
    "--limit",
];

/// Why no script is named, where the last word is the value of an option.
const NO_SCRIPT: &str = "SCRIPT is missing: the last word is the value of the option before it";

/// Whether an error is that no script is named, since an option took the last word as its value.
fn misses_its_script(error: &Error, words: &[String]) -> bool {
    let before = words
        .len()
        .checked_sub(2)
        .and_then(|place| words.get(place));
    let Some(option) = before else {
        return false;
    };
    error.kind() == ErrorKind::MissingRequiredArgument && VALUED.contains(&option.as_str())
}

/// Whether a number below 0 stands behind an option that wants a value.
fn has_negative(words: &[String]) -> bool {
    words.iter().zip(words.iter().skip(1)).any(|(option, value)| {
        VALUED.contains(&option.as_str()) && is_negative(value.as_str())
    })
}

/// Whether a word is a minus and a digit at least.
fn is_negative(word: &str) -> bool {
    match word.strip_prefix("-") {
        Some(digits) => digits.parse::<u64>().is_ok(),
        None => false,
    }
}

/// Why a number below 0 isn't taken.
const NEGATIVE: &str = "WHEN, ORDER and N aren't below 0";

const THREADS: &str =
    "Makes the calls of each process in a thread of its own, where they wait if they have to";

const ECHO: &str = "Prints each call with its line and its arguments, instead of the trace";

const CHECK: &str = "Makes the calls of the trace once more, on a second kernel, and compares";

/// The order that is asked for, if one is. None where it isn't written as an order.
fn order_of(alloc: Global, matches: &ArgMatches<'_>) -> Result<Option<Option<Order>>, AllocError> {
    match matches.get_str("order") {
        Some(text) => Ok(read_order(alloc, text)?.map(Some)),
        None => Ok(Some(None)),
    }
}

/// Which orders are made, where all are asked for. None where the limit isn't a number.
fn orders_of(matches: &ArgMatches<'_>) -> Option<Option<Orders>> {
    let limit = match matches.get_str("limit") {
        Some(text) => number_of(text)?,
        None => LIMIT,
    };
    let each = matches.get_flag("each");
    let brief = matches.get_flag("outcomes");
    let orders = Orders { limit, each, brief };
    Some(matches.get_flag("orders").then_some(orders))
}
