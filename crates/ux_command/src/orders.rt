//! The options for the order of the processes' lines.
use clap::{Arg, ArgAction, Command};
use std::alloc::{AllocError, Global};

/// Which orders are made, where all are asked for.
#[derive(Debug, Clone, Copy, PartialEq, Eq)]
pub struct Orders {
    /// At most so many runs are begun.
    pub limit: u32,
    /// Whether each is made by itself, also where it comes to the same as another.
    pub each: bool,
    /// Whether each outcome is told in one line, without its calls.
    pub brief: bool,
}

/// How many runs are begun where all orders are asked for, and no limit is given.
pub(crate) const LIMIT: u32 = 1_000_000;

/// Why the value of `--order` isn't taken.
pub(crate) const NO_ORDER: &str =
    "ORDER of --order is a number, or process numbers joined by commas, without leading zeros";

/// Why the value of `--limit` isn't taken.
pub(crate) const NO_LIMIT: &str =
    "N of --limit is a number from 0 to 4294967295, without leading zeros";

fn order<'a>(alloc: Global) -> Result<Arg<'a>, AllocError> {
    Arg::new(alloc, "order")
        .long("order")
        .value_name("ORDER")
        .action(ArgAction::Set)
        .help(ORDER)
        .conflicts_with("threads")
}

fn every_order<'a>(alloc: Global) -> Result<Arg<'a>, AllocError> {
    Arg::new(alloc, "orders")
        .long("orders")
        .action(ArgAction::SetTrue)
        .help(ORDERS)
        .conflicts_with("threads")?
        .conflicts_with("order")?
        .conflicts_with("check")?
        .conflicts_with("audit")?
        .conflicts_with("holders")?
        .conflicts_with("dot")?
        .conflicts_with("sequence")
}

fn limit<'a>(alloc: Global) -> Result<Arg<'a>, AllocError> {
    Arg::new(alloc, "limit")
        .long("limit")
        .value_name("N")
        .action(ArgAction::Set)
        .help(LIMITED)
        .requires_arg("orders")
}

fn each<'a>(alloc: Global) -> Result<Arg<'a>, AllocError> {
    Arg::new(alloc, "each")
        .long("each")
        .action(ArgAction::SetTrue)
        .help(EACH)
        .requires_arg("orders")
}

fn outcomes<'a>(alloc: Global) -> Result<Arg<'a>, AllocError> {
    Arg::new(alloc, "outcomes")
        .long("outcomes")
        .action(ArgAction::SetTrue)
        .help(OUTCOMES)
        .requires_arg("orders")?
        .conflicts_with("echo")?
        .conflicts_with("text")
}

/// The command with the options for one order, for all, for how many runs at most, and for those that come to the same.
// Each option is made by a function of its own, so that none owes the drops of all.
pub(crate) fn with_orders<'a>(
    alloc: Global,
    command: Command<'a>,
) -> Result<Command<'a>, AllocError> {
    command
        .arg(order(alloc)?)?
        .arg(every_order(alloc)?)?
        .arg(limit(alloc)?)?
        .arg(each(alloc)?)?
        .arg(outcomes(alloc)?)
}

const ORDER: &str =
    "Makes the lines in one order: that of a number, or process numbers joined by commas";

const ORDERS: &str = "Makes the lines in every order, and tells what the orders come to";

const LIMITED: &str = "Makes at most N orders, a million where it isn't given";

const EACH: &str = "Makes each order by itself, also where others come to the same";

const OUTCOMES: &str =
    "Tells of each outcome in one line, with the call at which it parts from the one before";
