//! The options that report who holds what at a moment of the run.
use crate::point::Point;
use clap::{Arg, ArgAction, ArgMatches, Command};
use std::alloc::{AllocError, Global};

/// Why the value of `--audit`, `--holders` and `--dot` isn't taken.
pub(crate) const NO_POINT: &str =
    "WHEN is a number from 0 to 4294967295 without leading zeros, line: and such a number, end or all";

/// An option whose value is a moment of the run.
fn at_point<'a>(alloc: Global, name: &'static str, help: &'static str) -> Arg<'a> {
    Arg::new(alloc, name)
        .long(name)
        .value_name("WHEN")
        .action(ArgAction::Set)
        .help(help)
}

/// The command with these options.
pub(crate) fn with_views<'a>(
    alloc: Global,
    command: Command<'a>,
) -> Result<Command<'a>, AllocError> {
    let dot = at_point(alloc, "dot", DOT)
        .conflicts_with("echo")?
        .conflicts_with("expect")?
        .conflicts_with("check")?
        .conflicts_with("audit")?
        .conflicts_with("holders")?;
    let sequence = Arg::new(alloc, "sequence")
        .long("sequence")
        .action(ArgAction::SetTrue)
        .conflicts_with("echo")?
        .conflicts_with("expect")?
        .conflicts_with("check")?
        .conflicts_with("audit")?
        .conflicts_with("holders")?
        .conflicts_with("dot")?
        .help("Prints the calls as a sequence diagram instead, in the language of Mermaid");
    let html = Arg::new(alloc, "html")
        .long("html")
        .value_name("FILE")
        .action(ArgAction::Set)
        .help("Writes a page to FILE besides, on which the run can be walked through");
    command
        .arg(at_point(alloc, "audit", AUDIT))?
        .arg(at_point(alloc, "holders", HOLDERS))?
        .arg(dot)?
        .arg(sequence)?
        .arg(html)
}

/// The moment that an option asks for, where the option is there. None where its value isn't a moment.
pub(crate) fn point_of(matches: &ArgMatches<'_>, name: &str) -> Option<Option<Point>> {
    match matches.get_str(name) {
        Some(text) => Some(Some(Point::read(text)?)),
        None => Some(None),
    }
}

const AUDIT: &str =
    "Tells which descriptors are open then, and how each came to its process: after N calls, line:L, end or all";

const HOLDERS: &str =
    "Tells who holds what then: after N calls, line:L for the call of a line, end before the last exits, or all";

const DOT: &str = "Prints who holds what then as a graph instead, in the language of Graphviz";
