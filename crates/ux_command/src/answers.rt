//! The options for the answers that a script expects.
use clap::{Arg, ArgAction, ArgMatches, Command};
use std::alloc::{AllocError, Global};

/// Why several scripts aren't taken.
pub(crate) const NOT_SEVERAL: &str =
    "several scripts want --expect or --update; beside these and --tap goes --threads alone";

/// The command with the options that compare answers, tell that as TAP, and write them into scripts.
pub(crate) fn with_answers<'a>(
    alloc: Global,
    command: Command<'a>,
) -> Result<Command<'a>, AllocError> {
    let expect = Arg::new(alloc, "expect")
        .long("expect")
        .action(ArgAction::SetTrue)
        .help("Compares the replies with those that comments expect: #= REPLY behind a call");
    let tap = Arg::new(alloc, "tap")
        .long("tap")
        .action(ArgAction::SetTrue)
        .requires_arg("expect")?
        .help("Tells of each script whether it answers as expected in TAP, instead of the trace");
    let update = Arg::new(alloc, "update")
        .long("update")
        .action(ArgAction::SetTrue)
        .conflicts_with("threads")?
        .conflicts_with("echo")?
        .conflicts_with("expect")?
        .conflicts_with("check")?
        .help("Writes the replies into the scripts, as comments behind the calls: #= REPLY");
    command.arg(expect)?.arg(tap)?.arg(update)
}

/// The scripts, where each is told of by itself: several, or one in TAP or to be updated.
pub(crate) fn several_of<'a>(
    alloc: Global,
    matches: &ArgMatches<'a>,
) -> Result<Option<Vec<&'a str>>, AllocError> {
    let each = matches.get_flag("tap") || matches.get_flag("update");
    match matches.get_strs("SCRIPT") {
        Some(names) if names.len() > 1 || each => Ok(Some(Vec::from_slice(alloc, names)?)),
        _ => Ok(None),
    }
}

/// Whether the options are those that go with several scripts.
pub(crate) fn allows_several(matches: &ArgMatches<'_>) -> bool {
    let prints = matches.get_flag("echo")
        || matches.get_flag("json")
        || matches.get_flag("sequence");
    let views = matches.get_str("audit").is_some()
        || matches.get_str("holders").is_some()
        || matches.get_str("dot").is_some()
        || matches.get_str("html").is_some();
    let runs = matches.get_flag("check")
        || matches.get_flag("orders")
        || matches.get_flag("follow")
        || matches.get_str("order").is_some();
    let asked = matches.get_flag("expect") || matches.get_flag("update");
    asked && !prints && !views && !runs
}
