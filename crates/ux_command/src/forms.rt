//! The options for what is printed of a run, and when. Each is made by a function of its own, so that none owes the drops of all.
use clap::{Arg, ArgAction, Command};
use std::alloc::{AllocError, Global};

/// An option without a value.
fn switch<'a>(alloc: Global, name: &'static str, help: &'static str) -> Arg<'a> {
    Arg::new(alloc, name)
        .long(name)
        .action(ArgAction::SetTrue)
        .help(help)
}

fn json<'a>(alloc: Global) -> Result<Arg<'a>, AllocError> {
    switch(alloc, "json", JSON)
        .conflicts_with("echo")?
        .conflicts_with("orders")?
        .conflicts_with("dot")?
        .conflicts_with("sequence")
}

fn text<'a>(alloc: Global) -> Result<Arg<'a>, AllocError> {
    switch(alloc, "text", TEXT)
        .conflicts_with("json")?
        .conflicts_with("follow")
}

fn words<'a>(alloc: Global) -> Result<Arg<'a>, AllocError> {
    switch(alloc, "words", WORDS)
        .requires_arg("audit")?
        .conflicts_with("json")
}

fn follow<'a>(alloc: Global) -> Result<Arg<'a>, AllocError> {
    switch(alloc, "follow", FOLLOW)
        .conflicts_with("threads")?
        .conflicts_with("order")?
        .conflicts_with("orders")?
        .conflicts_with("echo")?
        .conflicts_with("expect")?
        .conflicts_with("json")?
        .conflicts_with("dot")?
        .conflicts_with("sequence")
}

/// The command with the options for JSON, for text and words, and for a script that is run as it comes.
pub(crate) fn with_forms<'a>(
    alloc: Global,
    command: Command<'a>,
) -> Result<Command<'a>, AllocError> {
    command
        .arg(json(alloc)?)?
        .arg(text(alloc)?)?
        .arg(words(alloc)?)?
        .arg(follow(alloc)?)
}

const JSON: &str =
    "Prints each call, and what else is told, as a JSON value a line, instead of the trace";

const TEXT: &str = "Prints the bytes of replies as text, where they can be read so: got 2 \"ok\"";

const WORDS: &str = "Tells in words how each descriptor came to its process, as at a terminal";

const FOLLOW: &str =
    "Makes each line's call and prints it as soon as the line is read, and goes on behind a bad line";
