//! Makes the calls that a supervisor asks for line by line, and tells what each of them changed.
#![tactic(auto)]

mod answers;
mod asked;
mod blocks;
mod fault;
mod machine;
mod server;
mod source;

use clap::error::ErrorKind;
use clap::{Command, Error};
use fault::ServeFault;
use server::serve;
use source::Lines;
use std::alloc::{AllocError, Global};
use std::io::{BufReader, BufWriter};
use std::process::ExitCode;
use std::random::RandomSource;
use std::{env, io};
use ux_syntax::ScriptFault;

/// What `--version` prints behind the program's name.
const VERSION: &str = "0.5.0";

/// What `--help` says of the program.
const ABOUT: &str =
    "Makes calls of an AF_UNIX socket layer line by line, and tells what each has changed";

/// The exit status where the command line wasn't understood, as clap has it.
const NOT_UNDERSTOOD: u8 = 2;

/// Answers the lines of standard input on standard output, up to the end.
fn run<R: Input + Print + RandomSource + AllocGlobal>(rt: &R) -> Result<(), ServeFault> {
    let alloc: Global = rt.alloc();
    let reader = BufReader::new(alloc, rt.reader()).map_err(|_| AllocError)?;
    let mut writer = BufWriter::new(alloc, io::writer(rt)).map_err(|_| AllocError)?;
    serve(rt, &mut Lines::new(reader), &mut writer)
}

/// Prints why the program didn't come to the end of its input.
fn failed(rt: &impl Eprint, fault: &ServeFault) -> ExitCode {
    let _ = eprintln!(rt; "uxserve: {fault}");
    ExitCode::FAILURE
}

/// Reads the words of a command line, which has no options but those of clap.
fn read_words(alloc: Global, words: &[String]) -> Result<(), Error> {
    let mut command = Command::new(alloc, "uxserve").about(ABOUT).version(VERSION);
    command.try_get_matches_from_mut(words)?;
    Ok(())
}

/// Prints why the command line wasn't understood, or what was asked of the program itself.
fn answered<R: Print + Eprint>(rt: &R, error: &Error) -> ExitCode {
    if error.print(rt).is_err() && !error.use_stderr() {
        return failed(rt, &ServeFault::Script(ScriptFault::Writing));
    }
    ExitCode::from(error.exit_code() as u8)
}

/// Reports why the command line has no valid words.
fn no_words(rt: &impl Eprint, error: &io::Error) -> ExitCode {
    if error.kind() == io::ErrorKind::OutOfMemory {
        return failed(rt, &ServeFault::Script(ScriptFault::NoMemory));
    }
    let _ = eprintln!(rt; "uxserve: an argument isn't UTF-8");
    ExitCode::from(NOT_UNDERSTOOD)
}

fn main(rt: HostRuntime) -> ExitCode {
    let no_memory = ServeFault::Script(ScriptFault::NoMemory);
    let words = match env::args(&rt) {
        Ok(words) => words,
        Err(error) => return no_words(&rt, &error),
    };
    let Ok(words) = words.collect::<Vec<String>>(rt.alloc()) else {
        return failed(&rt, &no_memory);
    };
    match read_words(rt.alloc(), words.as_slice()) {
        Ok(()) => {}
        Err(error) if error.kind() == ErrorKind::OutOfMemory => return failed(&rt, &no_memory),
        Err(error) => return answered(&rt, &error),
    }
    match run(&rt) {
        Ok(()) => ExitCode::SUCCESS,
        Err(fault) => failed(&rt, &fault),
    }
}
