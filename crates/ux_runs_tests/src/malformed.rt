//! Texts that are no scripts, or scripts that no kernel starts with, read and started as the program does it.
use std::alloc::{AllocError, Global};
use std::process::Abort;
use std::test::Fail;
use ux_command::CommandFault;
use ux_kernel::{Kernel, Seed};
use ux_script::objects_of;
use ux_syntax::parse_script;

/// Reads a script and starts a kernel with it.
fn start(alloc: Global, text: &[u8]) -> Result<(), CommandFault> {
    let script = parse_script(alloc, text)?;
    let objects = objects_of(alloc, &script, false)?;
    let most = script.object_limit();
    match Kernel::boot_with_seed(alloc, Seed::fixed(), most, objects, &script.procs) {
        Ok(_kernel) => Ok(()),
        Err((fault, _objects)) => Err(CommandFault::from(fault)),
    }
}

/// Sees what is reported of a text; nothing of one that starts a kernel.
fn expect_report(
    rt: &impl Abort,
    alloc: Global,
    text: &[u8],
    reported: &str,
) -> Result<(), AllocError> {
    let found = match start(alloc, text) {
        Ok(()) => String::new(alloc),
        Err(fault) => fault.to_string(alloc)?,
    };
    assert_eq!(rt; found.as_str(), reported);
    Ok(())
}

/// Texts that are no scripts, and what is reported of each.
const FAULTS: &[(&str, &str)] = &[
    // A receive has flags, and a process is privileged or not.
    ("proc 0 0 1 16\n1 recv 0 8 64\n", "line 2: bad line"),
    ("proc 0 0 2 16\n", "line 1: bad line"),
    // The header comes first, and nothing of a process after its exit.
    (
        "proc 0 0 1 16\n1 dup 0\nproc 0 0 1 16\n",
        "line 3: bad line",
    ),
    (
        "proc 0 0 1 16\n1 dup 0\nobject p:f pipe\n",
        "line 3: bad line",
    ),
    ("proc 0 0 1 16\n1 exit\n1 dup 0\n", "line 3: bad line"),
    // One blank stands between words, and none at either end.
    ("proc 0 0 1 16\n1 dup  0\n", "line 2: bad line"),
    ("proc 0 0 1 16\n1 dup 0 \n", "line 2: bad line"),
    ("proc 0 0 1 16\n 1 dup 0\n", "line 2: bad line"),
    ("proc 0 0 1 16\n1\tdup 0\n", "line 2: bad line"),
    // Digits are of 0-9a-f.
    ("proc 0 0 1 16\n1 write 0 AB\n", "line 2: bad line"),
    ("proc 0 0 1 16\n1 write 0 abc\n", "line 2: bad line"),
    // An object fails at a call from the first on, and keeps its form behind that.
    ("object p:f fail 0 mem -\n", "line 1: bad line"),
    ("object p:f fail 01 counter\n", "line 1: bad line"),
    ("object p:f fail -1 counter\n", "line 1: bad line"),
    ("object p:f fail 4294967296 pipe\n", "line 1: bad line"),
    ("object p:f fail mem -\n", "line 1: bad line"),
    ("object p:f fail 1\n", "line 1: bad line"),
    ("object p:f fail 1 mem\n", "line 1: bad line"),
    ("object p:f fail 1 pipe -\n", "line 1: bad line"),
    ("object p:f fail 1 fail 1 pipe\n", "line 1: bad line"),
    ("object p:f pipe fail 1\n", "line 1: bad line"),
    ("object fail 1 p:f pipe\n", "line 1: bad line"),
    ("object p:f fail 4294967295 mem 00\n", ""),
    ("object p:f fail 1 counter\nobject p:g fail 1 pipe\n", ""),
    // A name that isn't a path, one that stands twice, and what is no name at all.
    ("object p: counter\n", "boot fault 6"),
    ("object p:%00 counter\n", "boot fault 6"),
    ("object p:f counter\nobject p:f pipe\n", "boot fault 3"),
    ("object a:f counter\n", "line 1: bad line"),
    ("object u counter\n", "line 1: bad line"),
    // A process is one of the header's.
    ("1 dup 0\n", "line 1: unknown process"),
    ("proc 0 0 1 16\n0 dup 0\n", "line 2: unknown process"),
    ("proc 0 0 1 16\n2 dup 0\n", "line 2: unknown process"),
    ("proc 0 0 1 16\n1 wait 2 1\n", "line 2: unknown process"),
    ("proc 0 0 1 16\n1 wait 0 1\n", "line 2: unknown process"),
    // Nothing but empty lines and comments comes after the end.
    ("off\noff\n", "line 2: bad line"),
    ("proc 0 0 1 16\noff\n1 dup 0\n", "line 3: bad line"),
    ("off\n\n# the end\n", ""),
    ("", ""),
];

#[test]
fn a_text_that_is_no_script_is_reported(rt: HostRuntime) -> Result<(), Fail> {
    for (text, reported) in FAULTS {
        expect_report(&rt, rt.alloc(), text.as_bytes(), reported)?;
    }
    Ok(())
}

/// A comment of so many bytes, which ends the text or a line.
fn comment(alloc: Global, length: usize, end: &[u8]) -> Result<Vec<u8>, AllocError> {
    let mut text = vec![in alloc; b'#'; length]?;
    text.extend_from_slice(end)?;
    Ok(text)
}

/// Lengths of a comment, what ends it, and what is reported.
const COMMENTS: &[(usize, &str, &str)] = &[
    (4096, "", ""),
    (4096, "\n", ""),
    (4097, "", "line 1: too long"),
    (4097, "\n", "line 1: too long"),
    (4097, "\n1 dup 0\n", "line 1: too long"),
    (4096, "\n1 dup 0\n", "line 2: unknown process"),
];

#[test]
fn a_line_has_4096_bytes_at_most(rt: HostRuntime) -> Result<(), Fail> {
    let alloc = rt.alloc();
    for (length, end, reported) in COMMENTS {
        let text = comment(alloc, *length, end.as_bytes())?;
        expect_report(&rt, alloc, &text, reported)?;
    }
    Ok(())
}

/// A header with so many file objects and processes, behind this line.
fn header(alloc: Global, first: &str, objects: usize, procs: usize) -> Result<String, AllocError> {
    let mut text = String::new(alloc);
    text.push_str(first)?;
    for number in 0..objects {
        text.push_str(&format!(in alloc; "object p:{number} counter\n")?)?;
    }
    for _ in 0..procs {
        text.push_str("proc 1000 1000 0 16\n")?;
    }
    Ok(text)
}

/// What stands first, how many file objects and processes there are, and what is reported.
const HEADERS: &[(&str, usize, usize, &str)] = &[
    ("", 64, 64, ""),
    ("", 65, 1, "boot fault 1"),
    ("", 1, 65, "boot fault 2"),
    ("", 65, 65, "boot fault 1"),
    ("serial\n", 65, 64, ""),
    ("serial\n", 4096, 1, ""),
    ("serial\n", 4097, 1, "boot fault 1"),
    ("serial\n", 65, 65, "boot fault 2"),
];

#[test]
fn a_kernel_has_64_processes_at_most_and_4096_objects_behind_serial(
    rt: HostRuntime,
) -> Result<(), Fail> {
    let alloc = rt.alloc();
    for (first, objects, procs, reported) in HEADERS {
        let text = header(alloc, first, *objects, *procs)?;
        expect_report(&rt, alloc, text.as_bytes(), reported)?;
    }
    Ok(())
}
