//! Command lines, and the texts of faults.
use clap::error::ErrorKind;
use hoard::Purse;
use std::alloc::{AllocError, Global};
use std::process::Abort;
use std::test::Fail;
use ux_command::{CommandFault, Orders, Point, read_args};
use ux_kernel::BootFault;
use ux_object::ObjError;
use ux_syntax::ScriptFault;
use ux_types::{Fd, Pid};

fn texts(alloc: Global, words: &[&str]) -> Result<Vec<String>, AllocError> {
    let mut texts = Vec::new(alloc);
    for word in words {
        texts.push(String::from_str(alloc, word)?)?;
    }
    Ok(texts)
}

#[test]
fn a_script_is_named(rt: HostRuntime) -> Result<(), Fail> {
    for name in ["-", "a", "a/b.ux"] {
        let words = texts(rt.alloc(), &["uxrun", name])?;
        let Ok(args) = read_args(rt.alloc(), words.as_slice()) else {
            return Err(Fail::from("not understood"));
        };
        assert_eq!(rt; args.script, name);
        assert!(rt; !args.check && !args.threads && args.audit.is_none());
        assert!(rt; !args.echo && !args.expect);
    }
    Ok(())
}

#[test]
fn a_moment_is_asked_for(rt: HostRuntime) -> Result<(), Fail> {
    for (text, point) in [
        ("0", Point::Calls(0)),
        ("9", Point::Calls(9)),
        ("4294967295", Point::Calls(u32::MAX)),
        ("line:7", Point::Line(7)),
        ("end", Point::End),
        ("all", Point::All),
    ] {
        let words = texts(
            rt.alloc(),
            &["uxrun", "--audit", text, "--holders", text, "a.ux"],
        )?;
        let Ok(args) = read_args(rt.alloc(), words.as_slice()) else {
            return Err(Fail::from("not understood"));
        };
        assert!(rt; args.audit == Some(point) && args.holders == Some(point));
        assert!(rt; args.dot.is_none() && !args.sequence && args.script == "a.ux");
    }
    Ok(())
}

/// The lines of five calls, of which the third and the last are exits that the run added.
const LINES: [Option<usize>; 5] = [Some(4), Some(7), None, Some(6), None];

#[test]
fn a_moment_is_so_many_calls(rt: HostRuntime) {
    for (point, count) in [
        (Point::Calls(2), 2),
        (Point::Calls(9), 5),
        (Point::Line(4), 1),
        (Point::Line(6), 4),
        (Point::End, 4),
        (Point::All, 5),
    ] {
        assert!(rt;
            point.count(&LINES).is_ok_and(|found| found == count),
            "{count}"
        );
    }
    assert!(rt; matches!(Point::Line(5).count(&LINES), Err(CommandFault::NoCall(5))));
    assert!(rt; Point::End.count(&[]).is_ok_and(|found| found == 0));
}

#[test]
fn what_is_no_moment_is_refused(rt: HostRuntime) -> Result<(), Fail> {
    for text in [
        "",
        "07",
        "+7",
        "7x",
        "4294967296",
        "line:",
        "line:07",
        "line",
        "End",
    ] {
        let words = texts(rt.alloc(), &["uxrun", "--audit", text, "a.ux"])?;
        let reported = read_args(rt.alloc(), words.as_slice())
            .err()
            .ok_or("understood")?;
        assert_eq!(rt; reported.exit_code(), 2);
    }
    Ok(())
}

#[test]
fn a_number_below_0_is_refused_as_a_value(rt: HostRuntime) -> Result<(), Fail> {
    for (option, value) in [("--audit", "-1"), ("--order", "-2"), ("--limit", "-3")] {
        let words = texts(rt.alloc(), &["uxrun", option, value, "a.ux"])?;
        let reported = read_args(rt.alloc(), words.as_slice())
            .err()
            .ok_or("understood")?;
        assert!(rt; reported.kind() == ErrorKind::ValueValidation, "{option}");
        let text = format!(in rt.alloc(); "{reported}")?;
        assert!(rt;
            text.starts_with("error: WHEN, ORDER and N aren't below 0\n"),
            "{text}"
        );
    }
    let words = texts(rt.alloc(), &["uxrun", "-1", "a.ux"])?;
    let reported = read_args(rt.alloc(), words.as_slice())
        .err()
        .ok_or("understood")?;
    assert!(rt; reported.kind() == ErrorKind::UnknownArgument);
    Ok(())
}

#[test]
fn several_scripts_go_with_what_is_expected(rt: HostRuntime) -> Result<(), Fail> {
    let words = texts(rt.alloc(), &["uxrun", "--expect", "a.ux", "b.ux", "-"])?;
    let Ok(args) = read_args(rt.alloc(), words.as_slice()) else {
        return Err(Fail::from("not understood"));
    };
    let several = args.several.ok_or("one script")?;
    assert_eq!(rt; several.as_slice(), ["a.ux", "b.ux", "-"].as_slice());
    for option in ["--check", "--json", "--orders", "--sequence"] {
        let words = texts(rt.alloc(), &["uxrun", "--expect", option, "a.ux", "b.ux"])?;
        let reported = read_args(rt.alloc(), words.as_slice())
            .err()
            .ok_or("understood")?;
        assert_eq!(rt; reported.exit_code(), 2);
    }
    let words = texts(rt.alloc(), &["uxrun", "a.ux", "b.ux"])?;
    let reported = read_args(rt.alloc(), words.as_slice())
        .err()
        .ok_or("understood")?;
    assert!(rt; reported.kind() == ErrorKind::ArgumentConflict);
    Ok(())
}

#[test]
fn one_script_is_told_of_by_itself_too(rt: HostRuntime) -> Result<(), Fail> {
    for (options, tap, update) in [
        (["--expect", "--tap"].as_slice(), true, false),
        (["--update"].as_slice(), false, true),
    ] {
        let mut words = texts(rt.alloc(), &["uxrun"])?;
        words.extend(texts(rt.alloc(), options)?)?;
        words.push(String::from_str(rt.alloc(), "a.ux")?)?;
        let Ok(args) = read_args(rt.alloc(), words.as_slice()) else {
            return Err(Fail::from("not understood"));
        };
        assert!(rt; args.tap == tap && args.update == update);
        let several = args.several.ok_or("none")?;
        assert_eq!(rt; several.as_slice(), ["a.ux"].as_slice());
    }
    let words = texts(rt.alloc(), &["uxrun", "--tap", "a.ux"])?;
    let reported = read_args(rt.alloc(), words.as_slice())
        .err()
        .ok_or("understood")?;
    assert!(rt; reported.kind() == ErrorKind::MissingRequiredArgument);
    Ok(())
}

#[test]
fn text_and_words_are_asked_for(rt: HostRuntime) -> Result<(), Fail> {
    let words = texts(
        rt.alloc(),
        &["uxrun", "--text", "--words", "--audit", "end", "a.ux"],
    )?;
    let Ok(args) = read_args(rt.alloc(), words.as_slice()) else {
        return Err(Fail::from("not understood"));
    };
    assert!(rt; args.text && args.words && args.audit == Some(Point::End));
    assert!(rt; !args.may_follow() && args.script == "a.ux");
    for (options, kind) in [
        (["--words"].as_slice(), ErrorKind::MissingRequiredArgument),
        (["--text", "--json"].as_slice(), ErrorKind::ArgumentConflict),
        (
            ["--text", "--follow"].as_slice(),
            ErrorKind::ArgumentConflict,
        ),
    ] {
        let mut words = texts(rt.alloc(), &["uxrun"])?;
        words.extend(texts(rt.alloc(), options)?)?;
        words.push(String::from_str(rt.alloc(), "a.ux")?)?;
        let reported = read_args(rt.alloc(), words.as_slice())
            .err()
            .ok_or("understood")?;
        assert!(rt; reported.kind() == kind);
    }
    Ok(())
}

#[test]
fn a_page_is_written_besides(rt: HostRuntime) -> Result<(), Fail> {
    let words = texts(
        rt.alloc(),
        &["uxrun", "--html", "run.html", "--check", "a.ux"],
    )?;
    let Ok(args) = read_args(rt.alloc(), words.as_slice()) else {
        return Err(Fail::from("not understood"));
    };
    assert!(rt; args.html == Some("run.html") && args.check && args.script == "a.ux");
    let words = texts(rt.alloc(), &["uxrun", "--html", "a.ux"])?;
    let reported = read_args(rt.alloc(), words.as_slice())
        .err()
        .ok_or("understood")?;
    assert!(rt; reported.kind() == ErrorKind::MissingRequiredArgument);
    Ok(())
}

#[test]
fn a_script_that_an_option_took_is_missed(rt: HostRuntime) -> Result<(), Fail> {
    let words = texts(rt.alloc(), &["uxrun", "--check", "--audit", "-"])?;
    let reported = read_args(rt.alloc(), words.as_slice())
        .err()
        .ok_or("understood")?;
    let text = format!(in rt.alloc(); "{reported}")?;
    assert!(rt; reported.kind() == ErrorKind::MissingRequiredArgument);
    assert!(rt;
        text.contains("the last word is the value of the option before it"),
        "{text}"
    );
    let words = texts(rt.alloc(), &["uxrun", "--check"])?;
    let reported = read_args(rt.alloc(), words.as_slice())
        .err()
        .ok_or("understood")?;
    let text = format!(in rt.alloc(); "{reported}")?;
    assert!(rt; !text.contains("the last word"), "{text}");
    Ok(())
}

#[test]
fn a_check_is_asked_for(rt: HostRuntime) -> Result<(), Fail> {
    let words = texts(rt.alloc(), &["uxrun", "--check", "a.ux"])?;
    let Ok(args) = read_args(rt.alloc(), words.as_slice()) else {
        return Err(Fail::from("not understood"));
    };
    assert!(rt; args.check);
    assert_eq!(rt; args.script, "a.ux");
    Ok(())
}

#[test]
fn threads_are_asked_for(rt: HostRuntime) -> Result<(), Fail> {
    let words = texts(rt.alloc(), &["uxrun", "--threads", "--check", "a.ux"])?;
    let Ok(args) = read_args(rt.alloc(), words.as_slice()) else {
        return Err(Fail::from("not understood"));
    };
    assert!(rt; args.threads && args.check);
    assert_eq!(rt; args.script, "a.ux");
    Ok(())
}

#[test]
fn an_echo_and_a_comparison_are_asked_for(rt: HostRuntime) -> Result<(), Fail> {
    for (word, echo, expect) in [("--echo", true, false), ("--expect", false, true)] {
        let words = texts(rt.alloc(), &["uxrun", word, "a.ux"])?;
        let Ok(args) = read_args(rt.alloc(), words.as_slice()) else {
            return Err(Fail::from("not understood"));
        };
        assert!(rt; args.echo == echo && args.expect == expect);
        assert!(rt; !args.check && !args.threads && args.script == "a.ux");
    }
    Ok(())
}

/// What is asked for beside `--orders`, and which orders are made then.
const ALL_ORDERS: &[(&[&str], Orders)] = &[
    (
        &["uxrun", "--orders", "--outcomes", "a.ux"],
        Orders {
            limit: 1_000_000,
            each: false,
            brief: true,
        },
    ),
    (
        &["uxrun", "--orders", "a.ux"],
        Orders {
            limit: 1_000_000,
            each: false,
            brief: false,
        },
    ),
    (
        &["uxrun", "--orders", "--limit", "0", "a.ux"],
        Orders {
            limit: 0,
            each: false,
            brief: false,
        },
    ),
    (
        &["uxrun", "--each", "--orders", "--limit=7", "a.ux"],
        Orders {
            limit: 7,
            each: true,
            brief: false,
        },
    ),
];

#[test]
fn all_orders_are_asked_for(rt: HostRuntime) -> Result<(), Fail> {
    for (words, orders) in ALL_ORDERS {
        let words = texts(rt.alloc(), words)?;
        let Ok(args) = read_args(rt.alloc(), words.as_slice()) else {
            return Err(Fail::from("not understood"));
        };
        assert!(rt; args.orders == Some(*orders) && args.order.is_none());
        assert_eq!(rt; args.script, "a.ux");
    }
    for option in ["--each", "--limit=7", "--outcomes"] {
        let words = texts(rt.alloc(), &["uxrun", option, "a.ux"])?;
        let reported = read_args(rt.alloc(), words.as_slice())
            .err()
            .ok_or("understood")?;
        assert!(rt; reported.kind() == ErrorKind::MissingRequiredArgument);
    }
    Ok(())
}

#[test]
fn other_command_lines_are_refused(rt: HostRuntime) -> Result<(), Fail> {
    let none = ["uxrun"];
    let two = ["uxrun", "a", "b"];
    let unknown = ["uxrun", "--thread", "a"];
    let twice = ["uxrun", "--echo", "--echo", "a"];
    let valued = ["uxrun", "--expect=1", "a"];
    for words in [
        none.as_slice(),
        two.as_slice(),
        unknown.as_slice(),
        twice.as_slice(),
        valued.as_slice(),
    ] {
        let words = texts(rt.alloc(), words)?;
        let reported = read_args(rt.alloc(), words.as_slice())
            .err()
            .ok_or("understood")?;
        assert_eq!(rt; reported.exit_code(), 2);
    }
    Ok(())
}

/// The steps in which more memory is left, of 16 bytes each.
const STEPS: usize = 20480;

/// Reads a command line with no memory, and with 16 bytes more while it is refused, and reports how often it was.
fn refusals_of(rt: &impl Abort, alloc: Global, words: &[String]) -> Result<usize, Fail> {
    let mut purse = Purse::new(alloc)?;
    for step in 0..STEPS {
        purse.leave(alloc, step.saturating_mul(16));
        let read = read_args(alloc, words);
        purse.open();
        match read {
            Ok(args) => {
                assert!(rt; args.check && !args.threads);
                assert_eq!(rt; args.script, "a.ux");
                return Ok(step);
            }
            Err(error) => assert!(rt; error.kind() == ErrorKind::OutOfMemory),
        }
    }
    Err(Fail::from("refused with 320 KiB"))
}

#[test]
fn want_of_memory_is_reported_of_a_command_line(rt: HostRuntime) -> Result<(), Fail> {
    let words = texts(rt.alloc(), &["uxrun", "--check", "a.ux"])?;
    let refusals = refusals_of(&rt, rt.alloc(), words.as_slice())?;
    assert!(rt; refusals > 0);
    Ok(())
}

#[test]
fn help_is_no_fault(rt: HostRuntime) -> Result<(), Fail> {
    let words = texts(rt.alloc(), &["uxrun", "--help"])?;
    let reported = read_args(rt.alloc(), words.as_slice())
        .err()
        .ok_or("no help")?;
    assert_eq!(rt; reported.exit_code(), 0);
    Ok(())
}

#[test]
fn faults_have_their_texts(rt: HostRuntime) -> Result<(), Fail> {
    let rows = [
        (
            CommandFault::from(ScriptFault::BadLine(3)),
            "line 3: bad line",
        ),
        (CommandFault::from(ScriptFault::Reading), "reading failed"),
        (CommandFault::from(AllocError), "out of memory"),
        (CommandFault::from(ObjError::NoMemory), "out of memory"),
        (CommandFault::Differs(7), "check differs at 7"),
        (CommandFault::Unexpected, "expect differs"),
        (CommandFault::Audit(Pid(2), Fd(5)), "audit fails at 2 5"),
        (
            CommandFault::Order(3),
            "order: the process at place 3 can't go on",
        ),
        (
            CommandFault::Nobody(1, Pid(9)),
            "order: at place 1 there is no process 9",
        ),
        (CommandFault::Deadlocks(1, 3), "deadlock in 1 of 3 outcomes"),
        (
            CommandFault::UnexpectedIn(2, 3),
            "expect differs in 2 of 3 outcomes",
        ),
        (CommandFault::Limit, "not all orders were made"),
        (CommandFault::Page, "page not written"),
        (CommandFault::Update, "replies not written"),
        (
            CommandFault::Named,
            "names and constants don't go with --update",
        ),
        (CommandFault::NoCall(3), "line 3 makes no call"),
        (CommandFault::LeftOut(2), "left out 2 of the lines"),
    ];
    for (fault, text) in rows {
        assert_eq!(rt; fault.to_string(rt.alloc())?.as_str(), text);
    }
    Ok(())
}

#[test]
fn boot_faults_are_reported_by_their_numbers(rt: HostRuntime) -> Result<(), Fail> {
    let rows = [
        (BootFault::TooManyObjects, "boot fault 1"),
        (BootFault::TooManyProcesses, "boot fault 2"),
        (BootFault::NameTwice, "boot fault 3"),
        (BootFault::ObjectClosed, "boot fault 4"),
        (BootFault::NoMemory, "boot fault 5"),
        (BootFault::BadPath, "boot fault 6"),
    ];
    for (fault, text) in rows {
        assert_eq!(rt;
            CommandFault::from(fault).to_string(rt.alloc())?.as_str(),
            text
        );
    }
    Ok(())
}

/// Command lines that ask for things that exclude each other.
const EXCLUDING: &[[&str; 2]] = &[
    ["--json", "--echo"],
    ["--json", "--orders"],
    ["--follow", "--threads"],
    ["--follow", "--order=7"],
    ["--follow", "--orders"],
    ["--follow", "--echo"],
    ["--follow", "--expect"],
    ["--follow", "--json"],
    ["--follow", "--dot=1"],
    ["--follow", "--sequence"],
    ["--json", "--dot=1"],
    ["--json", "--sequence"],
    ["--update", "--threads"],
    ["--update", "--order=7"],
    ["--update", "--orders"],
    ["--update", "--expect"],
    ["--update", "--check"],
    ["--update", "--html=a"],
];

#[test]
fn json_and_following_are_asked_for(rt: HostRuntime) -> Result<(), Fail> {
    let words = texts(rt.alloc(), &["uxrun", "--json", "--expect", "a.ux"])?;
    let args = read_args(rt.alloc(), words.as_slice())
        .ok()
        .ok_or("not understood")?;
    assert!(rt; args.json && args.expect && !args.follow);
    let words = texts(rt.alloc(), &["uxrun", "--follow", "--check", "-"])?;
    let args = read_args(rt.alloc(), words.as_slice())
        .ok()
        .ok_or("not understood")?;
    assert!(rt; args.follow && args.check && !args.json);
    for [one, other] in EXCLUDING {
        let words = texts(rt.alloc(), &["uxrun", one, other, "-"])?;
        let reported = read_args(rt.alloc(), words.as_slice())
            .err()
            .ok_or("understood")?;
        assert!(rt; reported.kind() == ErrorKind::ArgumentConflict);
    }
    Ok(())
}
