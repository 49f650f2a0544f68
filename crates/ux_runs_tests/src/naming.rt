//! Scripts with names, and the scripts without names that they stand for.

use crate::beside::kernel_of;
use std::alloc::Global;
use std::process::Abort;
use std::test::Fail;
use ux_script_names::{NameFault, NamedScript, as_typed};

/// A script with names, and the same without.
const ROWS: &[(&str, &str)] = &[
    // Processes: first in a line, behind wait, and as a number of credentials. Numbers go on to work.
    (
        "proc server 1000 1000 0 16\nproc 0 0 1 16\nproc _c3 7 7 0 4\nserver pair stream - -> a b\nserver wait _c3 0\nserver send $a - 78 c:$server,1000,1000 -\n2 exit\n",
        "proc 1000 1000 0 16\nproc 0 0 1 16\nproc 7 7 0 4\n1 pair stream -\n1 wait 3 0\n1 send 0 - 78 c:1,1000,1000 -\n2 exit\n",
    ),
    // What calls give: both of a pair, a copy, an accept's number, the rights that came; each process has its own names.
    (
        "serial\nproc s 1000 1000 0 16\nproc c 1000 1000 0 16\ns socket stream - -> l\ns bind $l a:x\ns listen $l 4\nc pair dgram - -> l conn\nc socket stream - -> conn\nc connect $conn a:x\ns accept $l - -> conn\nc send $conn - 78 r:$l,$conn,0 -\ns recv $conn 8 rights:3 - -> dgram own\ns dup $own -> copy\ns close $copy\n",
        "serial\nproc 1000 1000 0 16\nproc 1000 1000 0 16\n1 socket stream -\n1 bind 0 a:x\n1 listen 0 4\n2 pair dgram -\n2 socket stream -\n2 connect 2 a:x\n1 accept 0 -\n2 send 2 - 78 r:0,2,0 -\n1 recv 1 8 32 -\n1 dup 3\n1 close 5\n",
    ),
    // A name is set anew, and says the number that was given last.
    (
        "proc p 1000 1000 0 16\np pair stream - -> a b\np pair stream - -> a b\np close $a\np send $b - - - -\n",
        "proc 1000 1000 0 16\n1 pair stream -\n1 pair stream -\n1 close 2\n1 send 3 - - - -\n",
    ),
    // A child is named, and has the names of its parent, as it has the numbers.
    (
        "serial\nproc p 1000 1000 0 16\np pair stream - -> a b\np fork -> child\nchild send $a - 78 - -\nchild fork -> grandchild\ngrandchild recv $b 8 0 -\np close $a\nchild close $a\n",
        "serial\nproc 1000 1000 0 16\n1 pair stream -\n1 fork\n2 send 0 - 78 - -\n2 fork\n3 recv 1 8 0 -\n1 close 0\n2 close 0\n",
    ),
    // A name stays where its number is copied, and where another is closed; a path may have a dollar sign, and text an arrow.
    (
        "proc p 1000 1000 0 16\np pair stream - -> a b\np close $b\np dup $a\np send $a p:$a,$b \" -> c\" - -\n# $a -> b\np open p:$a r -\n",
        "proc 1000 1000 0 16\n1 pair stream -\n1 close 1\n1 dup 0\n1 send 0 p:$a,$b 202d3e2063 - -\n# $a -> b\n1 open p:$a r -\n",
    ),
    // In the list of a poll, also among numbers.
    (
        "proc p 1000 1000 0 16\np pair stream - -> a b\np polls $a:io,1:-,$b:h now\np polls 0:i,$b:i wait\np close $b\n",
        "proc 1000 1000 0 16\n1 pair stream -\n1 polls 0:io,1:-,1:h now\n1 polls 0:i,1:i wait\n1 close 1\n",
    ),
    // What a reply is expected to say.
    (
        "proc p 1000 1000 0 16\np pair stream - -> a b\n#= fds $a $b\np dup $b -> c\n# = fd $c\np close 9\n#=\n",
        "proc 1000 1000 0 16\n1 pair stream -\n#= fds 0 1\n1 dup 1\n#= fd 2\n1 close 9\n#=\n",
    ),
    // Lines behind one at fault stay as they are, and so does a script without names.
    (
        "proc p 1000 1000 0 16\np pair stream -\np clone 0\np close $a",
        "proc 1000 1000 0 16\n1 pair stream -\n1 clone 0\np close $a",
    ),
    (
        "proc 1000 1000 0 16\n1 pair stream -\n\n1 close 0",
        "proc 1000 1000 0 16\n1 pair stream -\n\n1 close 0",
    ),
];

/// The script without names that a text stands for.
fn plain(alloc: Global, text: &str) -> Result<Result<Vec<u8>, NameFault>, Fail> {
    let named = match NamedScript::read(alloc, text.as_bytes()) {
        Ok(named) => named,
        Err(fault) => return Ok(Err(fault)),
    };
    let kernel = kernel_of(alloc, named.script())?;
    Ok(named.plain_text(alloc, kernel))
}

#[test]
fn names_stand_for_numbers(rt: HostRuntime) -> Result<(), Fail> {
    for (text, wanted) in ROWS {
        let written = plain(rt.alloc(), text)?;
        assert!(rt;
            written.is_ok_and(|plain| plain.as_slice() == wanted.as_bytes()),
            "{text}"
        );
    }
    Ok(())
}

/// A script whose names are at fault behind a header of one process p, and what is said of it.
const FAULTS: &[(&str, &str)] = &[
    ("p close $a\n", "line 2: nothing is named a"),
    (
        "p pair stream - -> a b\np send $a - - r:$c -\n",
        "line 3: nothing is named c",
    ),
    (
        "p accept 7 - -> a\np close $a\n",
        "line 3: nothing is named a: the call of line 2 gave nothing for it",
    ),
    (
        "p dup 7 -> a\np pair stream - -> a\np close 0\np close $a\n",
        "line 5: a, which line 3 names, is closed, or its number leads elsewhere",
    ),
    (
        "p pair stream - -> a b\np dup2 $a 1\np close $b\n",
        "line 4: b, which line 2 names, is closed, or its number leads elsewhere",
    ),
    (
        "p pair stream - -> a b c\np close $c\n",
        "line 3: nothing is named c: the call of line 2 gave nothing for it",
    ),
    (
        "p pair stream - -> a 2b\n",
        "line 2: 2b is no name: a letter or _, and behind it letters, digits and _",
    ),
    (
        "p pair stream - -> a  b\n",
        "line 2: behind -> stands a name for what the call gives",
    ),
    (
        "p pair stream - ->\n",
        "line 2: behind -> stands a name for what the call gives",
    ),
    (
        "proc p 1 1 0 4\n",
        "line 2: p is taken: a process, or a line of another kind, begins so",
    ),
    (
        "proc wide 1 1 0 4\n",
        "line 2: wide is taken: a process, or a line of another kind, begins so",
    ),
    (
        "proc off 1 1 0 4\n",
        "line 2: off is taken: a process, or a line of another kind, begins so",
    ),
    (
        "p fork -> p\n",
        "line 2: p is taken: a process, or a line of another kind, begins so",
    ),
];

#[test]
fn a_name_without_a_meaning_is_a_fault(rt: HostRuntime) -> Result<(), Fail> {
    let alloc = rt.alloc();
    for (text, wanted) in FAULTS {
        let whole = format!(in alloc; "proc p 1000 1000 0 16\n{text}")?;
        match plain(alloc, whole.as_str())? {
            Ok(_) => return Err(Fail::from("no fault")),
            Err(fault) => {
                let told = fault.to_string(alloc)?;
                assert!(rt; told.as_str() == *wanted, "{told}");
            }
        }
    }
    Ok(())
}

/// A script as it is typed, how it is read, and whether it has the line `wide`.
const TYPED: &[(&str, &str, bool)] = &[
    ("", "", false),
    (
        "wide\nproc  0 0 0 4\n1 pipe - # two ends",
        "serial\nproc 0 0 0 4\n1 pipe -",
        true,
    ),
    (
        "# any order\n\n  wide # all calls\nproc 0 0 0 4\n",
        "# any order\n\nserial\nproc 0 0 0 4\n",
        true,
    ),
    ("wide", "serial", true),
    // Constants of manual pages, alone and joined, and numbers of hexadecimal digits; text and comments stay.
    (
        "1 socket SOCK_STREAM SOCK_CLOEXEC|SOCK_NONBLOCK\n1 open p:a O_RDWR O_APPEND\n1 lseek 0 0x10 SEEK_END",
        "1 socket stream nx\n1 open p:a rw a\n1 lseek 0 16 end",
        false,
    ),
    (
        "1 send 0 - \"a SOCK_DGRAM 0x10 \\\" SHUT_RD\" - MSG_DONTWAIT # SEEK_SET\n# SEEK_CUR 0x10",
        "1 send 0 - \"a SOCK_DGRAM 0x10 \\\" SHUT_RD\" - d\n# SEEK_CUR 0x10",
        false,
    ),
    (
        "1 eventfd 0xff EFD_SEMAPHORE|EFD_CLOEXEC\n1 recv 0 0x 0 MSG_PEEK|O_WHAT\n1 bind 0 p:O_RDWR",
        "1 eventfd 255 xs\n1 recv 0 0x 0 MSG_PEEK|O_WHAT\n1 bind 0 p:O_RDWR",
        false,
    ),
    // A poll of descriptors with conditions behind colons, in words, constants and letters, which waits unless `now` is last.
    (
        "1 poll 3:in  4:POLLIN|POLLOUT 5:- # all\n1 poll 3:rdhup|in now\n1 poll 3:ioh now",
        "1 polls 3:i,4:io,5:- wait\n1 polls 3:ih now\n1 polls 3:ioh now",
        false,
    ),
    (
        "1 poll 3\n1 poll 3 now\n1 poll 3:what 4 5:in|what\n1 polls 3:i now\n# 1 poll 3:in",
        "1 poll 3\n1 poll 3 now\n1 polls 3:what,4,5:in|what wait\n1 polls 3:i now\n# 1 poll 3:in",
        false,
    ),
    ("wider\n", "wider\n", false),
    ("serial\nwide\n", "serial\nwide\n", false),
    ("proc 0 0 0 4\nwide\n", "proc 0 0 0 4\nwide\n", false),
];

#[test]
fn a_wide_script_is_read_as_a_serial_one(rt: HostRuntime) -> Result<(), Fail> {
    for (text, wanted, wide) in TYPED {
        let typed = as_typed(rt.alloc(), text.as_bytes())?;
        assert!(rt; typed.text.as_slice() == wanted.as_bytes(), "{text}");
        assert!(rt; typed.wide == *wide, "{text}");
        let constants = text.contains("SOCK_") || text.contains("0xff") || text.contains("poll 3:");
        assert!(rt; typed.constants == constants, "{text}");
    }
    Ok(())
}
