//! Reads each script of `data/`, which is at fault, and compares what `uxrun` writes to standard error with what lies
//! beside it. Then changes valid lines byte by byte, and sees where each goes wrong.
#![tactic(auto)]

mod changed;

use anyhow::{Result, anyhow};
use changed::must_find_changes;
use std::alloc::Global;
use std::fs;
use std::rt::Files;
use ux_explain::{explain, explain_boot, explain_line};
use ux_syntax::{LineReader, ScriptFault, expectations_of, parse_script};

/// Scripts of which a line is at fault.
const LINES: &[&str] = &[
    "unknown_call",
    "swapped_letters",
    "call_that_is_like_none",
    "no_process_number",
    "misspelt_proc",
    "missing_call",
    "missing_field",
    "missing_field_behind_a_blank",
    "further_field",
    "trailing_blank",
    "leading_blank",
    "two_blanks",
    "tab",
    "carriage_return",
    "byte_order_mark",
    "upper_case_hex",
    "odd_digit",
    "odd_digit_before_a_field",
    "no_hex",
    "path_without_p",
    "path_without_a_colon",
    "byte_that_needs_percent",
    "letter_with_percent",
    "tilde_with_percent",
    "upper_case_percent",
    "percent_without_digits",
    "leading_zero",
    "number_too_large",
    "number_with_a_sign",
    "process_number_too_large",
    "offset_too_large",
    "minus_zero",
    "backlog_too_small",
    "unknown_whence",
    "misspelt_type",
    "flags_out_of_order",
    "flag_twice",
    "flag_behind_a_dash",
    "unknown_mode",
    "unknown_option",
    "no_address",
    "send_without_address",
    "three_items",
    "two_items_of_rights",
    "credentials_without_group",
    "no_control_bytes",
    "descriptor_with_a_leading_zero",
    "misspelt_kind",
    "object_without_bytes",
    "fail_zero",
    "unknown_privilege",
    "late_header",
    "line_after_off",
    "late_serial",
    "fork_of_a_second_process",
    "getfl_without_serial",
    "setids_without_serial",
    "setids_without_group",
    "setuid_is_no_call",
    "pipe_without_serial",
    "eventfd_without_flags",
    "semaphore_before_a_flag",
    "pipe2_is_no_call",
    "fork_beyond_1024",
    "line_after_exit",
    "fork_after_exit",
    "unknown_process",
    "process_zero",
    "waits_for_an_unknown_process",
    "line_too_long",
    "fault_in_a_long_line",
    "fault_early_in_a_long_line",
    "expectation_behind_a_wait",
    "expectation_behind_a_comment",
    "text_without_its_end",
    "unknown_escape",
    "upper_case_escape",
    "text_that_runs_on",
    "text_behind_a_text",
    "text_for_a_number",
    "text_for_control",
    "control_text_without_bytes",
    "rights_without_a_number",
    "too_many_rights",
    "misspelt_rights",
    "socketpair_is_pair",
    "shutdown_is_shut",
    "getsockopt_is_getopt",
    "setsockopt_is_setopt",
    "recvfrom_is_recv",
    "memfd_create_is_memfd",
    "setresuid_is_setids",
    "fcntl_is_three_calls",
    "ioctl_is_two_calls",
    "select_is_poll",
    "no_signals",
    "no_wait_for_children",
    "no_attributes_of_files",
    "no_epoll",
    "seqpacket_is_seq",
    "type_of_the_manual_page",
    "direction_of_the_manual_page",
    "no_process_yet",
    "blank_in_a_name",
    "comment_behind_a_call",
    "comment_of_another_language",
    "utf_16",
    "binary_file",
    "typographic_marks",
    "space_of_rights_for_control",
];

/// Scripts for whose file objects and processes no layer is made, with the number of the boot fault.
const BOOTS: &[(&str, u8)] = &[
    ("boot_65_objects", 1),
    ("boot_65_processes", 2),
    ("boot_path_twice", 3),
    ("boot_empty_path", 6),
    ("boot_path_with_nul", 6),
    ("boot_long_path", 6),
];

/// The fault of a script, or that of its expectations.
fn fault_of(alloc: Global, text: &[u8]) -> Result<ScriptFault> {
    if let Err(fault) = parse_script(alloc, text) {
        return Ok(fault);
    }
    match expectations_of(alloc, text) {
        Ok(_expectations) => Err(anyhow!("no line is at fault")),
        Err(fault) => Ok(fault),
    }
}

/// What is written of a faulty line.
fn explained_line(alloc: Global, text: &[u8]) -> Result<String> {
    let fault = fault_of(alloc, text)?;
    match explain(alloc, text, &fault)? {
        Some(explanation) => Ok(format!(in alloc; "uxrun: {fault}\n{explanation}\n")?),
        None => Err(anyhow!("no explanation of {fault}")),
    }
}

/// The same of a script that is read line by line; none where each line can be read.
fn explained_as_read(alloc: Global, text: &[u8]) -> Result<Option<String>> {
    let mut read = LineReader::new(alloc);
    let mut number: usize = 0;
    for line in text.split(|byte| *byte == b'\n') {
        number = number.saturating_add(1);
        let Err(fault) = read.read_line(alloc, number, line) else {
            continue;
        };
        return match explain_line(alloc, &read, line, &fault)? {
            Some(explanation) => Ok(Some(format!(in alloc; "uxrun: {fault}\n{explanation}\n")?)),
            None => Err(anyhow!("no explanation of {fault}")),
        };
    }
    Ok(None)
}

/// What is written of a boot fault.
fn explained_boot(alloc: Global, text: &[u8], fault: u8) -> Result<String> {
    let explanation = explain_boot(alloc, text, fault)?;
    Ok(format!(in alloc; "uxrun: boot fault {fault}\n{explanation}\n")?)
}

/// What is written of the fault of a script, which is one of its lines' where no boot fault is given.
fn explained(alloc: Global, text: &[u8], boot_fault: Option<u8>) -> Result<String> {
    match boot_fault {
        Some(fault) => explained_boot(alloc, text, fault),
        None => explained_line(alloc, text),
    }
}

/// Reads a script, and compares what is written of its fault with what lies beside it.
fn must_explain<R: Files + Print + AllocGlobal>(
    rt: &R,
    name: &str,
    boot_fault: Option<u8>,
) -> Result<()> {
    let alloc: Global = rt.alloc();
    let script = format!(in alloc; "{name}.ux")?;
    let wanted = format!(in alloc; "{name}.err")?;
    let text = fs::read(rt, script.as_str())?;
    let wanted = fs::read(rt, wanted.as_str())?;
    let reported = explained(alloc, &text, boot_fault)?;
    if reported.as_bytes() != wanted.as_slice() {
        return Err(anyhow!("{name}: {reported}"));
    }
    if let Some(reported) = explained_as_read(alloc, &text)? {
        if reported.as_bytes() != wanted.as_slice() {
            return Err(anyhow!("{name}, line by line: {reported}"));
        }
    }
    println!(rt; "{name}: ok")?;
    Ok(())
}

/// One more file object than there may be behind a line `serial`.
const CROWD: usize = 4097;

/// A script of so many file objects.
fn crowded_script(alloc: Global) -> Result<Vec<u8>> {
    let mut text = Vec::from_slice(alloc, b"serial\n")?;
    for number in 0..CROWD {
        let line = format!(in alloc; "object p:f{number} pipe\n")?;
        text.extend_from_slice(line.as_bytes())?;
    }
    Ok(text)
}

/// What is written of it: its last line is concerned.
const CROWDED: &str = "uxrun: boot fault 1
4098 | object p:f4096 pipe
       ^
more than 4,096 file objects
";

/// Compares what is written of such a script with that.
fn must_explain_a_crowd(alloc: Global) -> Result<()> {
    let reported = explained_boot(alloc, &crowded_script(alloc)?, 1)?;
    if reported.as_str() != CROWDED {
        return Err(anyhow!("4,097 objects: {reported}"));
    }
    Ok(())
}

fn main(rt: HostRuntime) -> Result<()> {
    for name in LINES {
        must_explain(&rt, name, None)?;
    }
    for (name, fault) in BOOTS {
        must_explain(&rt, name, Some(*fault))?;
    }
    must_explain_a_crowd(rt.alloc())?;
    println!(rt; "4097 objects: ok")?;
    must_find_changes(rt.alloc())?;
    println!(rt; "changed lines: ok")?;
    Ok(())
}
