//! Why no layer could be made for a script's file objects and processes.

use crate::excerpt::Excerpt;
use crate::texts::{split_lines, word_from};
use std::alloc::{AllocError, Global};
use std::fmt;
use ux_names::is_valid_path;
use ux_syntax::{Script, ScriptFault, parse_script};
use ux_types::{Bytes, ObjectLimit, PROCESS_LIMIT};

/// Why no layer could be made: the lines concerned, as they are written, and the reason in words.
#[derive(Debug, Drop)]
pub struct BootExplanation {
    /// Both lines of a path that stands twice, else one line or none.
    pub excerpts: Vec<Excerpt>,
    pub reason: &'static str,
}

impl fmt::Display for BootExplanation {
    fn fmt<W: fmt::Write>(&self, f: &mut fmt::Formatter<W>) -> fmt::Result {
        for excerpt in &self.excerpts {
            write!(f, "{excerpt}\n")?;
        }
        write!(f, "{}", self.reason)
    }
}

/// Where the path begins in the line of an object.
const PATH: usize = b"object ".len();

/// The line of the object or process of this number, counted from 0, in a script without fault.
fn header_line(lines: &[&[u8]], word: &[u8], number: usize) -> Option<usize> {
    let mut left = number;
    for (index, line) in lines.iter().enumerate() {
        if word_from(line, 0) != Some(word) {
            continue;
        }
        if left == 0 {
            return Some(index);
        }
        left = left.saturating_sub(1);
    }
    None
}

/// The first object whose path isn't valid.
fn bad_path(script: &Script) -> Option<usize> {
    script
        .objects
        .iter()
        .position(|object| !is_valid_path(&object.name))
}

/// The first object that has the path of this one, which stands behind it.
fn first_with_path(script: &Script, number: usize) -> Option<usize> {
    let object = script.objects.get(number)?;
    let first = script
        .objects
        .iter()
        .position(|other| other.name == object.name)?;
    (first < number).then_some(first)
}

/// The first object whose path stands twice, and the one before it that has the path.
fn path_twice(script: &Script) -> Option<(usize, usize)> {
    for number in 0..script.objects.len() {
        if let Some(first) = first_with_path(script, number) {
            return Some((first, number));
        }
    }
    None
}

/// The excerpt of a line with this index.
fn add_excerpt(
    alloc: Global,
    excerpts: &mut Vec<Excerpt>,
    lines: &[&[u8]],
    index: Option<usize>,
    column: usize,
) -> Result<(), AllocError> {
    let Some(index) = index else {
        return Ok(());
    };
    let Some(line) = lines.get(index) else {
        return Ok(());
    };
    let excerpt = Excerpt {
        line: index.saturating_add(1),
        text: Bytes::from_slice(alloc, line)?,
        column,
    };
    excerpts.push(excerpt)?;
    Ok(())
}

/// The lines concerned.
fn excerpts_of(
    alloc: Global,
    text: &[u8],
    script: &Script,
    fault: u8,
) -> Result<Vec<Excerpt>, AllocError> {
    let lines = split_lines(alloc, text)?;
    let mut excerpts = Vec::new(alloc);
    let object = |number| header_line(&lines, b"object", number);
    match fault {
        1 => {
            let line = object(script.object_limit().count());
            add_excerpt(alloc, &mut excerpts, &lines, line, 0)?;
        }
        2 => {
            let line = header_line(&lines, b"proc", PROCESS_LIMIT);
            add_excerpt(alloc, &mut excerpts, &lines, line, 0)?;
        }
        3 => {
            if let Some((first, second)) = path_twice(script) {
                add_excerpt(alloc, &mut excerpts, &lines, object(first), PATH)?;
                add_excerpt(alloc, &mut excerpts, &lines, object(second), PATH)?;
            }
        }
        6 => {
            if let Some(number) = bad_path(script) {
                add_excerpt(alloc, &mut excerpts, &lines, object(number), PATH)?;
            }
        }
        _ => {}
    }
    Ok(excerpts)
}

/// Of a script that may have so many file objects and has more.
fn too_many_objects(limit: ObjectLimit) -> &'static str {
    match limit {
        ObjectLimit::Usual => "more than 64 file objects",
        ObjectLimit::Raised => "more than 4,096 file objects",
    }
}

/// The reason of a boot fault in words.
fn reason_of(script: &Script, fault: u8) -> &'static str {
    match fault {
        1 => too_many_objects(script.object_limit()),
        2 => "more than 64 processes",
        3 => "a path that stands twice",
        4 => "a file object that was closed already",
        5 => "out of memory while the layer was made",
        _ => "an invalid path: expected 1 to 107 bytes without NUL",
    }
}

/// Why no layer could be made for the script that a text spells, by the number of the boot fault.
///
/// # Errors
///
/// `AllocError` where memory runs out.
pub fn explain_boot(alloc: Global, text: &[u8], fault: u8) -> Result<BootExplanation, AllocError> {
    let script = match parse_script(alloc, text) {
        Ok(script) => script,
        Err(_) => return Err(AllocError),
    };
    Ok(BootExplanation {
        excerpts: excerpts_of(alloc, text, &script, fault)?,
        reason: reason_of(&script, fault),
    })
}
