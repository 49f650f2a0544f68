//! Up to which call of a run something is reported.
ghost use Rattle.std.specs.Prelude.{◌≡◌, ◌≤◌, ℕ, min, length, Ok, IfOk, IfErr, IfSome, IfNone};
ghost use Rattle.ux_command.specs.Points.{IsBehind, IsOfNone, IsBehindLast};

use crate::fault::CommandFault;

/// A moment of a run.
#[derive(Clone, Copy, Debug, PartialEq, Eq)]
pub enum Point {
    /// After the first so many calls, or after all where there are fewer.
    Calls(u32),
    /// After the call of this line of the script, counted from 1.
    Line(u32),
    /// After the last call that a line makes, before the exits that the run adds.
    End,
    /// After all calls.
    All,
}

impl Point {
    /// The moment that is written so: a number, `line:` and a number, `end` or `all`. None where it isn't written as
    /// one.
    pub(crate) fn read(text: &str) -> Option<Point> {
        if text == "end" {
            return Some(Point::End);
        }
        if text == "all" {
            return Some(Point::All);
        }
        match text.strip_prefix("line:") {
            Some(line) => number_of(line).map(Point::Line),
            None => number_of(text).map(Point::Calls),
        }
    }

    /// How many calls of a history that is, where these are the numbers of the lines that make them.
    ///
    /// # Errors
    ///
    /// `NoCall` where the line makes no call.
    pub fn count(self, lines: &[Option<usize>]) -> Result<usize, CommandFault>
        ensures within { IfOk result (λ n. n ≤ length lines.now) }
        ensures calls { (n : ℕ) → self ≡ Point.Calls n → result ≡ Ok (min (length lines.now) n) }
        // Of a line they are those up to the first that it makes.
        ensures line { (l : ℕ) → self ≡ Point.Line l → IfOk result (IsBehind lines.now l) }
        ensures no_call { (l : ℕ) → self ≡ Point.Line l → IfErr result (λ f. IsOfNone lines.now l) }
        ensures end { self ≡ Point.End → IfOk result (IsBehindLast lines.now) }
        ensures made { IfErr result (λ f. (l : ℕ) × (self ≡ Point.Line l)) }
        ensures all { self ≡ Point.All → result ≡ Ok (length lines.now) }
    {
        match self {
            Point::Calls(count) => Ok(lines.len().min(count as usize)),
            Point::Line(line) => match behind(lines, line as usize) {
                Some(count) => Ok(count),
                None => Err(CommandFault::NoCall(line)),
            },
            Point::End => Ok(last_of(lines)),
            Point::All => Ok(lines.len()),
        }
    }
}

/// How many calls there are up to that of a line, if it makes one.
fn behind(lines: &[Option<usize>], line: usize) -> Option<usize>
    ensures within { IfSome result (λ n. n ≤ length lines.now) }
    ensures some { IfSome result (IsBehind lines.now line) }
    ensures none { IfNone result (IsOfNone lines.now line) }
{
    for index in 0..lines.len() {
        if lines[index] == Some(line) {
            return Some(index + 1);
        }
    }
    None
}

/// How many calls there are up to the last that a line makes.
fn last_of(lines: &[Option<usize>]) -> usize
    ensures within { result ≤ length lines.now }
    ensures last { IsBehindLast lines.now result }
{
    let mut count = 0;
    for index in 0..lines.len() {
        if lines[index].is_some() {
            count = index + 1;
        }
    }
    count
}

/// The number that is written so, as numbers are in scripts: in decimal, without leading zeros.
pub(crate) fn number_of(text: &str) -> Option<u32> {
    if text.starts_with('+') || (text.starts_with('0') && text.len() > 1) {
        return None;
    }
    text.parse().ok()
}
