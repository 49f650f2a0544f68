//! What a receive reads of marks, and what it does to them.
ghost use Rattle.std.specs.Prelude.{◌≡◌, ◌+◌, ◌<◌, ◌≤◌, ◌++◌, min, length, slice_get, option_copied, IfOk};
ghost use Rattle.ux_stream.specs.Marks.{IsReach, run_count, barrier_count, rights_among, origin_among, marks_without};

use crate::mark::Mark;
use std::alloc::{AllocError, Allocator};
use std::collections::VecDeque;
use ux_rights::{Origin, RefList};
use ux_types::Cred;

/// Rights, and the send that they come from where there are any.
#[derive(Drop)]
pub struct Rights {
    pub references: RefList,
    pub origin: Option<Origin>,
}

/// What one receive takes.
#[derive(Clone, Copy)]
pub struct Reach {
    /// How many bytes.
    pub count: usize,
    /// The credentials of the first message.
    pub cred: Cred,
}

/// The mark at an index.
pub fn mark_at<A: Allocator>(marks: &VecDeque<Mark, A>, index: usize) -> Option<&Mark>
    ensures { option_copied result ≡ slice_get marks.now.items index }
{
    marks.get(index)
}

/// What one receive of at most n bytes takes.
pub fn reach_of<A: Allocator>(marks: &VecDeque<Mark, A>, n: usize, wants_cred: bool) -> Reach
    requires { 0 < length marks.now.items }
    ensures { IsReach wants_cred n result marks.now.items }
{
    let cred = marks[0].cred();
    let count = count_run(marks, n, wants_cred, cred);
    Reach { count, cred }
}

/// How many bytes one receive of at most n takes: no more than those of the run that it joins. Behind that
/// run it looks at one mark at most.
fn count_run<A: Allocator>(
    marks: &VecDeque<Mark, A>,
    n: usize,
    wants_cred: bool,
    cred: Cred,
) -> usize
    ensures { result ≡ min n (run_count wants_cred cred marks.now.items) }
{
    let mut total = 0;
    for i in 0..marks.len() {
        let mark = &marks[i];
        if mark.is_apart(wants_cred, cred) {
            return total;
        }
        let count = mark.len();
        if n - total <= count {
            return n;
        }
        total += count;
        if !mark.is_plain() {
            return total;
        }
    }
    total
}

/// Copies the rights that come with the first n bytes, which reach no further than the first rights.
pub fn copy_rights<A: Allocator>(marks: &VecDeque<Mark, A>, n: usize) -> Result<Rights, AllocError>
    requires some { 0 < length marks.now.items }
    requires within { n ≤ barrier_count marks.now.items }
    ensures rights { IfOk result (λ r. r.references ≡ rights_among n marks.now.items) }
    ensures origin { IfOk result (λ r. r.origin ≡ origin_among n marks.now.items) }
{
    let mut left = n;
    for i in 0..marks.len() {
        if left == 0 {
            break;
        }
        let mark = &marks[i];
        if !mark.is_plain() {
            return Ok(Rights {
                references: mark.copy_rights()?,
                origin: mark.origin(),
            });
        }
        left -= left.min(mark.len());
    }
    Ok(Rights {
        references: marks[0].no_rights(),
        origin: None,
    })
}

/// Takes the first n bytes, which reach no further than the first rights, and gives these rights.
#[tactic(auto, using(crate::proofs::Cuts::none_off))]
pub fn take_bytes<A: Allocator>(marks: &mut VecDeque<Mark, A>, n: usize) -> Rights
    requires some { 0 < length marks.old.items }
    requires within { n ≤ barrier_count marks.old.items }
    ensures rights { result.references ≡ rights_among n marks.old.items }
    ensures origin { result.origin ≡ origin_among n marks.old.items }
    ensures left { marks.new.items ≡ marks_without n marks.old.items }
{
    let none = marks[0].no_rights();
    let mut left = n;
    while left > 0 && !marks.is_empty() {
        let (rest, rights) = take_first(marks, left);
        left = rest;
        if !rights.references.is_empty() {
            return rights;
        }
    }
    Rights {
        references: none,
        origin: None,
    }
}

/// Takes bytes from the first message, at most this many, with its rights, and says how many are still
/// to be taken.
fn take_first<A: Allocator>(marks: &mut VecDeque<Mark, A>, n: usize) -> (usize, Rights)
    requires some { 0 < length marks.old.items }
    requires wanted { 0 < n }
    requires within { n ≤ barrier_count marks.old.items }
    ensures rights { result.1.references ++ rights_among result.0 marks.new.items ≡ rights_among n marks.old.items }
    ensures origin { 0 < length result.1.references → result.1.origin ≡ origin_among n marks.old.items }
    ensures later_origin { length result.1.references ≡ 0 → origin_among result.0 marks.new.items ≡ origin_among n marks.old.items }
    ensures left { marks_without result.0 marks.new.items ≡ marks_without n marks.old.items }
    ensures barrier { 0 < length result.1.references → result.0 ≡ 0 }
    ensures within { length result.1.references ≡ 0 → result.0 ≤ barrier_count marks.new.items }
    ensures less { result.0 + length marks.new.items < n + length marks.old.items }
{
    let origin = marks[0].origin();
    let references = marks[0].take_rights();
    let rights = Rights { references, origin };
    let count = marks[0].len();
    if count <= n {
        marks.pop_front();
        return (n - count, rights);
    }
    marks[0].cut(n);
    (0, rights)
}
