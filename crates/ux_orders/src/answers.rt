//! How processes were answered, as numbers.
use std::alloc::{AllocError, Global};
use ux_types::{Entry, Released, Reply};

/// One answer behind others.
#[derive(Drop)]
struct Answer {
    reply: Reply,
    /// The file objects that were closed with it.
    released: Released,
    /// The file object that was read or written.
    object: Option<u32>,
    /// The numbers of what was answered next.
    next: Vec<usize>,
}

impl Answer {
    /// Whether it is this entry's.
    fn is_of(&self, entry: &Entry, object: Option<u32>) -> bool {
        self.object == object && self.released == entry.released && self.reply == entry.reply
    }
}

/// Gives each row of answers a number, the same for the same row. That of none is 0.
#[derive(Drop)]
pub(crate) struct Answers {
    alloc: Global,
    /// By number, each with the last answer of its row.
    rows: Vec<Answer>,
}

impl Answers {
    /// With the row of none.
    ///
    /// # Errors
    ///
    /// Out of memory.
    pub(crate) fn new(alloc: Global) -> Result<Answers, AllocError> {
        let mut rows = Vec::new(alloc);
        rows.push(Answer {
            reply: Reply::Ok,
            released: Released::new(alloc),
            object: None,
            next: Vec::new(alloc),
        })?;
        Ok(Answers { alloc, rows })
    }

    /// The number of the row with this entry's answer behind the row of a number, with the object that was read or
    /// written.
    ///
    /// # Errors
    ///
    /// Out of memory.
    pub(crate) fn behind(
        &mut self,
        row: usize,
        entry: &Entry,
        object: Option<u32>,
    ) -> Result<usize, AllocError> {
        if let Some(known) = self.find(row, entry, object) {
            return Ok(known);
        }
        let number = self.rows.len();
        if let Some(before) = self.rows.get_mut(row) {
            before.next.push(number)?;
        }
        self.rows.push(Answer {
            reply: entry.reply.clone()?,
            released: entry.released.clone()?,
            object,
            next: Vec::new(self.alloc),
        })?;
        Ok(number)
    }

    /// The same, where it has a number.
    fn find(&self, row: usize, entry: &Entry, object: Option<u32>) -> Option<usize> {
        let before = self.rows.get(row)?;
        for number in &before.next {
            if let Some(answer) = self.rows.get(*number) {
                if answer.is_of(entry, object) {
                    return Some(*number);
                }
            }
        }
        None
    }
}
