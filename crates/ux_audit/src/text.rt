//! The text of a chain of holdings.
ghost use Rattle.std.specs.Prelude.{◌≡◌, IfOk, Some, string_bytes};
ghost use Rattle.ux_audit.specs.Text.{word_of, from_text, link_text, further_text, links_text};

use crate::chain::Chain;
use std::alloc::{AllocError, Global};
use std::fmt;
use ux_types::{How, Link};

/// By what a holding was taken.
#[derive(Clone, Copy)]
struct Word(How);

impl fmt::Display for Word {
    ghost output = { λ word. Some (word_of word.0) };

    fn fmt<W: fmt::Write>(&self, f: &mut fmt::Formatter<W>) -> fmt::Result {
        match self.0 {
            How::Made => write!(f, "made"),
            How::Dup => write!(f, "dup"),
            How::Received(_) => write!(f, "got"),
            How::Forked => write!(f, "fork"),
        }
    }
}

/// Which entry sent a holding that was received, or nothing.
#[derive(Clone, Copy)]
struct From(How);

impl fmt::Display for From {
    ghost output = { λ from. Some (from_text from.0) };

    fn fmt<W: fmt::Write>(&self, f: &mut fmt::Formatter<W>) -> fmt::Result {
        match self.0 {
            How::Received(tag) => write!(f, " from {tag}"),
            _ => Ok(()),
        }
    }
}

/// A holding, as `made 3 1 0` or `got 8 2 2 from 7`: the entry, the process and the descriptor.
#[derive(Clone, Copy)]
struct LinkText<'a>(&'a Link);

impl fmt::Display for LinkText<'_> {
    ghost output = { λ link. Some (link_text link.0.now) };

    fn fmt<W: fmt::Write>(&self, f: &mut fmt::Formatter<W>) -> fmt::Result {
        let word = Word(self.0.how);
        let entry = self.0.entry;
        let pid = self.0.pid.0;
        let fd = self.0.fd.0;
        let from = From(self.0.how);
        write!(f, "{word} {entry} {pid} {fd}{from}")
    }
}

/// Holdings, each behind a semicolon and a space.
#[derive(Clone, Copy)]
struct Further<'a>(&'a [Link]);

impl fmt::Display for Further<'_> {
    ghost output = { λ links. Some (further_text links.0.now) };

    fn fmt<W: fmt::Write>(&self, f: &mut fmt::Formatter<W>) -> fmt::Result {
        for link in self.0 {
            let link = LinkText(link);
            write!(f, "; {link}")?;
        }
        Ok(())
    }
}

/// The holdings, the maker's first, joined by a semicolon and a space.
impl fmt::Display for Chain {
    ghost output = { λ chain. Some (links_text chain.links.items) };

    fn fmt<W: fmt::Write>(&self, f: &mut fmt::Formatter<W>) -> fmt::Result {
        match self.links.as_slice().split_first() {
            Some((first, rest)) => {
                let first = LinkText(first);
                let further = Further(rest);
                write!(f, "{first}{further}")
            }
            None => Ok(()),
        }
    }
}

/// The text of a chain: its holdings, the maker's first, joined by `; `. Each is a word, the number of the
/// entry that gave it, the process and the descriptor: `made 3 1 0`, `dup 4 1 1`, `fork 5 2 1`, and
/// `got 8 2 2 from 7` where the entry 7 sent it.
///
/// # Errors
///
/// Out of memory.
pub fn chain_text(alloc: Global, chain: &Chain) -> Result<String, AllocError>
    ensures { IfOk result (λ text. string_bytes text ≡ links_text chain.now.links.items) }
{
    format!(in alloc; "{chain}")
}
