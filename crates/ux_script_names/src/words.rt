//! Words with names in them, and the words that they stand for.

ghost use Rattle.std.specs.Prelude.{◌≡◌, ◌++◌, ◌==◌, ℕ, List, map, OnOk, IfOk};
ghost use Rattle.std.specs.List.{slice_split};
ghost use Rattle.ux_script_names.specs.Words.{number_for, begins_item, begins_number, item_number_for, item_for, asked_for, word_for, line_for, each_between, Meaning};

use std::alloc::{AllocError, Global};

/// What names mean.
pub trait Meanings {
    ghost meaning: { Self → Meaning };

    /// The number that a name means, if it means one.
    fn number_of(&self, name: &[u8]) -> Option<u32>
        ensures { result ≡ meaning self.now name.now };
}

/// Why a word stands for none.
#[derive(Debug, Drop)]
pub enum WordFault {
    /// This name means no number.
    Nameless(Vec<u8>),
    /// Out of memory.
    NoMemory,
}

impl From<AllocError> for WordFault {
    fn from(_error: AllocError) -> WordFault {
        WordFault::NoMemory
    }
}

/// Whether a word is of the items of a control buffer, which begin with `r:` or `c:`.
fn begins_item(word: &[u8]) -> bool
    ensures { result ≡ begins_item word.now }
{
    matches!(word, [b'r' | b'c', b':', ..])
}

/// Whether a word is a number, a name, or a list of a poll's descriptors.
fn begins_number(word: &[u8]) -> bool
    ensures { result ≡ begins_number word.now }
{
    match word {
        [byte, ..] => byte.is_ascii_digit() || *byte == b'$',
        [] => false,
    }
}

/// What parts of a text stand for.
trait Standing {
    ghost stands: { Self → List ℕ → List ℕ };

    /// Adds what a part stands for.
    fn put(&self, alloc: Global, out: &mut Vec<u8>, part: &[u8]) -> Result<(), WordFault>
        ensures { OnOk result (out.new.items ≡ out.old.items ++ stands self.now part.now) };
}

/// The parts of a text between such separators.
fn parts_of<'a>(alloc: Global, separator: u8, text: &'a [u8]) -> Result<Vec<&'a [u8]>, AllocError>
    ensures { IfOk result (λ parts. map (λ p. p.now) parts.items ≡ slice_split (λ b. b == separator) text.now) }
{
    text.split(|b| *b == separator).collect(alloc)
}

/// Adds what the parts of a text stand for that stand between such separators.
fn put_each<S: Standing>(
    alloc: Global,
    out: &mut Vec<u8>,
    standing: &S,
    separator: u8,
    text: &[u8],
) -> Result<(), WordFault>
    ensures { OnOk result (out.new.items ≡ out.old.items ++ each_between separator (S.stands standing.now) text.now) }
{
    let parts = parts_of(alloc, separator, text)?;
    let Some((first, rest)) = parts.split_first() else {
        return Ok(());
    };
    standing.put(alloc, out, first)?;
    for part in rest {
        out.extend_from_slice(&[separator])?;
        standing.put(alloc, out, part)?;
    }
    Ok(())
}

/// The numbers of an item.
#[derive(Clone, Copy)]
struct Numbers<'a, M>(&'a M);

/// The items of a control buffer.
#[derive(Clone, Copy)]
struct Items<'a, M>(&'a M);

/// A number, and what is asked for of it.
#[derive(Clone, Copy)]
struct Asked<'a, M>(&'a M);

/// The descriptors of a poll.
#[derive(Clone, Copy)]
struct Polled<'a, M>(&'a M);

/// The words of a line.
#[derive(Clone, Copy)]
struct Words<'a, M>(&'a M);

/// Adds a number, or the number of a name behind a dollar sign.
fn put_number<M: Meanings>(
    alloc: Global,
    out: &mut Vec<u8>,
    meanings: &M,
    word: &[u8],
) -> Result<(), WordFault>
    ensures { OnOk result (out.new.items ≡ out.old.items ++ number_for (M.meaning meanings.now) word.now) }
{
    let [b'$', name @ ..] = word else {
        out.extend_from_slice(word)?;
        return Ok(());
    };
    let Some(number) = meanings.number_of(name) else {
        return Err(WordFault::Nameless(Vec::from_slice(alloc, name)?));
    };
    let digits = format!(in alloc; "{number}")?;
    out.extend_from_slice(digits.as_bytes())?;
    Ok(())
}

impl<M: Meanings> Standing for Numbers<'_, M> {
    ghost stands = { λ numbers. item_number_for (M.meaning numbers.0.now) };

    fn put(&self, alloc: Global, out: &mut Vec<u8>, part: &[u8]) -> Result<(), WordFault> {
        if !begins_item(part) {
            return put_number(alloc, out, self.0, part);
        }
        let (head, number) = part.split_at(2);
        out.extend_from_slice(head)?;
        put_number(alloc, out, self.0, number)
    }
}

impl<M: Meanings> Standing for Items<'_, M> {
    ghost stands = { λ items. item_for (M.meaning items.0.now) };

    fn put(&self, alloc: Global, out: &mut Vec<u8>, part: &[u8]) -> Result<(), WordFault> {
        put_each(alloc, out, &Numbers(self.0), b',', part)
    }
}

impl<M: Meanings> Standing for Asked<'_, M> {
    ghost stands = { λ asked. number_for (M.meaning asked.0.now) };

    fn put(&self, alloc: Global, out: &mut Vec<u8>, part: &[u8]) -> Result<(), WordFault> {
        put_number(alloc, out, self.0, part)
    }
}

impl<M: Meanings> Standing for Polled<'_, M> {
    ghost stands = { λ polled. asked_for (M.meaning polled.0.now) };

    fn put(&self, alloc: Global, out: &mut Vec<u8>, part: &[u8]) -> Result<(), WordFault> {
        put_each(alloc, out, &Asked(self.0), b':', part)
    }
}

impl<M: Meanings> Standing for Words<'_, M> {
    ghost stands = { λ words. word_for (M.meaning words.0.now) };

    fn put(&self, alloc: Global, out: &mut Vec<u8>, part: &[u8]) -> Result<(), WordFault> {
        if begins_item(part) {
            return put_each(alloc, out, &Items(self.0), b'+', part);
        }
        if begins_number(part) {
            return put_each(alloc, out, &Polled(self.0), b',', part);
        }
        out.extend_from_slice(part)?;
        Ok(())
    }
}

/// The line that one with names in it stands for: each `$NAME` that is a word, or a number in the items of a control buffer or in
/// the list of a poll, is the number that the name means.
///
/// # Errors
///
/// `Nameless` of the first that means none, and `NoMemory`.
pub fn line_for<M: Meanings>(alloc: Global, meanings: &M, line: &[u8]) -> Result<Vec<u8>, WordFault>
    ensures { IfOk result (λ plain. plain.items ≡ line_for (M.meaning meanings.now) line.now) }
{
    let mut plain = Vec::new(alloc);
    put_each(alloc, &mut plain, &Words(meanings), b' ', line)?;
    Ok(plain)
}
