//! Control data of a send: none, bytes that are written out, or items of descriptor numbers and credentials.

ghost use Rattle.std.specs.Prelude.{◌≡◌, ◌==◌, IfOk, OnOk, map};
ghost use Rattle.std.specs.List.{slice_split};
ghost use Rattle.ux_model.specs.Delivery.{control_bytes};
ghost use Rattle.ux_syntax.specs.Spelling.{padded, control_buffer, ItemsAreSpelled};
ghost use Rattle.ux_syntax.specs.Reading.{some_pairs_at, each_at, number_at, numbers_at, cred_at, control_item_at, alone, paired, control_items_at, control_at};
ghost use Rattle.ux_syntax.specs.Results.{IsAsRead};

use crate::fault::{BAD, LineError};
use crate::row::row_of;
use crate::words::{Word, pairs_of};
use std::alloc::{AllocError, Global};
use std::marker::Model;
use ux_cmsg::{Control, write_control};
use ux_types::{Bytes, Cred, Fd, Pid};

/// Descriptor numbers in order. Contracts see their list.
#[derive(Drop)]
pub(crate) struct Numbers {
    fds: Vec<Fd>,
}

impl Model for Numbers {
    ghost use Rattle.std.specs.Prelude.{List, ℕ, map};

    ghost Value = { List ℕ };

    ghost view = { λ n. map (λ fd. fd.0) n.fds.items };
}

/// An item of control data.
#[derive(Drop)]
pub(crate) enum ControlItem {
    /// Descriptor numbers (SCM_RIGHTS): `r:N,N,..`.
    Rights(Numbers),
    /// Credentials (SCM_CREDENTIALS): `c:PID,UID,GID`.
    Credentials(Cred),
}

/// Control data as a word has it.
#[derive(Drop)]
pub(crate) enum ControlWord {
    /// None: `-`.
    Bare,
    /// Bytes: `x:HEX`.
    Raw(Bytes),
    /// Descriptor numbers alone.
    Rights(Numbers),
    /// Credentials alone.
    Credentials(Cred),
    /// Credentials, and behind them descriptor numbers: `c:PID,UID,GID+r:N,N,..`.
    CredentialsFirst(Cred, Numbers),
    /// Descriptor numbers, and behind them credentials: `r:N,N,..+c:PID,UID,GID`.
    RightsFirst(Numbers, Cred),
}

/// The bytes of credentials, where there are any, and of descriptor numbers behind them, where there are any.
fn layout_of(alloc: Global, cred: Option<Cred>, fds: Vec<Fd>) -> Result<Vec<u8>, AllocError>
    ensures { IfOk result (λ bytes. bytes.items ≡ control_bytes cred (map (λ fd. fd.0) fds.items)) }
{
    write_control(alloc, &Control::new(cred, fds))
}

/// Adds zeros up to the next multiple of 8.
fn pad(bytes: &mut Vec<u8>) -> Result<(), AllocError>
    ensures { OnOk result (bytes.new.items ≡ padded bytes.old.items) }
{
    let len = bytes.len();
    bytes.resize(len.next_multiple_of(8), 0)
}

impl ControlWord {
    /// The bytes that it stands for. Items are laid out as cmsg(3) has it, with no padding behind the last.
    pub(crate) fn into_buffer(self, alloc: Global) -> Result<Bytes, AllocError>
        ensures { IfOk result (λ bytes. bytes ≡ control_buffer self) }
    {
        let bytes = match self {
            ControlWord::Bare => return Ok(Bytes::empty()),
            ControlWord::Raw(bytes) => return Ok(bytes),
            ControlWord::Rights(numbers) => layout_of(alloc, None, numbers.fds)?,
            ControlWord::Credentials(cred) => layout_of(alloc, Some(cred), Vec::new(alloc))?,
            ControlWord::CredentialsFirst(cred, numbers) => {
                layout_of(alloc, Some(cred), numbers.fds)?
            }
            ControlWord::RightsFirst(numbers, cred) => {
                let mut bytes = layout_of(alloc, None, numbers.fds)?;
                pad(&mut bytes)?;
                bytes.extend_from_slice(&layout_of(alloc, Some(cred), Vec::new(alloc))?)?;
                bytes
            }
        };
        Ok(Bytes::new(bytes)?)
    }

    /// Control data of one item.
    fn alone(item: ControlItem) -> ControlWord
        ensures { result ≡ alone item }
    {
        match item {
            ControlItem::Rights(numbers) => ControlWord::Rights(numbers),
            ControlItem::Credentials(cred) => ControlWord::Credentials(cred),
        }
    }

    /// Control data of two items, one of each kind.
    fn paired(first: ControlItem, second: ControlItem) -> Result<ControlWord, LineError>
        ensures { IsAsRead (λ w. w) result (paired first second) }
    {
        match (first, second) {
            (ControlItem::Rights(numbers), ControlItem::Credentials(cred)) => {
                Ok(ControlWord::RightsFirst(numbers, cred))
            }
            (ControlItem::Credentials(cred), ControlItem::Rights(numbers)) => {
                Ok(ControlWord::CredentialsFirst(cred, numbers))
            }
            _ => Err(BAD),
        }
    }
}

/// The bytes that pairs of digits spell, one pair at least.
fn some_pairs_of(alloc: Global, digits: &[u8]) -> Result<Vec<u8>, LineError>
    ensures { IsAsRead (λ bytes. bytes.items) result (some_pairs_at digits.now) }
{
    if digits.is_empty() {
        return Err(BAD);
    }
    pairs_of(alloc, digits)
}

/// The words between commas.
pub(crate) fn split_commas<'a>(alloc: Global, text: &'a [u8]) -> Result<Vec<&'a [u8]>, AllocError>
    ensures { IfOk result (λ words. map (λ w. w.now) words.items ≡ slice_split (λ b. b == 44) text.now) }
{
    text.split(|b| *b == b',').collect(alloc)
}

fn each_number_of(alloc: Global, words: &[&[u8]]) -> Result<Numbers, LineError>
    ensures { IsAsRead (λ numbers. numbers) result (each_at number_at (map (λ w. w.now) words.now)) }
{
    let mut fds = Vec::new(alloc);
    for word in words {
        let number = u32::of(alloc, word)?;
        fds.push(Fd(number))?;
    }
    Ok(Numbers { fds })
}

/// The numbers that a text spells, joined by commas.
#[tactic(auto, unfolding(crate::specs::Reading::numbers_at))]
fn numbers_of(alloc: Global, text: &[u8]) -> Result<Numbers, LineError>
    ensures { IsAsRead (λ numbers. numbers) result (numbers_at text.now) }
{
    let words = split_commas(alloc, text)?;
    each_number_of(alloc, &words)
}

/// The credentials that a text spells: a process, a user and a group, joined by commas.
#[tactic(auto, unfolding(crate::specs::Reading::cred_at))]
fn cred_of(alloc: Global, text: &[u8]) -> Result<Cred, LineError>
    ensures { IsAsRead (λ cred. cred) result (cred_at text.now) }
{
    let words = split_commas(alloc, text)?;
    let (pid, (uid, (gid, ()))) = row_of(alloc, &words)?;
    Ok(Cred {
        pid: Pid(pid),
        uid,
        gid,
    })
}

/// The item that a text spells: `r:` and numbers, or `c:` and credentials.
#[tactic(auto, unfolding(crate::specs::Reading::control_item_at))]
fn control_item_of(alloc: Global, text: &[u8]) -> Result<ControlItem, LineError>
    ensures { IsAsRead (λ item. item) result (control_item_at text.now) }
{
    match text {
        [letter, colon, numbers @ ..] if *letter == b'r' && *colon == b':' => {
            Ok(ControlItem::Rights(numbers_of(alloc, numbers)?))
        }
        [letter, colon, cred @ ..] if *letter == b'c' && *colon == b':' => {
            Ok(ControlItem::Credentials(cred_of(alloc, cred)?))
        }
        _ => Err(BAD),
    }
}

fn split_items<'a>(alloc: Global, text: &'a [u8]) -> Result<Vec<&'a [u8]>, AllocError>
    ensures { IfOk result (λ words. map (λ w. w.now) words.items ≡ slice_split (λ b. b == 43) text.now) }
{
    text.split(|b| *b == b'+').collect(alloc)
}

/// The items that a text spells, joined by a plus: one, or one of each kind.
#[tactic(auto, unfolding(crate::specs::Reading::control_items_at))]
fn control_items_of(alloc: Global, text: &[u8]) -> Result<ControlWord, LineError>
    ensures { IsAsRead (λ word. word) result (control_items_at text.now) }
{
    let items = split_items(alloc, text)?;
    match items.as_slice() {
        [item] => Ok(ControlWord::alone(control_item_of(alloc, item)?)),
        [first, second] => {
            let first = control_item_of(alloc, first)?;
            let second = control_item_of(alloc, second)?;
            ControlWord::paired(first, second)
        }
        _ => Err(BAD),
    }
}

/// The control data that a word spells: `-` for none, or `x:` and digits, or items.
impl Word for ControlWord {
    ghost at = { control_at };

    #[tactic(auto, unfolding(crate::specs::Reading::control_at))]
    fn of(alloc: Global, word: &[u8]) -> Result<ControlWord, LineError> {
        match word {
            [dash] if *dash == b'-' => Ok(ControlWord::Bare),
            [letter, colon, digits @ ..] if *letter == b'x' && *colon == b':' => {
                let bytes = some_pairs_of(alloc, digits)?;
                Ok(ControlWord::Raw(Bytes::new(bytes)?))
            }
            _ => control_items_of(alloc, word),
        }
    }
}

/// A control buffer that is written in items spells what they say, whichever stands first.
#[tactic(auto, using(crate::proofs::Laid::items_spelled))]
pub fn items_are_spelled()
    ensures { ItemsAreSpelled }
{}
