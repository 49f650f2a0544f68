//! A file in memory.
ghost use Rattle.std.specs.Prelude.{ℕ, List, [], ◌≡◌, ◌≢◌, ◌+◌, ◌-◌, ◌<◌, ◌≤◌, ◌↔◌, ◌++◌, ◌⊎◌, IfOk, OnOk, OnErr, length, take, drop, replicate, min};
ghost use Rattle.ux_model.specs.Limits.{file_limit};
ghost use Rattle.ux_model.specs.Object.{overwritten};
ghost use Rattle.ux_object.specs.Calls.{Reads, Writes};
ghost use Rattle.ux_objects.specs.Faultless.{Faultless, opened_with, memory_view};

use std::alloc::{AllocError, Global};
use std::marker::Model;
use ux_object::{FileObject, ObjError, ObjKind};

/// The bytes that a file may have.
const LIMIT: usize = 1048576;

/// Bytes at fixed places.
#[derive(Drop)]
pub struct MemFile {
    bytes: Vec<u8>,
    opened: bool,
}

impl Model for MemFile {
    ghost Value = { Faultless (List ℕ) };

    ghost view = { λ f. record { opened = f.opened; content = f.bytes.items } };

    ghost invariant = { λ f. length f.bytes.items ≤ file_limit };
}

impl MemFile {
    /// An open file with no bytes. It takes no memory.
    pub fn empty(alloc: Global) -> MemFile
        ensures { result ≡ opened_with [] }
    {
        MemFile {
            bytes: Vec::new(alloc),
            opened: true,
        }
    }

    /// An open file with a copy of these bytes.
    ///
    /// # Errors
    ///
    /// `Full` for more than 1,048,576 bytes, else `NoMemory`.
    pub fn new(alloc: Global, bytes: &[u8]) -> Result<MemFile, ObjError>
        ensures made { IfOk result (λ f. f ≡ opened_with bytes.now) }
        ensures full { (result ≡ Err ObjError.Full) ↔ (file_limit < length bytes.now) }
        ensures errors { OnErr result ((result ≡ Err ObjError.Full) ⊎ (result ≡ Err ObjError.NoMemory)) }
    {
        if bytes.len() > LIMIT {
            return Err(ObjError::Full);
        }
        Ok(MemFile {
            bytes: bytes.to_vec(alloc)?,
            opened: true,
        })
    }
}

impl FileObject for MemFile {
    ghost view = { memory_view };

    fn kind(&self) -> ObjKind {
        ObjKind::Memory
    }

    fn read(&mut self, at: u64, buf: &mut [u8]) -> Result<usize, ObjError>
        ensures reads { Reads (memory_view self.old) at (length buf.old) result buf.new (memory_view self.new) }
        ensures works { result ≢ Err ObjError.Io }
    {
        let len = self.bytes.len() as u64;
        if at >= len {
            return Ok(0);
        }
        let rest = &self.bytes[at as usize..];
        let count = rest.len().min(buf.len());
        buf[..count].copy_from_slice(&rest[..count]);
        Ok(count)
    }

    fn write(&mut self, at: u64, bytes: &[u8]) -> Result<usize, ObjError>
        ensures writes { Writes (memory_view self.old) at bytes.now result (memory_view self.new) }
        ensures works { result ≢ Err ObjError.Io }
        // Only a file that is to grow takes memory.
        ensures has_data { result ≡ Err ObjError.NoMemory → 0 < length bytes.now }
        ensures grows { result ≡ Err ObjError.NoMemory → length self.old.content < min (at + length bytes.now) file_limit }
    {
        if bytes.is_empty() {
            return Ok(0);
        }
        if at >= LIMIT as u64 {
            return Err(ObjError::Full);
        }
        let start = at as usize;
        let count = bytes.len().min(LIMIT - start);
        overwrite(&mut self.bytes, start, &bytes[..count])?;
        Ok(count)
    }

    fn size(&self) -> u64 {
        self.bytes.len() as u64
    }

    fn bytes_ahead(&self, at: u64) -> Option<usize> {
        Some((self.bytes.len() as u64).saturating_sub(at) as usize)
    }

    fn ready(&self) -> (bool, bool) {
        (true, true)
    }

    fn faults(&self) -> u64 {
        0
    }

    fn is_open(&self) -> bool {
        self.opened
    }

    fn close(&mut self) {
        self.opened = false;
    }
}

/// Writes `bytes` over those of a file from `start` on, and appends what reaches past its end. What
/// lies behind them stays where it is.
fn overwrite(file: &mut Vec<u8>, start: usize, bytes: &[u8]) -> Result<(), AllocError>
    requires { start + length bytes.now ≤ file_limit }
    ensures ok { OnOk result (file.new.items ≡ overwritten file.old.items start bytes.now) }
    ensures err { OnErr result (file.new.items ≡ file.old.items) }
    ensures grows { OnErr result (length file.old.items < start + length bytes.now) }
{
    if file.len() <= start {
        return append_behind_gap(file, start, bytes);
    }
    let inside = file.len() - start;
    if bytes.len() <= inside {
        paste(file.as_mut_slice(), start, bytes);
        return Ok(());
    }
    let (over, behind) = bytes.split_at(inside);
    file.extend_from_slice(behind)?;
    paste(file.as_mut_slice(), start, over);
    Ok(())
}

/// Appends zeros to a file up to `start`, and then `bytes`.
fn append_behind_gap(file: &mut Vec<u8>, start: usize, bytes: &[u8]) -> Result<(), AllocError>
    requires behind { length file.old.items ≤ start }
    requires small { start + length bytes.now ≤ file_limit }
    ensures ok { OnOk result (file.new.items ≡ file.old.items ++ replicate (start - length file.old.items) 0 ++ bytes.now) }
    ensures err { OnErr result (file.new.items ≡ file.old.items) }
    ensures grows { OnErr result (length file.old.items < start + length bytes.now) }
{
    // All the room is taken first, so that neither of the two growths fails.
    file.reserve(start - file.len() + bytes.len())?;
    file.resize(start, 0)?;
    file.extend_from_slice(bytes)?;
    Ok(())
}

/// Writes `bytes` over those of `file` from `start` on.
fn paste(file: &mut [u8], start: usize, bytes: &[u8])
    requires { start + length bytes.now ≤ length file.old }
    ensures { file.new ≡ take start file.old ++ bytes.now ++ drop (start + length bytes.now) file.old }
{
    file[start..start + bytes.len()].copy_from_slice(bytes);
}
