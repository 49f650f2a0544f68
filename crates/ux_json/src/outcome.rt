//! What a check and a comparison came to.

ghost use Rattle.std.specs.Prelude.{◌≡◌, codes, Some, IfOk};
ghost use Rattle.serde_json.specs.Data.{number, unsigned, string};
ghost use Rattle.serde_json.specs.Find.{get};
ghost use Rattle.serde_json.specs.View.{view};

use bstr::ByteSlice;
use serde_json::{Value, json};
use std::alloc::{AllocError, Global};

/// How many calls were made again and answered alike, as an object.
///
/// # Errors
///
/// Out of memory.
pub fn check_value(alloc: Global, calls: usize) -> Result<Value, AllocError>
    ensures { IfOk result (λ v. get (codes "calls") (view v) ≡ Some (number (unsigned calls))) }
{
    json!(in alloc; {"kind": "check", "result": "ok", "calls": calls})
}

/// How many calls answered as expected, as an object.
///
/// # Errors
///
/// Out of memory.
pub fn expect_value(alloc: Global, calls: usize) -> Result<Value, AllocError>
    ensures { IfOk result (λ v. get (codes "calls") (view v) ≡ Some (number (unsigned calls))) }
{
    json!(in alloc; {"kind": "expect", "result": "ok", "calls": calls})
}

/// A call that answered otherwise than expected, as an object: its line, what was expected, and what it answered, or null where
/// it wasn't made. Bytes of a script that aren't UTF-8 are U+FFFD.
///
/// # Errors
///
/// Out of memory.
pub fn difference_value(
    alloc: Global,
    line: usize,
    expected: &[u8],
    got: &Option<String>,
) -> Result<Value, AllocError>
    ensures kind { IfOk result (λ v. get (codes "kind") (view v) ≡ Some (string (codes "difference"))) }
    ensures line { IfOk result (λ v. get (codes "line") (view v) ≡ Some (number (unsigned line))) }
{
    let mut reply = String::new(alloc);
    expected.to_str_lossy_into(&mut reply)?;
    let got = match got {
        Some(text) => Value::try_from_str(alloc, text)?,
        None => Value::Null,
    };
    json!(in alloc; {"kind": "difference", "line": line, "expected": reply, "got": got})
}
