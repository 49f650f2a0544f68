//! Values as lines.

ghost use Rattle.std.specs.Prelude.{◌≡◌, ◌++◌, ◌∷◌, ◌≤◌, [], List, ℕ, Some, IfOk, string_bytes};
ghost use Rattle.serde_json.specs.Data.{depth};
ghost use Rattle.serde_json.specs.Read.{read, max_depth};
ghost use Rattle.serde_json.specs.View.{view};

use serde_json::Value;
use std::alloc::{AllocError, Global};

/// A value as one line, with its line feed.
///
/// # Errors
///
/// Out of memory.
pub fn line_of(alloc: Global, value: &Value) -> Result<String, AllocError>
    // It reads as the value: `IsLineOf`, written out.
    ensures { IfOk result (λ line. (text : List ℕ) × (string_bytes line ≡ text ++ 10 ∷ [])
        × (depth (view value.now) ≤ max_depth → read text ≡ Some (view value.now))) }
{
    let mut line = value.to_string(alloc)?;
    line.push('\n')?;
    Ok(line)
}
