//! Which paths and addresses can be (unix(7)).
ghost use Rattle.std.specs.Prelude.{◌≡◌, ◌==◌};
ghost use Rattle.std.specs.List.{list_any};
ghost use Rattle.ux_model.specs.Names.{is_valid_path, is_valid_addr, is_unnamed_addr};

use ux_types::{Addr, NAME_LIMIT, Name};

/// Whether it can be a path: 1 to 107 bytes without NUL (unix(7)).
pub fn is_valid_path(path: &Name) -> bool
    ensures { result ≡ is_valid_path path.now }
{
    let bytes = path.as_bytes();
    0 < bytes.len() && bytes.len() <= NAME_LIMIT && !has_nul(bytes)
}

/// Whether it can be an address: the unnamed one, a path, or an abstract name of 0 to 107 bytes (unix(7)).
pub fn is_valid_addr(addr: &Addr) -> bool
    ensures { result ≡ is_valid_addr addr.now }
{
    match addr {
        Addr::Unnamed => true,
        Addr::Path(name) => is_valid_path(name),
        Addr::Abstract(name) => name.as_bytes().len() <= NAME_LIMIT,
    }
}

/// Whether it is the address of a socket that was never bound.
pub fn is_unnamed(addr: &Addr) -> bool
    ensures { result ≡ is_unnamed_addr addr.now }
{
    matches!(addr, Addr::Unnamed)
}

/// Whether one of these bytes is NUL.
fn has_nul(bytes: &[u8]) -> bool
    ensures { result ≡ list_any (λ b. b == 0) bytes.now }
{
    bytes.iter().any(|b| *b == 0)
}
