//! Further owners of what a reply holds.
ghost use Rattle.std.specs.Prelude.{◌≡◌, ◌≤◌};
ghost use Rattle.ux_model.specs.Rooms.{name_bytes, sender_bytes};

use ux_types::{Addr, BytesRoom};

/// A copy of an address.
pub(crate) fn addr_copy(room: BytesRoom, addr: &Addr) -> Addr
    requires { name_bytes addr.now ≤ room }
    ensures { result ≡ addr.now }
{
    match addr {
        Addr::Unnamed => Addr::Unnamed,
        Addr::Path(name) => Addr::Path(name.share(room)),
        Addr::Abstract(name) => Addr::Abstract(name.share(room)),
    }
}

/// A copy of a sender's address, where there is one.
pub(crate) fn sender_copy(room: BytesRoom, from: &Option<Addr>) -> Option<Addr>
    requires { sender_bytes from.now ≤ room }
    ensures { result ≡ from.now }
{
    match from {
        Some(addr) => Some(addr_copy(room, addr)),
        None => None,
    }
}
