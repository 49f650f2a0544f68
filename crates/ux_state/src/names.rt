//! What paths and names of the abstract namespace lead to.
ghost use Rattle.std.specs.Prelude.{◌≡◌, Ok, Err, MatchResult, option_map};
ghost use Rattle.ux_model.specs.Names.{named};
ghost use Rattle.ux_model.specs.Binding.{same_kind, socket_of_kind, socket_of_target, look_up_path, look_up_abstract, look_up};
ghost use Rattle.ux_names.specs.Targets.{target_of};

use crate::finding::FoundSocket;
use crate::state::State;
use ux_names::{PathTarget, Paths};
use ux_object::FileObject;
use ux_types::{Addr, DescriptionId, Errno, Name, SockType};

impl<O: FileObject> State<O> {
    /// All paths.
    pub fn paths(&self) -> &Paths
        ensures { result.now.names ≡ self.now.paths }
    {
        &self.paths
    }

    /// What a path names, if it is there.
    pub fn path(&self, name: &Name) -> Option<PathTarget>
        ensures { option_map target_of result ≡ named name.now self.now.paths }
    {
        self.paths.find(name)
    }

    /// The description whose socket a name of the abstract namespace leads to, if it is there.
    pub fn abstract_name(&self, name: &Name) -> Option<DescriptionId>
        ensures { result ≡ named name.now self.now.abstract_names }
    {
        self.abstract_names.find(name)
    }

    /// The socket of this type that an address leads to, and the handle of its description.
    ///
    /// # Errors
    ///
    /// EINVAL for the unnamed address, ENOENT for a path that isn't there, ECONNREFUSED for a name that isn't
    /// there, a path of a file object and a socket that is gone, EPROTOTYPE for a socket of another type.
    pub fn socket_named(&self, kind: SockType, addr: &Addr) -> Result<FoundSocket<'_>, Errno>
        ensures { MatchResult result (λ r. look_up self.now kind addr.now ≡ Ok (r.id, r.socket.now)) (λ e. look_up self.now kind addr.now ≡ Err e) }
    {
        match addr {
            Addr::Unnamed => Err(Errno::EINVAL),
            Addr::Path(name) => self.socket_of_path(kind, name),
            Addr::Abstract(name) => self.socket_of_name(kind, name),
        }
    }

    /// The socket of this type that a path leads to.
    fn socket_of_path(&self, kind: SockType, name: &Name) -> Result<FoundSocket<'_>, Errno>
        ensures { MatchResult result (λ r. look_up_path self.now kind name.now ≡ Ok (r.id, r.socket.now)) (λ e. look_up_path self.now kind name.now ≡ Err e) }
    {
        match self.path(name) {
            Some(target) => self.socket_of_target(kind, target),
            None => Err(Errno::ENOENT),
        }
    }

    /// The socket of this type that a path with this target leads to.
    fn socket_of_target(&self, kind: SockType, target: PathTarget) -> Result<FoundSocket<'_>, Errno>
        ensures { MatchResult result (λ r. socket_of_target self.now kind (target_of target) ≡ Ok (r.id, r.socket.now)) (λ e. socket_of_target self.now kind (target_of target) ≡ Err e) }
    {
        match target {
            PathTarget::Socket(id) => self.socket_of_kind(kind, id),
            PathTarget::File(_) => Err(Errno::ECONNREFUSED),
        }
    }

    /// The socket of this type that a name of the abstract namespace leads to.
    fn socket_of_name(&self, kind: SockType, name: &Name) -> Result<FoundSocket<'_>, Errno>
        ensures { MatchResult result (λ r. look_up_abstract self.now kind name.now ≡ Ok (r.id, r.socket.now)) (λ e. look_up_abstract self.now kind name.now ≡ Err e) }
    {
        match self.abstract_name(name) {
            Some(id) => self.socket_of_kind(kind, id),
            None => Err(Errno::ECONNREFUSED),
        }
    }

    /// The socket of a description, while it is there, if it is of this type.
    fn socket_of_kind(&self, kind: SockType, id: DescriptionId) -> Result<FoundSocket<'_>, Errno>
        ensures { MatchResult result (λ r. socket_of_kind self.now kind id ≡ Ok (r.id, r.socket.now)) (λ e. socket_of_kind self.now kind id ≡ Err e) }
    {
        let Some(socket) = self.socket(id) else {
            return Err(Errno::ECONNREFUSED);
        };
        if same_kind(kind, socket.kind()) {
            Ok(FoundSocket { id, socket })
        } else {
            Err(Errno::EPROTOTYPE)
        }
    }
}

/// Whether these are one type.
fn same_kind(a: SockType, b: SockType) -> bool
    ensures { result ≡ same_kind a b }
{
    match (a, b) {
        (SockType::Stream, SockType::Stream) => true,
        (SockType::Dgram, SockType::Dgram) => true,
        (SockType::Seq, SockType::Seq) => true,
        _ => false,
    }
}
