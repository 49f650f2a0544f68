//! Whether two requests are equal, and two replies.
ghost use Rattle.std.specs.Prelude.{◌≡◌, ◌↔◌, IsTrue};

use ux_types::{Reply, Request};

/// Whether two requests are equal: `==`, with a contract that speaks of whole requests.
#[tactic(auto, using(crate::proofs::SameRequests::same_request))]
pub fn is_same_request(one: &Request, other: &Request) -> bool
    ensures { IsTrue result ↔ (one.now ≡ other.now) }
{
    one == other
}

/// Whether two replies are equal: `==`, with a contract that speaks of whole replies.
#[tactic(auto, using(crate::proofs::SameReplies::same_reply))]
pub fn is_same_reply(one: &Reply, other: &Reply) -> bool
    ensures { IsTrue result ↔ (one.now ≡ other.now) }
{
    one == other
}
