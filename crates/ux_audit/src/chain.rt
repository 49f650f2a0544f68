//! Chains of holdings.
ghost use Rattle.std.specs.Prelude.{◌≡◌, ◌↔◌, IsTrue, IsSomeAnd};

use ux_types::Link;

/// A list of holdings, each given from the one before it, the maker's first.
#[derive(Debug, Drop)]
pub struct Chain {
    /// The holdings.
    pub links: Vec<Link>,
}

/// Whether the link is the same.
fn same_link(a: &Link, b: &Link) -> bool
    ensures { IsTrue result ↔ (a.now ≡ b.now) }
{
    a == b
}

/// Whether the links are the same.
fn same_links(a: &[Link], b: &[Link]) -> bool
    ensures { IsTrue result ↔ (a.now ≡ b.now) }
{
    if a.len() != b.len() {
        return false;
    }
    for i in 0..a.len() {
        if !same_link(&a[i], &b[i]) {
            return false;
        }
    }
    true
}

/// Whether the chain that was found is this one.
pub(crate) fn is_found(found: &Option<Chain>, chain: &Chain) -> bool
    ensures { IsTrue result ↔ IsSomeAnd found.now (λ own. own.links.items ≡ chain.now.links.items) }
{
    match found {
        Some(own) => same_links(own.links.as_slice(), chain.links.as_slice()),
        None => false,
    }
}
