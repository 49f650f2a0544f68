//! What the tests share: lists of references by their numbers, and paths.
use std::alloc::{AllocError, Global};
use std::process::Abort;
use ux_rights::RefList;
use ux_types::{Addr, DescriptionId, Name};

/// References to the descriptions with these numbers.
pub(crate) fn references(alloc: Global, numbers: &[u128]) -> Result<RefList, AllocError> {
    let mut list = RefList::new(alloc);
    for number in numbers {
        list.push(DescriptionId::new(*number))?;
    }
    Ok(list)
}

/// Sees that a list has these references.
pub(crate) fn expect_references(rt: &impl Abort, list: &RefList, numbers: &[u128]) {
    assert_eq!(rt; list.len(), numbers.len());
    for (reference, number) in list.as_slice().iter().zip(numbers) {
        assert_eq!(rt; reference.description().number(), *number);
    }
}

/// A path with these bytes, as an address.
pub(crate) fn path(alloc: Global, bytes: &[u8]) -> Result<Addr, AllocError> {
    Ok(Addr::Path(Name::from_slice(alloc, bytes)?))
}

/// Whether an answer is a refusal. Of a value of any type its drop is a call, and not each of its parts.
pub(crate) fn fails<T: Drop, E: Drop>(answer: Result<T, E>) -> bool {
    answer.is_err()
}
