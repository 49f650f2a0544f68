//! Control buffers byte by byte.
use linked_list_allocator::LocalHeap;
use std::alloc::{AllocError, Allocator, Global};
use std::process::Abort;
use std::test::Fail;
use ux_cmsg::{Control, ControlError, read_control, write_control};
use ux_types::{Cred, Errno, Fd, Pid, Refusal};

/// Rights 3 and 4.
const RIGHTS: [u8; 24] = [
    24, 0, 0, 0, 0, 0, 0, 0, 1, 0, 0, 0, 1, 0, 0, 0, 3, 0, 0, 0, 4, 0, 0, 0,
];

/// Credentials (2, 1000, 1000), then rights 3.
const CRED_AND_RIGHTS: [u8; 52] = [
    28, 0, 0, 0, 0, 0, 0, 0, 1, 0, 0, 0, 2, 0, 0, 0, 2, 0, 0, 0, 0xe8, 3, 0, 0, 0xe8, 3, 0, 0, 0,
    0, 0, 0, 20, 0, 0, 0, 0, 0, 0, 0, 1, 0, 0, 0, 1, 0, 0, 0, 3, 0, 0, 0,
];

/// Rights 3, padding that isn't zero, then credentials (2, 1000, 1000).
const RIGHTS_AND_CRED: [u8; 52] = [
    20, 0, 0, 0, 0, 0, 0, 0, 1, 0, 0, 0, 1, 0, 0, 0, 3, 0, 0, 0, 0xff, 7, 0, 1, 28, 0, 0, 0, 0, 0,
    0, 0, 1, 0, 0, 0, 2, 0, 0, 0, 2, 0, 0, 0, 0xe8, 3, 0, 0, 0xe8, 3, 0, 0,
];

/// The credentials (2, 1000, 1000).
fn cred() -> Option<Cred> {
    Some(Cred {
        pid: Pid(2),
        uid: 1000,
        gid: 1000,
    })
}

/// What a buffer reads as, of which the proofs know nothing, so that they needn't follow it.
fn read<A: Allocator>(alloc: A, bytes: &[u8]) -> Result<Control<A>, ControlError> {
    read_control(alloc, bytes)
}

/// Likewise what is written.
fn write<A: Allocator>(alloc: A, control: &Control) -> Result<Vec<u8, A>, AllocError> {
    write_control(alloc, control)
}

/// Sees what a control says.
fn expect_control<A: Allocator>(
    rt: &impl Abort,
    control: &Control<A>,
    cred: Option<Cred>,
    rights: &[Fd],
) {
    assert_eq!(rt; control.cred(), cred);
    assert_eq!(rt; control.rights(), rights);
}

/// Sees what a buffer reads as.
fn expect(
    rt: &impl Abort,
    alloc: Global,
    bytes: &[u8],
    cred: Option<Cred>,
    rights: &[Fd],
) -> Result<(), Fail> {
    let control = read(alloc, bytes)?;
    expect_control(rt, &control, cred, rights);
    Ok(())
}

/// Sees that a buffer is refused.
fn expect_invalid(rt: &impl Abort, alloc: Global, bytes: &[u8]) {
    let answer = read(alloc, bytes).err();
    assert_eq!(rt; answer, Some(ControlError::Invalid), "{bytes:?}");
}

/// Sees at which of its lengths a buffer may be cut.
fn expect_cuts(rt: &impl Abort, alloc: Global, bytes: &[u8], accepted: &[usize]) {
    for len in 0..bytes.len() {
        let refused = if accepted.contains(&len) {
            None
        } else {
            Some(ControlError::Invalid)
        };
        assert_eq!(rt; read(alloc, &bytes[..len]).err(), refused, "{len}");
    }
    assert!(rt; read(alloc, bytes).is_ok());
}

/// A copy of the rights 3 and 4 with another byte at one place.
fn rights_with(at: usize, byte: u8) -> [u8; 24] {
    let mut bytes = RIGHTS;
    if at < 24 {
        bytes[at] = byte;
    }
    bytes
}

#[test]
fn buffers_read_as_what_they_spell(rt: HostRuntime) -> Result<(), Fail> {
    let alloc = rt.alloc();
    expect(&rt, alloc, &[], None, &[])?;
    expect(&rt, alloc, &RIGHTS, None, &[Fd(3), Fd(4)])?;
    expect(&rt, alloc, &CRED_AND_RIGHTS, cred(), &[Fd(3)])?;
    expect(&rt, alloc, &RIGHTS_AND_CRED, cred(), &[Fd(3)])?;
    expect(&rt, alloc, &CRED_AND_RIGHTS[..28], cred(), &[])?;
    expect(&rt, alloc, &RIGHTS_AND_CRED[..23], None, &[Fd(3)])?;
    let no_numbers = [16, 0, 0, 0, 0, 0, 0, 0, 1, 0, 0, 0, 1, 0, 0, 0];
    expect(&rt, alloc, &no_numbers, None, &[])?;
    let other_number = rights_with(19, 0xff);
    expect(&rt, alloc, &other_number, None, &[Fd(0xff00_0003), Fd(4)])
}

#[test]
fn a_buffer_is_cut_behind_an_item(rt: HostRuntime) {
    expect_cuts(&rt, rt.alloc(), &RIGHTS, &[0]);
    expect_cuts(&rt, rt.alloc(), &CRED_AND_RIGHTS, &[0, 28, 29, 30, 31, 32]);
    expect_cuts(&rt, rt.alloc(), &RIGHTS_AND_CRED, &[0, 20, 21, 22, 23, 24]);
}

/// Bytes of an item's length: 0, ones that aren't those of numbers, one past the end, and one that all but wraps.
const WRONG_LENGTHS: &[(usize, u8)] = &[(0, 0), (0, 21), (0, 22), (0, 23), (0, 28), (7, 0x80)];

/// Bytes of another level, and of types that are none or want other data.
const WRONG_KINDS: &[(usize, u8)] = &[(8, 0), (8, 2), (11, 1), (12, 0), (12, 2), (12, 3), (15, 1)];

/// Sees that the rights 3 and 4 with each of these bytes at its place are no list of items.
fn expect_wrong(rt: &impl Abort, alloc: Global, bytes: &[(usize, u8)]) {
    for (at, byte) in bytes {
        expect_invalid(rt, alloc, &rights_with(*at, *byte));
    }
}

#[test]
fn what_is_no_list_of_items_is_refused(rt: HostRuntime) {
    let alloc = rt.alloc();
    let length_15 = [15, 0, 0, 0, 0, 0, 0, 0, 1, 0, 0, 0, 1, 0, 0, 0];
    expect_invalid(&rt, alloc, &length_15);
    let cut_short = [20, 0, 0, 0, 0, 0, 0, 0, 1, 0, 0, 0, 1, 0, 0, 0, 3, 0, 0];
    expect_invalid(&rt, alloc, &cut_short);
    expect_wrong(&rt, alloc, WRONG_LENGTHS);
    expect_wrong(&rt, alloc, WRONG_KINDS);
    let mut greatest = RIGHTS;
    for at in 0..8 {
        greatest[at] = 0xff;
    }
    expect_invalid(&rt, alloc, &greatest);
}

/// Both buffers, one behind the other.
fn joined(alloc: Global, first: &[u8], second: &[u8]) -> Result<Vec<u8>, AllocError> {
    let mut bytes = Vec::from_slice(alloc, first)?;
    bytes.extend_from_slice(second)?;
    Ok(bytes)
}

#[test]
fn no_type_stands_twice(rt: HostRuntime) -> Result<(), Fail> {
    let alloc = rt.alloc();
    let cred = &CRED_AND_RIGHTS[..32];
    expect_invalid(&rt, alloc, &joined(alloc, &RIGHTS, &RIGHTS)?);
    expect_invalid(&rt, alloc, &joined(alloc, cred, cred)?);
    expect_invalid(&rt, alloc, &joined(alloc, &RIGHTS, &RIGHTS_AND_CRED)?);
    expect_invalid(&rt, alloc, &joined(alloc, cred, &RIGHTS_AND_CRED)?);
    Ok(())
}

/// Sees which bytes are written.
fn expect_written(
    rt: &impl Abort,
    alloc: Global,
    cred: Option<Cred>,
    rights: &[Fd],
    bytes: &[u8],
) -> Result<(), Fail> {
    let control = Control::new(cred, Vec::from_slice(alloc, rights)?);
    let written = write(alloc, &control)?;
    assert_eq!(rt; written.as_slice(), bytes);
    Ok(())
}

#[test]
fn credentials_are_written_before_rights(rt: HostRuntime) -> Result<(), Fail> {
    let alloc = rt.alloc();
    expect_written(&rt, alloc, None, &[], &[])?;
    expect_written(&rt, alloc, None, &[Fd(3), Fd(4)], &RIGHTS)?;
    expect_written(&rt, alloc, cred(), &[], &CRED_AND_RIGHTS[..28])?;
    expect_written(&rt, alloc, cred(), &[Fd(3)], &CRED_AND_RIGHTS)?;
    Ok(())
}

/// The rights 0 to 99 with credentials.
fn hundred_rights(alloc: Global) -> Result<Control, AllocError> {
    let mut rights = Vec::with_capacity(alloc, 100)?;
    for number in 0..100 {
        rights.push(Fd(number))?;
    }
    Ok(Control::new(cred(), rights))
}

/// Reads in a heap of so many units of 16 bytes, and reports whether memory ran out.
fn read_lacks_memory(rt: &impl Abort, alloc: Global, units: usize) -> Result<bool, Fail> {
    let control = hundred_rights(alloc)?;
    let bytes = write(alloc, &control)?;
    let heap = LocalHeap::new(alloc, units.saturating_mul(16))?;
    match read(&heap, &bytes) {
        Ok(found) => {
            expect_control(rt, &found, control.cred(), control.rights());
            Ok(false)
        }
        Err(error) => {
            assert_eq!(rt; error, ControlError::NoMemory);
            Ok(true)
        }
    }
}

/// Writes in a heap of so many units of 16 bytes, and reports whether memory ran out.
fn write_lacks_memory(rt: &impl Abort, alloc: Global, units: usize) -> Result<bool, Fail> {
    let control = hundred_rights(alloc)?;
    let heap = LocalHeap::new(alloc, units.saturating_mul(16))?;
    match write(&heap, &control) {
        Ok(bytes) => {
            assert_eq!(rt; bytes.len(), 448);
            Ok(false)
        }
        Err(_) => Ok(true),
    }
}

#[test]
fn a_failed_allocation_is_reported(rt: HostRuntime) -> Result<(), Fail> {
    for units in 0..25 {
        assert!(rt; read_lacks_memory(&rt, rt.alloc(), units)?, "{units}");
        assert!(rt; write_lacks_memory(&rt, rt.alloc(), units)?, "{units}");
    }
    assert!(rt; !read_lacks_memory(&rt, rt.alloc(), 25)?);
    assert!(rt; !write_lacks_memory(&rt, rt.alloc(), 28)?);
    Ok(())
}

#[test]
fn errors_are_refusals(rt: HostRuntime) {
    let invalid = Refusal::from(ControlError::Invalid);
    assert_eq!(rt; invalid, Refusal::Answer(Errno::EINVAL));
    let no_memory = Refusal::from(ControlError::NoMemory);
    assert_eq!(rt; no_memory, Refusal::NoMemory);
}

#[test]
fn errors_are_printed_in_words(rt: HostRuntime) -> Result<(), Fail> {
    let invalid = ControlError::Invalid;
    let no_memory = ControlError::NoMemory;
    let text = format!(in rt.alloc(); "{invalid}, {no_memory}")?;
    assert_eq!(rt; text.as_str(), "invalid control buffer, out of memory");
    Ok(())
}
