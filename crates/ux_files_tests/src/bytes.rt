//! Bytes and names round the 14 bytes that lie in the value itself: what is kept, and what memory it takes.
use hoard::Purse;
use std::alloc::{AllocError, Global};
use std::collections::HashSet;
use std::process::Abort;
use std::sync::Arc;
use std::test::Fail;
use std::thread;
use std::thread::Threads;
use ux_types::{Bytes, BytesRoom, Entry, Name, Reply, Request};

/// Bytes of these lengths: 0, 1, 3, 13, 14, 15 and 100. The third are no text.
const TEXTS: &[&[u8]] = &[
    b"",
    b"/",
    b"/a\xFF",
    b"/run/one.sock",
    b"/run/some.sock",
    b"/run/other.sock",
    b"0123456789abcdefghijklmnopqrstuvwxyzABCDEFGHIJKLMNOPQRSTUVWXYZ\
      0123456789abcdefghijklmnopqrstuvwxyzAB",
];

/// How many of the first bytes are taken.
const COUNTS: &[usize] = &[0, 1, 12, 13, 14, 15, 16, 99, 100, 101, 1 << 40];

/// What one takes beside what it points to. Where one grows, each queue and each history does.
#[test]
fn values_are_so_large(rt: HostRuntime) {
    assert_eq!(rt; size_of::<Bytes>(), 16);
    assert_eq!(rt; size_of::<Name>(), 16);
    assert_eq!(rt; size_of::<Request>(), 80);
    assert_eq!(rt; size_of::<Reply>(), 80);
    assert_eq!(rt; size_of::<Entry>(), 232);
}

/// Sees that these are the bytes.
fn expect_bytes(rt: &impl Abort, bytes: &Bytes, text: &[u8]) {
    assert!(rt; bytes.as_slice() == text);
    assert_eq!(rt; bytes.len(), text.len());
    assert_eq!(rt; bytes.is_empty(), text.is_empty());
}

/// Bytes that are made in each way.
fn made_of(rt: &impl Abort, alloc: Global, text: &[u8]) -> Result<Vec<Bytes>, AllocError> {
    assert!(rt; text.len() <= 100);
    let mut made = Vec::new(alloc);
    made.push(Bytes::from_slice(alloc, text)?)?;
    made.push(Bytes::new(Vec::from_slice(alloc, text)?)?)?;
    let whole = Arc::new(alloc, Vec::from_slice(alloc, text)?)?;
    made.push(Bytes::from_shared(whole.clone()?))?;
    made.push(Bytes::from_shared(whole))?;
    Ok(made)
}

#[test]
fn bytes_are_kept_however_they_are_made(rt: HostRuntime) -> Result<(), Fail> {
    let alloc = rt.alloc();
    for text in TEXTS {
        let made = made_of(&rt, alloc, text)?;
        for bytes in &made {
            expect_bytes(&rt, bytes, text);
            let copy = bytes.clone()?;
            assert!(rt; copy == *bytes);
            expect_bytes(&rt, &copy, text);
            for other in &made {
                assert!(rt; bytes == other);
            }
        }
    }
    expect_bytes(&rt, &Bytes::empty(), b"");
    expect_bytes(&rt, &Bytes::short(b"/run/some.sock"), b"/run/some.sock");
    Ok(())
}

/// The first so many of them, or all.
fn front_of(text: &[u8], n: usize) -> &[u8] {
    &text[..n.min(text.len())]
}

#[test]
fn the_first_bytes_are_taken(rt: HostRuntime) -> Result<(), Fail> {
    let alloc = rt.alloc();
    for text in TEXTS {
        for n in COUNTS {
            for bytes in made_of(&rt, alloc, text)? {
                let copy = bytes.clone()?;
                expect_bytes(&rt, &bytes.first(*n), front_of(text, *n));
                expect_bytes(&rt, &copy, text);
                expect_bytes(&rt, &copy.first(*n).first(14), front_of(text, 14.min(*n)));
            }
        }
    }
    Ok(())
}

/// Sees that a vector of bytes is of these.
fn expect_vec(rt: &impl Abort, items: &Vec<u8>, text: &[u8]) {
    assert!(rt; items.as_slice() == text);
}

#[test]
fn bytes_come_out_as_a_vector(rt: HostRuntime) -> Result<(), Fail> {
    let alloc = rt.alloc();
    for text in TEXTS {
        // the last two have the same bytes, of which the last is then the only owner
        for bytes in made_of(&rt, alloc, text)? {
            expect_vec(&rt, &bytes.into_vec(alloc)?, text);
        }
        let bytes = Bytes::from_slice(alloc, text)?;
        let copy = bytes.clone()?;
        expect_vec(&rt, &bytes.first(20).into_vec(alloc)?, front_of(text, 20));
        expect_vec(&rt, &copy.first(20).into_vec(alloc)?, front_of(text, 20));
    }
    Ok(())
}

#[test]
fn names_are_kept(rt: HostRuntime) -> Result<(), Fail> {
    let alloc = rt.alloc();
    let mut seen = HashSet::new(alloc);
    for text in TEXTS {
        let name = Name::from_slice(alloc, text)?;
        assert!(rt; name.as_bytes() == *text);
        assert!(rt; name.clone()? == name);
        assert!(rt; seen.insert(name)?);
    }
    for text in TEXTS {
        let mut longer = Vec::from_slice(alloc, text)?;
        longer.push(b'+')?;
        let cut = Bytes::new(longer)?.first(text.len());
        assert!(rt; seen.contains(&Name::new(cut)));
        assert!(rt; !seen.insert(Name::from_slice(alloc, text)?)?);
    }
    let cut = Bytes::from_slice(alloc, b"/run/other.sock")?.first(14);
    assert!(rt; !seen.contains(&Name::new(cut)));
    Ok(())
}

/// Sees that bytes and a name are shared where there is room for them.
fn expect_shared(rt: &impl Abort, alloc: Global, text: &[u8]) -> Result<(), AllocError> {
    let bytes = Bytes::from_slice(alloc, text)?;
    let room = BytesRoom::new(alloc, bytes.len())?;
    let more = bytes.share(room);
    expect_bytes(rt, &bytes, text);
    expect_bytes(rt, &more, text);
    let name = Name::new(more);
    let room = BytesRoom::new(alloc, text.len())?;
    let again = name.share(room);
    assert!(rt; again == name);
    assert!(rt; again.as_bytes() == text);
    Ok(())
}

#[test]
fn bytes_are_shared(rt: HostRuntime) -> Result<(), Fail> {
    for text in TEXTS {
        expect_shared(&rt, rt.alloc(), text)?;
    }
    Ok(())
}

/// Whether bytes, and a name of them, are made, copied, shared, and cut.
fn are_made(alloc: Global, text: &[u8]) -> Result<bool, AllocError> {
    let bytes = Bytes::from_slice(alloc, text)?;
    let name = Name::new(bytes.share(BytesRoom::new(alloc, text.len())?));
    let again = name.share(BytesRoom::new(alloc, text.len())?);
    let right = name.clone()? == again && again.as_bytes() == text;
    Ok(right && bytes.clone()?.first(5).as_slice() == front_of(text, 5))
}

/// Whether further owners of bytes have them, all, the first 15, and the first 5.
fn are_copied(bytes: &Bytes) -> Result<bool, AllocError> {
    let (whole, many, few) = (bytes.clone()?, bytes.clone()?, bytes.clone()?);
    let right = whole == *bytes && many.first(15).as_slice() == front_of(bytes.as_slice(), 15);
    Ok(right && few.first(5).as_slice() == front_of(bytes.as_slice(), 5))
}

#[test]
fn few_bytes_and_copies_take_no_memory(rt: HostRuntime) -> Result<(), Fail> {
    let alloc = rt.alloc();
    let mut all = Vec::new(alloc);
    for text in TEXTS {
        all.push((*text, Bytes::from_slice(alloc, text)?))?;
    }
    let mut purse = Purse::new(alloc)?;
    purse.refill(alloc);
    let mut right = true;
    for (text, bytes) in &all {
        let expected = if text.len() <= 14 {
            Ok(true)
        } else {
            Err(AllocError)
        };
        right = right && are_made(alloc, text) == expected && are_copied(bytes) == Ok(true);
    }
    drop(purse);
    assert!(rt; right);
    Ok(())
}

#[test]
fn the_last_owner_gives_its_vector_out(rt: HostRuntime) -> Result<(), Fail> {
    let alloc = rt.alloc();
    let text = b"/run/other.sock".as_slice();
    let bytes = Bytes::from_slice(alloc, text)?;
    let other = bytes.clone()?;
    let mut purse = Purse::new(alloc)?;
    purse.refill(alloc);
    let failed = bytes.into_vec(alloc).is_err();
    let given = other.into_vec(alloc);
    drop(purse);
    assert!(rt; failed, "another owner has the bytes");
    expect_vec(&rt, &given?, text);
    Ok(())
}

/// Sees that two threads find the same bytes.
fn expect_shared_by_threads<R: Abort + Threads>(rt: &R, ours: Bytes, theirs: Bytes, text: &[u8]) {
    let (left, right) = thread::join(
        rt,
        move || ours.as_slice() == text,
        move || theirs.first(14).as_slice() == front_of(text, 14),
    );
    assert!(rt; left && right);
}

#[test]
fn threads_share_bytes(rt: HostRuntime) -> Result<(), Fail> {
    for text in TEXTS {
        let bytes = Bytes::from_slice(rt.alloc(), text)?;
        let copy = bytes.clone()?;
        expect_shared_by_threads(&rt, bytes, copy, text);
    }
    Ok(())
}
