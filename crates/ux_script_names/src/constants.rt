//! Constants of the manual pages, and the words of scripts for them.

use std::alloc::{AllocError, Global};

/// Constants that stand alone, each with its word: of socket(2), open(2), shutdown(2), lseek(2) and socket(7).
const WORDS: &[(&[u8], &[u8])] = &[
    (b"SOCK_STREAM", b"stream"),
    (b"SOCK_DGRAM", b"dgram"),
    (b"SOCK_SEQPACKET", b"seq"),
    (b"O_RDONLY", b"r"),
    (b"O_WRONLY", b"w"),
    (b"O_RDWR", b"rw"),
    (b"SHUT_RD", b"r"),
    (b"SHUT_WR", b"w"),
    (b"SHUT_RDWR", b"rw"),
    (b"SEEK_SET", b"set"),
    (b"SEEK_CUR", b"cur"),
    (b"SEEK_END", b"end"),
    (b"SO_TYPE", b"type"),
    (b"SO_ERROR", b"error"),
    (b"SO_PASSCRED", b"passcred"),
    (b"SO_PEERCRED", b"peercred"),
    (b"SO_ACCEPTCONN", b"accept"),
];

/// Flags, which may be joined by `|`, each with its letter, in the order in which letters stand.
const FLAGS: &[(&[u8], u8)] = &[
    (b"O_APPEND", b'a'),
    (b"O_NONBLOCK", b'n'),
    (b"SOCK_NONBLOCK", b'n'),
    (b"EFD_NONBLOCK", b'n'),
    (b"MSG_DONTWAIT", b'd'),
    (b"MSG_PEEK", b'p'),
    (b"MSG_TRUNC", b't'),
    (b"O_CLOEXEC", b'x'),
    (b"SOCK_CLOEXEC", b'x'),
    (b"EFD_CLOEXEC", b'x'),
    (b"MFD_CLOEXEC", b'x'),
    (b"FD_CLOEXEC", b'x'),
    (b"MSG_CMSG_CLOEXEC", b'x'),
    (b"EFD_SEMAPHORE", b's'),
];

fn is_flag(word: &[u8]) -> bool {
    FLAGS.iter().any(|(flag, _)| word == *flag)
}

/// The letters of flags that are joined by `|`.
fn letters_of(alloc: Global, word: &[u8]) -> Result<Option<Vec<u8>>, AllocError> {
    if !word.split(|byte| *byte == b'|').all(is_flag) {
        return Ok(None);
    }
    let mut letters = Vec::new(alloc);
    for (flag, letter) in FLAGS {
        let asked = word.split(|byte| *byte == b'|').any(|part| part == *flag);
        if asked && letters.last() != Some(letter) {
            letters.push(*letter)?;
        }
    }
    Ok(Some(letters))
}

/// The number behind `0x` in decimal digits.
fn decimal_of(alloc: Global, word: &[u8]) -> Result<Option<Vec<u8>>, AllocError> {
    let Some(digits) = word.strip_prefix(b"0x") else {
        return Ok(None);
    };
    let Ok(text) = str::from_utf8(digits) else {
        return Ok(None);
    };
    match u64::from_str_radix(text, 16) {
        Ok(number) if !text.starts_with('+') => {
            Ok(Some(format!(in alloc; "{number}")?.into_bytes()))
        }
        _ => Ok(None),
    }
}

/// The word of a script that a constant or a number behind `0x` stands for, if it is one.
pub(crate) fn word_for(alloc: Global, word: &[u8]) -> Result<Option<Vec<u8>>, AllocError> {
    for (constant, plain) in WORDS {
        if word == *constant {
            return Ok(Some(Vec::from_slice(alloc, plain)?));
        }
    }
    if let Some(letters) = letters_of(alloc, word)? {
        return Ok(Some(letters));
    }
    decimal_of(alloc, word)
}
