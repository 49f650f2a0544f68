//! What a line asks for.

/// What a line asks for. Texts are what is left of it.
#[derive(Clone, Copy, Debug)]
pub enum Asked<'a> {
    /// Nothing: it is empty or a comment.
    Nothing,
    /// A call that is made at once.
    Call(&'a [u8]),
    /// A call that is made as soon as it needn't wait, under this number.
    Pend(u32, &'a [u8]),
    /// That a pending call is never made.
    Cancel(u32),
    /// An order that is drawn by this seed.
    Order(u64),
    /// Who holds what.
    Holders,
    /// Which chain leads to each number.
    Audit,
    /// None of these.
    Other,
}

/// Whether the line may be one of the header.
pub fn is_of_header(line: &[u8]) -> bool {
    let (word, _) = first_word(line);
    says_nothing(line)
        || word == b"proc".as_slice()
        || word == b"object".as_slice()
        || word == b"serial".as_slice()
}

/// What a line behind the header asks for.
pub fn asked_by(line: &[u8]) -> Asked<'_> {
    if says_nothing(line) {
        return Asked::Nothing;
    }
    if begins_with_digit(line) {
        return Asked::Call(line);
    }
    let (word, rest) = first_word(line);
    if word == b"pend".as_slice() {
        return pend(rest);
    }
    if word == b"cancel".as_slice() {
        return cancel(rest);
    }
    if word == b"order".as_slice() {
        return order(rest);
    }
    if line == b"holders".as_slice() {
        return Asked::Holders;
    }
    if line == b"audit".as_slice() {
        return Asked::Audit;
    }
    Asked::Other
}

/// Whether a line is empty or a comment.
fn says_nothing(line: &[u8]) -> bool {
    match line.first() {
        Some(byte) => *byte == b'#',
        None => true,
    }
}

fn begins_with_digit(line: &[u8]) -> bool {
    match line.first() {
        Some(byte) => byte.is_ascii_digit(),
        None => false,
    }
}

/// The first word of a line, and what stands behind the blank that ends it.
fn first_word(line: &[u8]) -> (&[u8], &[u8]) {
    for index in 0..line.len() {
        if line[index] == b' ' {
            return (&line[..index], &line[index + 1..]);
        }
    }
    (line, &line[line.len()..])
}

fn pend(rest: &[u8]) -> Asked<'_> {
    let (word, call) = first_word(rest);
    match small_number(word) {
        Some(number) if begins_with_digit(call) => Asked::Pend(number, call),
        _ => Asked::Other,
    }
}

fn cancel<'a>(rest: &[u8]) -> Asked<'a> {
    match small_number(rest) {
        Some(number) => Asked::Cancel(number),
        None => Asked::Other,
    }
}

fn order<'a>(rest: &[u8]) -> Asked<'a> {
    match number_of(rest) {
        Some(seed) => Asked::Order(seed),
        None => Asked::Other,
    }
}

/// A number below 2^32.
fn small_number(word: &[u8]) -> Option<u32> {
    match u32::try_from(number_of(word)?) {
        Ok(number) => Some(number),
        Err(_) => None,
    }
}

/// The number that is written so, as numbers are in scripts: in decimal, without leading zeros.
fn number_of(word: &[u8]) -> Option<u64> {
    if !begins_with_digit(word) || (word.len() > 1 && word[0] == b'0') {
        return None;
    }
    match str::from_utf8(word) {
        Ok(text) => text.parse().ok(),
        Err(_) => None,
    }
}
