//! Pieces of a line.

use pb_text::Name;

/// How many bytes stand before the first line feed, and with it.
pub fn line_len(bytes: &[u8]) -> usize {
    let mut len: usize = 0;
    for byte in bytes {
        len = len.saturating_add(1);
        if *byte == b'\n' {
            return len;
        }
    }
    len
}

/// The bytes up to a place, and those from there on.
pub fn cut(bytes: &[u8], at: usize) -> (&[u8], &[u8]) {
    if at < bytes.len() {
        bytes.split_at(at)
    } else {
        (bytes, b"")
    }
}

/// The blanks in front, and the rest.
pub fn unindented(line: &[u8]) -> (&[u8], &[u8]) {
    cut(line, line.iter().take_while(|byte| **byte == b' ').count())
}

/// The word in front, and the rest.
pub fn word(bytes: &[u8]) -> (&[u8], &[u8]) {
    cut(
        bytes,
        bytes.iter().take_while(|byte| goes_on(**byte)).count(),
    )
}

/// The name in front.
pub fn name(bytes: &[u8]) -> Option<Name> {
    let (word, _) = word(bytes);
    Name::of(word)
}

/// What stands behind the word in front.
pub fn behind_word(bytes: &[u8]) -> &[u8] {
    let (_, rest) = word(bytes);
    rest
}

/// The bytes behind the first one of these, where there is one.
pub fn behind(byte: u8, bytes: &[u8]) -> Option<&[u8]> {
    let (_, rest) = cut(bytes, bytes.iter().take_while(|it| **it != byte).count());
    rest.get(1..)
}

/// The bytes before the first one of these.
pub fn before(byte: u8, bytes: &[u8]) -> &[u8] {
    let (front, _) = cut(bytes, bytes.iter().take_while(|it| **it != byte).count());
    front
}

fn goes_on(byte: u8) -> bool {
    byte.is_ascii_alphanumeric() || byte == b'_'
}
