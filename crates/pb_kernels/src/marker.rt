ghost use Rattle.std.specs.Prelude.{◌≡◌, ◌≤◌, length};
ghost use Rattle.std.specs.List.{prefix_len};
ghost use Rattle.pb_text.specs.Lexemes.{is_blank, begins_word, goes_on_word};
ghost use Rattle.pb_kernels.specs.Marks.{ends_marker, is_mark, begins_name, opening_of, room_of, kernel_of, marker_of, are_blank};

use crate::{Dialect, KName, Kind, Name};

/// What a line that begins with `/*@` is.
#[derive(Clone, Copy)]
pub enum Marker {
    /// It opens the body with this name.
    Opening(KName),
    /// It closes a body.
    Closing,
    /// It is of no other form.
    Bad,
}

/// What a line that begins with `/*@` is in a file of this dialect, with the line feed that ends it.
#[tactic(auto, unfolding(crate::specs::Marks::marker_of))]
pub fn marker_of(line: &[u8], dialect: Dialect) -> Marker
    ensures { result ≡ marker_of dialect line.now }
{
    if is_mark(b"/*@ end", line) {
        return Marker::Closing;
    }
    if is_mark(b"/*@ prelude", line) {
        return Marker::Opening(KName {
            kind: Kind::Prelude,
            name: None,
        });
    }
    match line.strip_prefix(b"/*@ kernel ") {
        Some(text) => kernel_of(text, dialect),
        None => Marker::Bad,
    }
}

#[tactic(auto, unfolding(crate::specs::Marks::kernel_of))]
fn kernel_of(text: &[u8], dialect: Dialect) -> Marker
    ensures { result ≡ kernel_of dialect text.now }
{
    if let Some(text) = text.strip_prefix(b"k_") {
        opening_of(Kind::Compute, text)
    } else if let Some(text) = text.strip_prefix(b"c_") {
        opening_of(Kind::Choice, text)
    } else if let Some(text) = text.strip_prefix(b"make_") {
        opening_of(Kind::Make, text)
    } else if let Some(text) = text.strip_prefix(b"take_") {
        opening_of(Kind::Take, text)
    } else {
        room_of(text, dialect)
    }
}

/// The opening of a body that gives room, which only program texts have.
fn room_of(text: &[u8], dialect: Dialect) -> Marker
    ensures { result ≡ room_of dialect text.now }
{
    match dialect {
        Dialect::Plain => Marker::Bad,
        Dialect::Program => match text.strip_prefix(b"room_") {
            Some(text) => opening_of(Kind::Room, text),
            None => Marker::Bad,
        },
    }
}

#[tactic(auto, unfolding(crate::specs::Marks::opening_of))]
fn opening_of(kind: Kind, text: &[u8]) -> Marker
    ensures { result ≡ opening_of kind text.now }
{
    let (word, end) = text.split_at(word_len(text));
    if !begins_name(text) || !ends_marker(end) {
        return Marker::Bad;
    }
    match Name::of(word) {
        Some(name) => Marker::Opening(KName {
            kind,
            name: Some(name),
        }),
        None => Marker::Bad,
    }
}

fn word_len(text: &[u8]) -> usize
    ensures count { result ≡ prefix_len goes_on_word text.now }
    ensures within { result ≤ length text.now }
{
    text.iter().take_while(|byte| goes_on_word(**byte)).count()
}

fn begins_name(text: &[u8]) -> bool
    ensures { result ≡ begins_name text.now }
{
    match text.first() {
        Some(byte) => begins_word(*byte),
        None => false,
    }
}

fn is_mark(front: &[u8], line: &[u8]) -> bool
    ensures { result ≡ is_mark front.now line.now }
{
    match line.strip_prefix(front) {
        Some(rest) => ends_marker(rest),
        None => false,
    }
}

#[tactic(auto, unfolding(crate::specs::Marks::ends_marker))]
fn ends_marker(text: &[u8]) -> bool
    ensures { result ≡ ends_marker text.now }
{
    match text.strip_prefix(b" */") {
        Some(rest) => are_blank(rest),
        None => false,
    }
}

fn are_blank(bytes: &[u8]) -> bool
    ensures { result ≡ are_blank bytes.now }
{
    bytes.iter().all(|byte| is_blank(*byte))
}

fn begins_word(byte: u8) -> bool
    ensures { result ≡ begins_word byte }
{
    byte.is_ascii_alphabetic() || byte == b'_'
}

fn goes_on_word(byte: u8) -> bool
    ensures { result ≡ goes_on_word byte }
{
    byte.is_ascii_alphanumeric() || byte == b'_'
}

fn is_blank(byte: u8) -> bool
    ensures { result ≡ is_blank byte }
{
    byte == b' ' || byte == b'\t' || byte == b'\r' || byte == b'\n'
}
