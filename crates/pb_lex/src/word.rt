ghost use Rattle.std.specs.Prelude.{◌≡◌, ◌≤◌, ◌<◌, true, length, slice_index, take, find, nat_eq};
ghost use Rattle.std.specs.Cmp.Lexicographic.{pointwise};
ghost use Rattle.std.specs.List.{prefix_len};
ghost use Rattle.pb_text.specs.Lexemes.{begins_word, goes_on_word, word, word_token};
ghost use Rattle.pb_text.specs.Spellings.{key_of, key_spelling};
ghost use Rattle.pb_lex.specs.Seen.{keys_of, lexeme_seen, IsSound, IsLevel};

use crate::lexeme::{Fault, Lexeme, Sort};
use pb_text::Key;

/// A word: a keyword, or else a name.
pub fn word(text: &[u8]) -> Lexeme
    requires some { 0 < length text.now }
    requires begun { begins_word (slice_index text.now 0) ≡ true }
    ensures seen { lexeme_seen result.sort result.len text.now ≡ word text.now }
    ensures some { 0 < result.len }
    ensures within { result.len ≤ length text.now }
    ensures sound { IsSound result.sort result.len text.now }
    ensures level { IsLevel result.sort result.len text.now }
{
    let len = word_len(text);
    match key_of(&text[..len]) {
        Some(key) => Lexeme {
            sort: Sort::Key(key),
            len,
        },
        None => name(text, len),
    }
}

// The word of so many bytes, which is no keyword.
fn name(text: &[u8], len: usize) -> Lexeme
    requires is { len ≡ prefix_len goes_on_word text.now }
    requires some { 0 < length text.now }
    requires begun { begins_word (slice_index text.now 0) ≡ true }
    requires own { key_of (take len text.now) ≡ None }
    ensures seen { lexeme_seen result.sort result.len text.now ≡ word_token (take len text.now) len None }
    ensures len { result.len ≡ len }
    ensures sound { IsSound result.sort result.len text.now }
    ensures level { IsLevel result.sort result.len text.now }
{
    if len <= 64 {
        Lexeme {
            sort: Sort::Name,
            len,
        }
    } else {
        Lexeme {
            sort: Sort::Bad(Fault::NameTooLong),
            len,
        }
    }
}

fn word_len(text: &[u8]) -> usize
    ensures { result ≡ prefix_len goes_on_word text.now }
{
    text.iter().take_while(|byte| goes_on_word(**byte)).count()
}

/// A letter or `_`.
pub fn begins_word(byte: u8) -> bool
    ensures { result ≡ begins_word byte }
{
    byte.is_ascii_alphabetic() || byte == b'_'
}

fn goes_on_word(byte: u8) -> bool
    ensures { result ≡ goes_on_word byte }
{
    byte.is_ascii_alphanumeric() || byte == b'_'
}

fn key_of(word: &[u8]) -> Option<Key>
    ensures { result ≡ key_of word.now }
{
    first_key(keys_of(word.len()), word)
}

// The keywords of so many letters.
#[tactic(auto, unfolding(crate::specs::Seen::keys_of, pb_text::specs::Spellings::keys))]
fn keys_of(len: usize) -> &'static [Key]
    ensures { result.now ≡ keys_of len }
{
    match len {
        2 => &[Key::To, Key::At, Key::Or, Key::Do],
        3 => &[Key::Rec, Key::Max, Key::Min, Key::Sum],
        4 => &[Key::Role, Key::From, Key::With],
        5 => &[Key::Const, Key::Int32],
        6 => &[Key::Global, Key::Choice, Key::Reduce, Key::Uint32],
        7 => &[Key::Foreach, Key::Compute, Key::Barrier],
        8 => &[Key::Protocol, Key::Continue],
        9 => &[Key::Broadcast, Key::Allreduce],
        _ => &[],
    }
}

fn first_key(keys: &[Key], word: &[u8]) -> Option<Key>
    ensures { result ≡ find (λ key. pointwise nat_eq word.now (key_spelling key)) keys.now }
{
    for key in keys {
        if word == key.spelling() {
            return Some(*key);
        }
    }
    None
}
