ghost use Rattle.std.specs.Prelude.{◌≡◌, ◌≤◌, ◌<◌, true, length, find, IfSome};
ghost use Rattle.pb_text.specs.Lexemes.{mark};
ghost use Rattle.pb_text.specs.Spellings.{begins_with, mark_at, mark_spelling};
ghost use Rattle.pb_lex.specs.Seen.{marks_of, lexeme_seen, IsSound, IsLevel};

use crate::lexeme::{Fault, Lexeme, Sort};
use pb_text::Mark;

/// A symbol.
pub fn mark(text: &[u8]) -> Lexeme
    requires { 0 < length text.now }
    ensures seen { lexeme_seen result.sort result.len text.now ≡ mark text.now }
    ensures some { 0 < result.len }
    ensures within { result.len ≤ length text.now }
    ensures sound { IsSound result.sort result.len text.now }
    ensures level { IsLevel result.sort result.len text.now }
{
    match mark_at(text) {
        Some(mark) => Lexeme {
            sort: Sort::Mark(mark),
            len: mark.spelling().len(),
        },
        None => Lexeme {
            sort: Sort::Bad(Fault::BadByte),
            len: 1,
        },
    }
}

fn mark_at(text: &[u8]) -> Option<Mark>
    requires { 0 < length text.now }
    ensures found { result ≡ mark_at text.now }
    ensures begun { IfSome result (λ mark. begins_with (mark_spelling mark) text.now ≡ true) }
    ensures within { IfSome result (λ mark. length (mark_spelling mark) ≤ length text.now) }
{
    first_mark(marks_of(text[0]), text)
}

// The symbols that begin with the byte.
#[tactic(auto, unfolding(crate::specs::Seen::marks_of, pb_text::specs::Spellings::marks))]
fn marks_of(byte: u8) -> &'static [Mark]
    ensures { result.now ≡ marks_of byte }
{
    match byte {
        b'.' => &[Mark::Dots],
        b'=' => &[Mark::Equals],
        b';' => &[Mark::Semicolon],
        b'(' => &[Mark::LeftParen],
        b')' => &[Mark::RightParen],
        b'[' => &[Mark::LeftBracket],
        b']' => &[Mark::RightBracket],
        b'{' => &[Mark::LeftBrace],
        b'}' => &[Mark::RightBrace],
        b',' => &[Mark::Comma],
        b':' => &[Mark::Colon],
        b'+' => &[Mark::Plus],
        b'-' => &[Mark::Minus],
        _ => &[],
    }
}

fn first_mark(marks: &[Mark], text: &[u8]) -> Option<Mark>
    ensures found { result ≡ find (λ mark. begins_with (mark_spelling mark) text.now) marks.now }
    ensures begun { IfSome result (λ mark. begins_with (mark_spelling mark) text.now ≡ true) }
    ensures within { IfSome result (λ mark. length (mark_spelling mark) ≤ length text.now) }
{
    for mark in marks {
        if text.starts_with(mark.spelling()) {
            return Some(*mark);
        }
    }
    None
}
