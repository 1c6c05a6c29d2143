ghost use Rattle.std.specs.Prelude.{◌≡◌, ◌<◌, ◌≤◌, false, length, slice_index};
ghost use Rattle.pb_text.specs.Lexemes.{lexeme, is_blank};
ghost use Rattle.pb_lex.specs.Seen.{lexeme_seen, IsBegun, IsSound, IsLevel};

use crate::comment::{block_comment, line_comment};
use crate::gap::{blanks, is_blank};
use crate::mark::mark;
use crate::number::number;
use crate::word::{begins_word, word};
use pb_text::{Key, Mark};

/// Why a text begins with no lexeme.
#[derive(Clone, Copy)]
pub enum Fault {
    BadByte,
    OpenComment,
    NumberTooLarge,
    NameTooLong,
}

/// What some bytes are.
#[derive(Clone, Copy)]
pub enum Sort {
    /// Blanks, or a comment up to its end.
    Gap,
    /// A comment up to the line's end.
    Line,
    Name,
    Key(Key),
    Number(u32),
    Mark(Mark),
    Bad(Fault),
}

/// What a text begins with, and of how many bytes it is.
#[derive(Clone, Copy)]
pub struct Lexeme {
    pub sort: Sort,
    pub len: usize,
}

/// What a text begins with that isn't empty. Blanks in a row are taken together.
#[tactic(auto, using(crate::proofs::Begun::begun_by))]
pub fn lexeme_of(text: &[u8]) -> Lexeme
    requires { 0 < length text.now }
    ensures seen { IsBegun result.sort result.len text.now }
    ensures some { 0 < result.len }
    ensures within { result.len ≤ length text.now }
    ensures sound { IsSound result.sort result.len text.now }
    ensures level { IsLevel result.sort result.len text.now }
{
    if is_blank(text[0]) {
        blanks(text)
    } else {
        no_blank(text)
    }
}

#[tactic(auto, using(crate::proofs::Begun::lexeme_begun))]
fn no_blank(text: &[u8]) -> Lexeme
    requires filled { 0 < length text.now }
    requires other { is_blank (slice_index text.now 0) ≡ false }
    ensures seen { lexeme_seen result.sort result.len text.now ≡ lexeme text.now }
    ensures some { 0 < result.len }
    ensures within { result.len ≤ length text.now }
    ensures sound { IsSound result.sort result.len text.now }
    ensures level { IsLevel result.sort result.len text.now }
{
    let first = text[0];
    if text.starts_with(b"//") {
        line_comment(text)
    } else if text.starts_with(b"/*") {
        block_comment(text)
    } else if begins_word(first) {
        word(text)
    } else if first.is_ascii_digit() {
        number(text)
    } else {
        mark(text)
    }
}
