ghost use Rattle.std.specs.Prelude.{◌≡◌, ◌≤◌, ◌<◌, true, length, codes, not, nat_eq, IfSome};
ghost use Rattle.std.specs.List.{prefix_len};
ghost use Rattle.pb_text.specs.Lexemes.{close_of, block_comment, line_comment};
ghost use Rattle.pb_text.specs.Spellings.{begins_with};
ghost use Rattle.pb_lex.specs.Seen.{lexeme_seen, IsSound, IsLevel};

use crate::lexeme::{Fault, Lexeme, Sort};

/// A comment that begins with `//`, up to the line's end.
pub fn line_comment(text: &[u8]) -> Lexeme
    requires { begins_with (codes "//") text.now ≡ true }
    ensures seen { lexeme_seen result.sort result.len text.now ≡ line_comment text.now }
    ensures some { 0 < result.len }
    ensures within { result.len ≤ length text.now }
    ensures sound { IsSound result.sort result.len text.now }
    ensures level { IsLevel result.sort result.len text.now }
{
    Lexeme {
        sort: Sort::Line,
        len: line_len(text),
    }
}

fn line_len(text: &[u8]) -> usize
    ensures { result ≡ prefix_len (λ byte. not (nat_eq byte 10)) text.now }
{
    text.iter().take_while(|byte| **byte != b'\n').count()
}

/// A comment that begins with `/*`, up to the next `*/` behind it.
pub fn block_comment(text: &[u8]) -> Lexeme
    requires { begins_with (codes "/*") text.now ≡ true }
    ensures seen { lexeme_seen result.sort result.len text.now ≡ block_comment text.now }
    ensures some { 0 < result.len }
    ensures within { result.len ≤ length text.now }
    ensures sound { IsSound result.sort result.len text.now }
    ensures level { IsLevel result.sort result.len text.now }
{
    match close_of(&text[2..]) {
        Some(len) => Lexeme {
            sort: Sort::Gap,
            len: len + 2,
        },
        None => Lexeme {
            sort: Sort::Bad(Fault::OpenComment),
            len: text.len(),
        },
    }
}

#[tactic(auto, using(crate::proofs::Closes::close_next))]
fn close_of(bytes: &[u8]) -> Option<usize>
    ensures close { result ≡ close_of bytes.now }
    ensures within { IfSome result (λ len. len ≤ length bytes.now) }
{
    for at in 0..bytes.len() {
        if bytes[at..].starts_with(b"*/") {
            return Some(at + 2);
        }
    }
    None
}
