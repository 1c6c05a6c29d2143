ghost use Rattle.std.specs.Prelude.{◌≡◌, ◌++◌, ◌<◌, OnOk, IfOk};
ghost use Rattle.pb_text.specs.Spellings.{key_spelling, mark_spelling};
ghost use Rattle.pb_syntax.specs.Grammar.{is_mark, is_key};
ghost use Rattle.pb_syntax.specs.Layout.{is_wordy, ends_line, closes, is_spaced, gap_between, gap_at, gap_text, indent, spelling, depth_of, depth_behind, laid, laid_out};

use crate::NoMemory;
use pb_text::{Key, Mark, TokenKind, push_number};
use std::alloc::Global;

/// What stands between two tokens.
#[derive(Clone, Copy)]
pub enum Gap {
    Nothing,
    Space,
    /// A line feed, and two spaces for each open brace.
    Line,
}

fn is_mark(mark: Mark, kind: &TokenKind) -> bool
    ensures { result ≡ is_mark mark kind.now }
{
    match kind {
        TokenKind::Mark(other) => *other == mark,
        TokenKind::Key(_) | TokenKind::Word(_) | TokenKind::Number(_) => false,
    }
}

fn is_key(key: Key, kind: &TokenKind) -> bool
    ensures { result ≡ is_key key kind.now }
{
    match kind {
        TokenKind::Key(other) => *other == key,
        TokenKind::Mark(_) | TokenKind::Word(_) | TokenKind::Number(_) => false,
    }
}

// A keyword, a name or a number.
fn is_wordy(kind: &TokenKind) -> bool
    ensures { result ≡ is_wordy kind.now }
{
    match kind {
        TokenKind::Mark(_) => false,
        TokenKind::Key(_) | TokenKind::Word(_) | TokenKind::Number(_) => true,
    }
}

fn ends_line(kind: &TokenKind) -> bool
    ensures { result ≡ ends_line kind.now }
{
    is_mark(Mark::Semicolon, kind)
        || is_mark(Mark::LeftBrace, kind)
        || is_mark(Mark::RightBrace, kind)
}

fn is_spaced(last: &TokenKind, next: &TokenKind) -> bool
    ensures { result ≡ is_spaced last.now next.now }
{
    is_mark(Mark::LeftBrace, next)
        || is_wordy(next) && (is_wordy(last) || closes(last))
        || is_mark(Mark::Comma, last)
        || is_mark(Mark::Equals, last)
        || is_mark(Mark::Equals, next)
        || is_key(Key::Foreach, last) && is_mark(Mark::LeftParen, next)
}

fn closes(kind: &TokenKind) -> bool
    ensures { result ≡ closes kind.now }
{
    is_mark(Mark::RightParen, kind) || is_mark(Mark::RightBracket, kind)
}

fn gap_between(last: &TokenKind, next: &TokenKind) -> Gap
    ensures { result ≡ gap_between last.now next.now }
{
    if ends_line(last) {
        if is_mark(Mark::RightBrace, last) && is_key(Key::Or, next) {
            Gap::Space
        } else {
            Gap::Line
        }
    } else if is_spaced(last, next) {
        Gap::Space
    } else {
        Gap::Nothing
    }
}

// The open braces of the line of a token, which a closing brace is none of.
fn depth_of(depth: usize, kind: &TokenKind) -> usize
    ensures { result ≡ depth_of depth kind.now }
{
    if is_mark(Mark::RightBrace, kind) {
        depth.saturating_sub(1)
    } else {
        depth
    }
}

fn depth_behind(depth: usize, kind: &TokenKind) -> usize
    requires { depth < 18446744073709551615 }
    ensures { result ≡ depth_behind depth kind.now }
{
    if is_mark(Mark::LeftBrace, kind) {
        depth + 1
    } else {
        depth_of(depth, kind)
    }
}

fn push_bytes(bytes: &[u8], out: &mut Vec<u8>) -> Result<(), NoMemory>
    ensures { OnOk result (out.new.items ≡ out.old.items ++ bytes.now) }
{
    out.extend_from_slice(bytes)?;
    Ok(())
}

#[tactic(auto, using(crate::proofs::Indents::indent_next, crate::proofs::Indents::indent_done))]
fn push_indent(depth: usize, out: &mut Vec<u8>) -> Result<(), NoMemory>
    ensures { OnOk result (out.new.items ≡ out.old.items ++ indent depth) }
{
    for _ in 0..depth {
        push_bytes(b"  ", out)?;
    }
    Ok(())
}

fn push_gap(gap: Gap, depth: usize, out: &mut Vec<u8>) -> Result<(), NoMemory>
    ensures { OnOk result (out.new.items ≡ out.old.items ++ gap_text gap depth) }
{
    match gap {
        Gap::Nothing => Ok(()),
        Gap::Space => push_bytes(b" ", out),
        Gap::Line => {
            push_bytes(b"\n", out)?;
            push_indent(depth, out)
        }
    }
}

fn push_spelling(kind: &TokenKind, out: &mut Vec<u8>) -> Result<(), NoMemory>
    ensures { OnOk result (out.new.items ≡ out.old.items ++ spelling kind.now) }
{
    match kind {
        TokenKind::Word(name) => push_bytes(name.bytes(), out),
        TokenKind::Key(key) => push_bytes(key.spelling(), out),
        TokenKind::Number(n) => push_number(out, i64::from(*n)),
        TokenKind::Mark(mark) => push_bytes(mark.spelling(), out),
    }
}

// A token, and what stands before it.
fn push_token(
    last: Option<TokenKind>,
    depth: usize,
    kind: &TokenKind,
    out: &mut Vec<u8>,
) -> Result<(), NoMemory>
    ensures { OnOk result (out.new.items ≡ (out.old.items ++ gap_text (gap_at last kind.now) (depth_of depth kind.now)) ++ spelling kind.now) }
{
    if let Some(last) = last {
        push_gap(gap_between(&last, kind), depth_of(depth, kind), out)?;
    }
    push_spelling(kind, out)
}

/// The tokens in the printed layout.
pub(crate) fn lay_out(alloc: Global, kinds: &[TokenKind]) -> Result<Vec<u8>, NoMemory>
    ensures { IfOk result (λ bytes. bytes.items ≡ laid_out kinds.now) }
{
    let mut out = Vec::new(alloc);
    let mut last = None;
    let mut depth = 0;
    for kind in kinds {
        push_token(last, depth, kind, &mut out)?;
        last = Some(*kind);
        depth = depth_behind(depth, kind);
    }
    push_bytes(b"\n", &mut out)?;
    Ok(out)
}
