//! Remedies for what is mostly meant where the grammar stops.

use crate::symbol::{Form, Symbol};
use crate::walk::Stop;
use pb_explain_source::{Page, Part};
use pb_text::{Key, Mark, Name, NoMemory, Token, TokenKind};
use std::alloc::Global;
use strsim::generic_levenshtein;

/// Words of other languages, and what is written here.
const FOREIGN: &[(&str, &str)] = &[
    (
        "for",
        "`foreach (i:0..N-1) { .. }` repeats messages and computes",
    ),
    ("while", "a loop is `rec X { .. continue X; }`"),
    ("loop", "a loop is `rec X { .. continue X; }`"),
    ("repeat", "a loop is `rec X { .. continue X; }`"),
    (
        "if",
        "ranks branch by `choice K at ROLE[0] { .. } or { .. }`",
    ),
    ("else", "the branches of a choice are parted by `or`"),
    ("int", "numbers are `int32` or `uint32`"),
    (
        "float",
        "numbers are `int32` or `uint32`; a float travels as its bits in a `uint32`",
    ),
    (
        "double",
        "numbers are `int32` or `uint32`; a double travels as two `uint32`",
    ),
    ("char", "numbers are `int32` or `uint32`"),
    ("string", "numbers are `int32` or `uint32`"),
    (
        "send",
        "a message is `Label(int32) from ROLE[0] to ROLE[1];`",
    ),
    (
        "recv",
        "a message is `Label(int32) from ROLE[0] to ROLE[1];`",
    ),
    (
        "break",
        "a loop ends where a branch comes to its end without `continue`",
    ),
    ("prod", "an operation is `min`, `max` or `sum`"),
    (
        "gather",
        "a gather is one message from each: `L(int32) from W[i:1..N-1] to W[0];`",
    ),
    (
        "scatter",
        "a scatter is one message to each: `L(int32) from W[0] to W[i:1..N-1];`",
    ),
];

/// What is written here for a word of another language.
fn foreign(word: &[u8]) -> Option<&'static str> {
    for (name, remedy) in FOREIGN {
        if name.as_bytes() == word {
            return Some(*remedy);
        }
    }
    None
}

/// The keyword among these that is written almost as the word.
fn near(alloc: Global, word: &[u8], wanted: &[Symbol]) -> Result<Option<Key>, NoMemory> {
    for symbol in wanted {
        let Symbol::Key(key) = *symbol else {
            continue;
        };
        if generic_levenshtein(alloc, word, key.spelling())? <= 2 && word.len() > 2 {
            return Ok(Some(key));
        }
    }
    Ok(None)
}

fn wants_key(stop: &Stop, key: Key) -> bool {
    for symbol in stop.wanted.as_slice() {
        if let Symbol::Key(wanted) = symbol
            && *wanted == key
        {
            return true;
        }
    }
    false
}

fn wants_mark(stop: &Stop, mark: Mark) -> bool {
    for symbol in stop.wanted.as_slice() {
        if let Symbol::Mark(wanted) = symbol
            && *wanted == mark
        {
            return true;
        }
    }
    false
}

fn wants_number(stop: &Stop) -> bool {
    for symbol in stop.wanted.as_slice() {
        if matches!(symbol, Symbol::Number) {
            return true;
        }
    }
    false
}

fn wants_count(stop: &Stop) -> bool {
    for symbol in stop.wanted.as_slice() {
        if matches!(symbol, Symbol::Count) {
            return true;
        }
    }
    false
}

fn wants_name(stop: &Stop) -> bool {
    for symbol in stop.wanted.as_slice() {
        if matches!(symbol, Symbol::Name(_)) {
            return true;
        }
    }
    false
}

/// What begins a statement.
const STATEMENTS: &[Symbol] = &[
    Symbol::Key(Key::Foreach),
    Symbol::Key(Key::Continue),
    Symbol::Key(Key::Choice),
    Symbol::Key(Key::Compute),
    Symbol::Key(Key::Barrier),
    Symbol::Key(Key::Broadcast),
    Symbol::Key(Key::Reduce),
    Symbol::Key(Key::Allreduce),
];

/// The keyword that is mostly meant by a word at the stop, or by one right before it where a label's payload is wanted.
fn meant(alloc: Global, tokens: &[Token], stop: &Stop) -> Result<Option<Key>, NoMemory> {
    if let Some(word) = word_at(tokens, Some(stop.at))
        && let Some(key) = near(alloc, word.bytes(), stop.wanted.as_slice())?
    {
        return Ok(Some(key));
    }
    match word_at(tokens, stop.at.checked_sub(1)) {
        Some(word) if matches!(stop.form, Form::Payload) => near(alloc, word.bytes(), STATEMENTS),
        _ => Ok(None),
    }
}

/// What is written here for a word of another language at the stop, or one or two tokens before it.
fn foreign_near(tokens: &[Token], at: usize) -> Option<&'static str> {
    for back in 0..3usize {
        if let Some(word) = word_at(tokens, at.checked_sub(back))
            && let Some(remedy) = foreign(word.bytes())
        {
            return Some(remedy);
        }
    }
    None
}

/// The remedy at a keyword.
fn at_key(key: Key, stop: &Stop) -> Option<&'static str> {
    if key == Key::Do {
        return Some(
            "`do` stands in a file with subprotocols: `pabble expand FILE` gives the protocol without them",
        );
    }
    if key == Key::Protocol && wants_key(stop, Key::Global) {
        return Some(
            "a `protocol` without `global` is a subprotocol: `pabble expand FILE` gives the protocol without subprotocols",
        );
    }
    if matches!(stop.form, Form::Items) {
        return Some(
            "a `foreach` has messages and computes alone; choices, loops and collectives stand outside of it",
        );
    }
    if key == Key::To && wants_mark(stop, Mark::Semicolon) {
        return Some(
            "a message has one `to`; a broadcast and an allreduce go to all ranks, and have none",
        );
    }
    if wants_mark(stop, Mark::Semicolon) {
        return Some("the statement before it ends with `;`");
    }
    if key == Key::At && wants_name(stop) {
        return Some(
            "a choice and a compute name their kernel: `choice More at W[0] { .. } or { .. }`, `compute Work at W[0];`",
        );
    }
    if wants_name(stop) {
        return Some("a keyword is no name: take another one");
    }
    None
}

/// The remedy at a symbol.
fn at_mark(mark: Mark, stop: &Stop) -> Option<&'static str> {
    match mark {
        Mark::Colon => Some(
            "one end of a message may bind a variable, and no other end; a kernel at many ranks is `foreach (i:0..N-1) { compute K at W[i]; }`",
        ),
        Mark::LeftParen if wants_number(stop) => Some(
            "an index has no parentheses: it is a number, or a name with one offset, as `N-1` or `i+1`",
        ),
        Mark::Semicolon if wants_mark(stop, Mark::Dots) => Some(
            "the constant has a range, as `const N = 2..max;`; where it has one value, both ends are it, as `2..2`",
        ),
        Mark::Minus if wants_number(stop) => {
            Some("numbers aren't negative; an offset stands behind a name, as `N-1`")
        }
        Mark::Semicolon if wants_mark(stop, Mark::RightBrace) => {
            Some("no `;` stands behind a `}`")
        }
        Mark::RightBracket if wants_mark(stop, Mark::Dots) => {
            Some("a role's range has two ends, as `[0..N-1]`")
        }
        Mark::Dots if wants_mark(stop, Mark::RightBracket) => Some(
            "an end for many ranks binds a variable, in one end of a message: `W[i:0..N-1]`; a kernel at many ranks is `foreach (i:0..N-1) { compute K at W[i]; }`",
        ),
        Mark::Plus | Mark::Minus => {
            Some("an index is a number, or a name with one offset, as `N-1` or `i+1`")
        }
        Mark::Semicolon
        | Mark::RightBracket
        | Mark::Dots
        | Mark::Equals
        | Mark::LeftParen
        | Mark::RightParen
        | Mark::LeftBracket
        | Mark::LeftBrace
        | Mark::RightBrace
        | Mark::Comma => None,
    }
}

/// The remedy at any token.
fn at_token(stop: &Stop) -> Option<&'static str> {
    if wants_key(stop, Key::Const) {
        return Some(
            "a file begins with its constant, as `const N = 2..max;`, and then comes `global protocol NAME(role W[0..N-1]) { .. }`",
        );
    }
    if wants_key(stop, Key::Or) && stop.wanted.len() == 1 {
        return Some("a choice has at least two branches; the last may be empty: `or { }`");
    }
    if wants_count(stop) {
        return Some(
            "the number of words is the same at each N, from 1 to 1024; a message without words has the payload `()`",
        );
    }
    if wants_mark(stop, Mark::LeftParen) && matches!(stop.form, Form::Payload) {
        return Some("a label has a payload: `()`, `(int32)` or `(uint32[64])`");
    }
    if wants_mark(stop, Mark::Semicolon) {
        return Some("the statement before it ends with `;`");
    }
    None
}

fn remedy(token: &Token, stop: &Stop) -> Option<&'static str> {
    let special = match &token.kind {
        TokenKind::Key(key) => at_key(*key, stop),
        TokenKind::Mark(mark) => at_mark(*mark, stop),
        TokenKind::Word(_) => None,
        TokenKind::Number(_) => None,
    };
    match special {
        Some(text) => Some(text),
        None => at_token(stop),
    }
}

/// The word that is the token there.
fn word_at(tokens: &[Token], at: Option<usize>) -> Option<Name> {
    let token = tokens.get(at?)?;
    match &token.kind {
        TokenKind::Word(name) => Some(*name),
        TokenKind::Key(_) | TokenKind::Number(_) | TokenKind::Mark(_) => None,
    }
}

/// Whether `columns (j:` stands there, which begins a statement in a file with strips.
fn is_columns(tokens: &[Token], at: usize) -> bool {
    match (
        word_at(tokens, at.checked_sub(2)),
        tokens.get(at.saturating_add(1)),
    ) {
        (Some(word), Some(next)) => {
            word.bytes() == b"columns".as_slice() && next.kind == TokenKind::Mark(Mark::Colon)
        }
        _ => false,
    }
}

/// Whether brackets stand there behind those of a role or an end, as a strip has them.
fn is_column(tokens: &[Token], at: usize) -> bool {
    match (tokens.get(at.saturating_sub(1)), tokens.get(at)) {
        (Some(before), Some(here)) => {
            before.kind == TokenKind::Mark(Mark::RightBracket)
                && here.kind == TokenKind::Mark(Mark::LeftBracket)
        }
        _ => false,
    }
}

/// The remedy for what a file with strips has there.
fn strips_near(tokens: &[Token], stop: &Stop) -> Option<&'static str> {
    if is_columns(tokens, stop.at) {
        return Some(
            "`columns` stands in a file with strips: `pabble strips FILE` gives the protocol without them",
        );
    }
    if is_column(tokens, stop.at) && !matches!(stop.form, Form::Count) {
        return Some(
            "a second `[..]` behind a role has the columns of a strip: `pabble strips FILE` gives the protocol without strips",
        );
    }
    None
}

/// Appends a remedy, where there is a likely one.
pub fn help(alloc: Global, page: &mut Page, tokens: &[Token], stop: &Stop) -> Result<(), NoMemory> {
    if let Some(text) = strips_near(tokens, stop) {
        return page.help(&[Part::Text(text)]);
    }
    if let Some(text) = foreign_near(tokens, stop.at) {
        return page.help(&[Part::Text(text)]);
    }
    if let Some(key) = meant(alloc, tokens, stop)? {
        return page.help(&[
            Part::Text("perhaps `"),
            Part::Bytes(key.spelling()),
            Part::Text("` is meant"),
        ]);
    }
    let Some(token) = tokens.get(stop.at) else {
        return Ok(());
    };
    match remedy(token, stop) {
        Some(text) => page.help(&[Part::Text(text)]),
        None => Ok(()),
    }
}
