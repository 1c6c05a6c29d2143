//! The message on tokens that are no file.

use crate::hints::help;
use crate::symbol::{Noun, Symbol};
use crate::walk::{Stop, stop_of};
use pb_explain_source::{Page, Part};
use pb_text::{Key, Mark, NoMemory, Place, Token, TokenKind};
use std::alloc::Global;

/// What a name is called.
fn noun(noun: Noun) -> &'static str {
    match noun {
        Noun::Constant => "the constant's name",
        Noun::Protocol => "the protocol's name",
        Noun::Role => "a role's name",
        Noun::Label => "a message's label",
        Noun::Variable => "a variable's name",
        Noun::Loop => "a loop's name",
        Noun::Kernel => "a kernel's name",
    }
}

/// Appends what a symbol stands for.
fn say_symbol(page: &mut Page, symbol: Symbol) -> Result<(), NoMemory> {
    match symbol {
        Symbol::Key(key) => say_quoted(page, key.spelling()),
        Symbol::Mark(mark) => say_quoted(page, mark.spelling()),
        Symbol::Name(kind) => page.say(&[Part::Text(noun(kind))]),
        Symbol::Number => page.say(&[Part::Text("a number")]),
        Symbol::Count => page.say(&[Part::Text("a number from 1 to 1024")]),
        Symbol::End => page.say(&[Part::Text("the end of the file")]),
        Symbol::Form(_) => Ok(()),
    }
}

fn say_quoted(page: &mut Page, bytes: &[u8]) -> Result<(), NoMemory> {
    page.say(&[Part::Text("`"), Part::Bytes(bytes), Part::Text("`")])
}

/// Appends what a token is.
fn say_token(page: &mut Page, token: &Token) -> Result<(), NoMemory> {
    match &token.kind {
        TokenKind::Word(name) => say_quoted(page, name.bytes()),
        TokenKind::Number(n) => page.say(&[Part::Text("the number "), Part::Number(i64::from(*n))]),
        TokenKind::Key(key) => {
            page.say(&[Part::Text("the keyword ")])?;
            say_quoted(page, key.spelling())
        }
        TokenKind::Mark(mark) => say_quoted(page, mark.spelling()),
    }
}

/// Whether a statement begins with the symbol.
fn is_statement(symbol: Symbol) -> bool {
    match symbol {
        Symbol::Name(Noun::Label) => true,
        Symbol::Key(key) => matches!(
            key,
            Key::Foreach
                | Key::Rec
                | Key::Continue
                | Key::Choice
                | Key::Compute
                | Key::Barrier
                | Key::Broadcast
                | Key::Reduce
                | Key::Allreduce
        ),
        Symbol::Name(_)
        | Symbol::Mark(_)
        | Symbol::Number
        | Symbol::Count
        | Symbol::End
        | Symbol::Form(_) => false,
    }
}

/// Whether every statement could stand there.
fn has_statements(wanted: &[Symbol]) -> bool {
    for symbol in wanted {
        if matches!(symbol, Symbol::Key(Key::Barrier)) {
            return true;
        }
    }
    false
}

/// Appends what could stand there, where every statement could.
fn say_statements(page: &mut Page, wanted: &[Symbol]) -> Result<(), NoMemory> {
    page.say(&[Part::Text("a statement")])?;
    for symbol in wanted {
        if !is_statement(*symbol) {
            page.say(&[Part::Text(" or ")])?;
            say_symbol(page, *symbol)?;
        }
    }
    Ok(())
}

/// Appends what could stand there.
fn say_wanted(page: &mut Page, wanted: &[Symbol]) -> Result<(), NoMemory> {
    if has_statements(wanted) {
        return say_statements(page, wanted);
    }
    let last = wanted.len().saturating_sub(1);
    for (at, symbol) in wanted.iter().enumerate() {
        if at > 0 {
            page.say(&[Part::Text(if at == last { " or " } else { ", " })])?;
        }
        say_symbol(page, *symbol)?;
    }
    Ok(())
}

/// Appends what was found, and what could stand there.
fn say_found(page: &mut Page, tokens: &[Token], stop: &Stop) -> Result<(), NoMemory> {
    page.say(&[Part::Text("found ")])?;
    match tokens.get(stop.at) {
        Some(token) => say_token(page, token)?,
        None => page.say(&[Part::Text("the end of the file")])?,
    }
    page.say(&[Part::Text(if stop.wanted.len() > 1 {
        ", where one of these can stand: "
    } else {
        ", where this must stand: "
    })])?;
    say_wanted(page, stop.wanted.as_slice())
}

/// The place of the `{` that is still open at the end, if there is one.
fn open_brace(tokens: &[Token]) -> Option<Place> {
    let mut depth = 0usize;
    for token in tokens.iter().rev() {
        if token.kind == TokenKind::Mark(Mark::RightBrace) {
            depth = depth.saturating_add(1);
        } else if token.kind == TokenKind::Mark(Mark::LeftBrace) {
            if depth == 0 {
                return Some(token.place);
            }
            depth = depth.saturating_sub(1);
        }
    }
    None
}

/// Points at the brace that isn't closed, where the file ends too early.
fn note_open(page: &mut Page, tokens: &[Token]) -> Result<(), NoMemory> {
    match open_brace(tokens) {
        Some(place) => page.note(place, &[Part::Text("this `{` isn't closed by a `}`")]),
        None => Ok(()),
    }
}

/// Writes why tokens are no file: at `place` stands the first that doesn't go on, or there they end too early.
pub fn tell_syntax(
    alloc: Global,
    page: &mut Page,
    tokens: &[Token],
    place: Place,
) -> Result<(), NoMemory> {
    let stop = stop_of(alloc, tokens)?;
    let mut found = Page::new(alloc);
    say_found(&mut found, tokens, &stop)?;
    page.point(place, &[Part::Bytes(found.words())])?;
    match tokens.get(stop.at) {
        Some(_) => help(alloc, page, tokens, &stop),
        None => note_open(page, tokens),
    }
}
