ghost use Rattle.std.specs.Prelude.{◌≡◌, ◌≤◌, true, ◌∷◌, ◌++◌, length, List, IfOk, IfErr, MatchResult};
ghost use Rattle.std.specs.List.{All};
ghost use Rattle.pb_text.specs.Tokens.{IsFirstFault, IsText, IsSoundToken};
ghost use Rattle.pb_text.specs.Lexemes.{Fault as Kind};
ghost use Rattle.pb_text.specs.declared.limits.TheConstants.{MOST_TEXT_BYTES};
ghost use Rattle.pb_text.specs.declared.place.Place.{Place as Where};
ghost use Rattle.pb_text.specs.declared.token.Token.{Token as Item};
ghost use Rattle.pb_text.specs.declared.token.TokenKind.TheVariants.{Word};
ghost use Rattle.pb_lex.specs.Seen.{error_of, stop_of, Adds, IsErrorOrNoMemory, IsNoMemory, IsRefusal, Reads};

use crate::lexeme::{Fault, Lexeme, Sort, lexeme_of};
use crate::place::{FIRST, behind};
use crate::{LexError, LexFault};
use pb_text::{Name, Place, Token, TokenKind};
use std::alloc::Global;

/// The tokens of the bytes, of which there are at most 67,108,864.
///
/// `Bad` names the first lexical fault in text order; there is none exactly where there are tokens. Each number is at
/// most 2,000,000,000, and no name is a keyword.
pub fn lex(alloc: Global, bytes: &[u8]) -> Result<Vec<Token>, LexFault>
    requires { length bytes.now ≤ MOST_TEXT_BYTES }
    ensures text { IfOk result (λ tokens. IsText bytes.now tokens.items) }
    ensures sound { IfOk result (λ tokens. All IsSoundToken tokens.items) }
    ensures refused { IfErr result (IsRefusal bytes.now) }
    ensures only_text { (tokens : List Item) → IsText bytes.now tokens → MatchResult result (λ found. found.items ≡ tokens) IsNoMemory }
    ensures only_fault { (why : Kind) (place : Where) → IsFirstFault bytes.now why place → MatchResult result (λ _. ⊥) (IsErrorOrNoMemory why place) }
{
    let mut tokens = Vec::new(alloc);
    let mut place = FIRST;
    let mut at = 0;
    while at < bytes.len() {
        let text = &bytes[at..];
        let lexeme = lexeme_of(text);
        if !read(&mut tokens, place, lexeme, text) {
            return Err(stop_of(lexeme.sort, place));
        }
        place = behind(place, lexeme, text);
        at += lexeme.len;
    }
    Ok(tokens)
}

// Adds the token that the lexeme is. False at a fault, or where memory runs out.
fn read(tokens: &mut Vec<Token>, place: Place, lexeme: Lexeme, text: &[u8]) -> bool
    requires { lexeme.len ≤ length text.now }
    ensures { result ≡ true → Reads lexeme.sort lexeme.len text.now place tokens.old.items tokens.new.items }
{
    match lexeme.sort {
        Sort::Gap | Sort::Line => true,
        Sort::Name => add_name(tokens, place, &text[..lexeme.len]),
        Sort::Key(key) => add(tokens, place, TokenKind::Key(key)),
        Sort::Number(value) => add(tokens, place, TokenKind::Number(value)),
        Sort::Mark(mark) => add(tokens, place, TokenKind::Mark(mark)),
        Sort::Bad(_) => false,
    }
}

fn add(tokens: &mut Vec<Token>, place: Place, kind: TokenKind) -> bool
    ensures { result ≡ true → Adds kind place tokens.old.items tokens.new.items }
{
    tokens.push(Token { kind, place }).is_ok()
}

fn add_name(tokens: &mut Vec<Token>, place: Place, word: &[u8]) -> bool
    ensures { result ≡ true → Adds (Word word.now) place tokens.old.items tokens.new.items }
{
    match Name::of(word) {
        Some(name) => add(tokens, place, TokenKind::Word(name)),
        None => false,
    }
}

// Why the lexeme isn't read.
fn stop_of(sort: Sort, place: Place) -> LexFault
    ensures { result ≡ stop_of sort place }
{
    match sort {
        Sort::Bad(fault) => LexFault::Bad(error_of(fault, place)),
        Sort::Gap | Sort::Line | Sort::Name | Sort::Key(_) | Sort::Number(_) | Sort::Mark(_) =>
            LexFault::NoMemory,
    }
}

fn error_of(fault: Fault, place: Place) -> LexError
    ensures { result ≡ error_of fault place }
{
    match fault {
        Fault::BadByte => LexError::BadByte(place),
        Fault::OpenComment => LexError::OpenComment(place),
        Fault::NumberTooLarge => LexError::NumberTooLarge(place),
        Fault::NameTooLong => LexError::NameTooLong(place),
    }
}
