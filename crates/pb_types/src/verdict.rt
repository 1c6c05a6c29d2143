ghost use Rattle.std.specs.Prelude.{◌≡◌, ◌≤◌, ◌++◌, ◌∷◌, [], ◌↔◌, true, List, Err, IfOk, length};
ghost use Rattle.pb_text.specs.declared.token.Token.{Token};
ghost use Rattle.pb_text.specs.Places.{first_place, place_after};
ghost use Rattle.pb_text.specs.Tokens.{IsText};
ghost use Rattle.pb_text.specs.declared.limits.TheConstants.{MOST_TEXT_BYTES};
ghost use Rattle.pb_types.specs.Plain.{PlainTypes};
ghost use Rattle.pb_types.specs.Grammar.{IsTypesFile, IsTypesFront};
ghost use Rattle.pb_types.specs.Readers.{whole_at};
ghost use Rattle.pb_types.specs.Read.{IsRead, IsReadText, IsFault, TakesType, Gives, is_word, word_stands, nothing_left, type_token};

use crate::file::whole;
use crate::{TypesFault, TypesFile};
use pb_lex::lex;
use pb_parse::{Cursor, Stop};
use pb_text::{Key, NoMemory, Place, Token, TokenKind};
use std::alloc::Global;

/// The tree of a types file.
///
/// The bytes are at most 67,108,864. There is a tree exactly where the bytes are a text of the grammar, and `TypesFault`
/// says which fault comes where there is none. The same as `text_verdict`, with the clause `only`.
#[tactic(auto, using(crate::proofs::Texts::only_text))]
pub fn read_types(alloc: Global, bytes: &[u8]) -> Result<TypesFile, TypesFault>
    requires { length bytes.now ≤ MOST_TEXT_BYTES }
    ensures read { IsReadText bytes.now result }
    // Each types file is read, unless memory runs out.
    ensures only { (tokens : List Token) (file : PlainTypes) → IsText bytes.now tokens → IsTypesFile tokens file → Gives file result }
{
    text_verdict(alloc, bytes)
}

#[tactic(auto, using(crate::proofs::Texts::refused_text, crate::proofs::Texts::read_text))]
fn text_verdict(alloc: Global, bytes: &[u8]) -> Result<TypesFile, TypesFault>
    requires { length bytes.now ≤ MOST_TEXT_BYTES }
    ensures { IsReadText bytes.now result }
{
    let tokens = lex(alloc, bytes)?;
    verdict(alloc, &tokens, bytes)
}

// The tree of the tokens of a whole text, and its bytes.
#[tactic(auto, using(crate::proofs::Texts::file_read))]
fn verdict(alloc: Global, tokens: &[Token], bytes: &[u8]) -> Result<TypesFile, TypesFault>
    ensures { IsRead (place_after first_place bytes.now) tokens.now result }
{
    let mut cursor = Cursor { rest: tokens };
    match whole(&mut cursor, alloc) {
        Ok(file) => Ok(file),
        Err(Stop::NoMemory) => Err(TypesFault::NoMemory),
        Err(Stop::Unexpected) => Err(refusal(alloc, tokens, cursor.rest, bytes)),
    }
}

// Why the tokens are no file, of which reading has left the last ones.
#[tactic(auto, using(crate::proofs::Texts::shorter, crate::proofs::Texts::refused_other, crate::proofs::Texts::refused_type, crate::proofs::Texts::refused_word))]
fn refusal(alloc: Global, tokens: &[Token], rest: &[Token], bytes: &[u8]) -> TypesFault
    requires { whole_at tokens.now ≡ Err rest.now }
    ensures { IsFault (place_after first_place bytes.now) tokens.now result }
{
    let place = Cursor { rest }.place(bytes);
    if !is_word(rest) {
        return TypesFault::Unexpected(place);
    }
    match takes_type(alloc, &tokens[..tokens.len() - rest.len()]) {
        Ok(true) => TypesFault::UnknownType(place),
        Ok(false) => TypesFault::Unexpected(place),
        Err(NoMemory) => TypesFault::NoMemory,
    }
}

// Whether the next token is a word.
fn is_word(rest: &[Token]) -> bool
    ensures { result ≡ word_stands rest.now }
{
    match rest.first() {
        Some(token) => is_word_kind(&token.kind),
        None => false,
    }
}

fn is_word_kind(kind: &TokenKind) -> bool
    ensures { result ≡ is_word kind.now }
{
    match kind {
        TokenKind::Word(_) => true,
        TokenKind::Key(_) | TokenKind::Number(_) | TokenKind::Mark(_) => false,
    }
}

// Whether a type would go on behind the tokens.
fn takes_type(alloc: Global, front: &[Token]) -> Result<bool, NoMemory>
    ensures { IfOk result (λ takes. takes ≡ true ↔ TakesType front.now) }
{
    let tried = with_type(alloc, front)?;
    is_front(alloc, &tried)
}

// The tokens and a type behind them.
fn with_type(alloc: Global, front: &[Token]) -> Result<Vec<Token>, NoMemory>
    ensures { IfOk result (λ tried. tried.items ≡ front.now ++ type_token ∷ []) }
{
    let mut tried = Vec::new(alloc);
    for token in front {
        tried.push(*token)?;
    }
    tried.push(type_token())?;
    Ok(tried)
}

fn type_token() -> Token
    ensures { result ≡ type_token }
{
    Token {
        kind: TokenKind::Key(Key::Int32),
        place: Place { line: 1, col: 1 },
    }
}

// Whether some file begins with the tokens.
fn is_front(alloc: Global, tokens: &[Token]) -> Result<bool, NoMemory>
    ensures { IfOk result (λ is. is ≡ true ↔ IsTypesFront tokens.now) }
{
    let mut cursor = Cursor { rest: tokens };
    match whole(&mut cursor, alloc) {
        Ok(_) => Ok(true),
        Err(Stop::NoMemory) => Err(NoMemory),
        Err(Stop::Unexpected) => Ok(nothing_left(cursor.rest)),
    }
}

fn nothing_left(rest: &[Token]) -> bool
    ensures { result ≡ nothing_left rest.now }
{
    match rest.first() {
        Some(_) => false,
        None => true,
    }
}
