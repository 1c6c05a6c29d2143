ghost use Rattle.std.specs.Prelude.{◌≡◌, ◌<◌, ◌≤◌, List, take, drop, length};
ghost use Rattle.pb_text.specs.declared.token.Token.{Token};
ghost use Rattle.pb_text.specs.Places.{first_place, place_after};
ghost use Rattle.pb_text.specs.Tokens.{IsText};
ghost use Rattle.pb_text.specs.declared.limits.TheConstants.{MOST_TEXT_BYTES};
ghost use Rattle.pb_parse.specs.Parsed.{passes_fault, stop_fault};
ghost use Rattle.pb_do_parse.specs.Limits.{AreWithin, NextPasses, counts};
ghost use Rattle.pb_strips_syntax.specs.Strips.{PlainStripFile};
ghost use Rattle.pb_strips_grammar.specs.Tokens.{tokens_here};
ghost use Rattle.pb_strips_grammar.specs.Grammar.{IsStripFile};
ghost use Rattle.pb_strips_parse.specs.Parsed.{IsRead, IsReadText, Gives};

use crate::file::whole;
use crate::keywords::as_read;
use pb_do_parse::first_passed;
use pb_lex::lex;
use pb_parse::{Cursor, ParseFault, Stop};
use pb_strips_syntax::StripTree;
use pb_text::{Place, Quantity, Token};
use std::alloc::Global;

/// The tree of a protocol file with strips.
///
/// The bytes are at most 67,108,864. There is a tree exactly where the bytes are a text of the grammar within the limits,
/// and `ParseFault` says which fault comes where there is none. Each `columns` counts as one statement, beside those in its
/// braces, and a strip as one role. The same as `text_verdict`, with the clause `only`.
#[tactic(auto, using(crate::proofs::Texts::only_text))]
pub fn read_strips(alloc: Global, bytes: &[u8]) -> Result<StripTree, ParseFault>
    requires { length bytes.now ≤ MOST_TEXT_BYTES }
    ensures read { IsReadText bytes.now result }
    // Each file within the limits is read, unless memory runs out.
    ensures only { (tokens : List Token) (file : PlainStripFile) → IsText bytes.now tokens → IsStripFile (tokens_here tokens) file → AreWithin (tokens_here tokens) → Gives file result }
{
    text_verdict(alloc, bytes)
}

#[tactic(auto, using(crate::proofs::Texts::refused_text, crate::proofs::Texts::read_text))]
fn text_verdict(alloc: Global, bytes: &[u8]) -> Result<StripTree, ParseFault>
    requires { length bytes.now ≤ MOST_TEXT_BYTES }
    ensures { IsReadText bytes.now result }
{
    let tokens = as_read(lex(alloc, bytes)?);
    verdict(alloc, &tokens, bytes)
}

// The tree of the tokens of a whole text, as they are read, and its bytes.
fn verdict(alloc: Global, tokens: &[Token], bytes: &[u8]) -> Result<StripTree, ParseFault>
    ensures { IsRead (place_after first_place bytes.now) tokens.now result }
{
    match first_passed(tokens) {
        Some((quantity, i)) => up_to(alloc, tokens, i, quantity, bytes),
        None => all_of(alloc, tokens, bytes),
    }
}

// No token passes a limit.
#[tactic(auto, using(crate::proofs::Together::refused_within))]
fn all_of(alloc: Global, tokens: &[Token], bytes: &[u8]) -> Result<StripTree, ParseFault>
    requires { AreWithin tokens.now }
    ensures { IsRead (place_after first_place bytes.now) tokens.now result }
{
    let mut cursor = Cursor { rest: tokens };
    match whole(&mut cursor, alloc, tokens.len()) {
        Ok(file) => Ok(file),
        Err(Stop::NoMemory) => Err(ParseFault::NoMemory),
        Err(Stop::Unexpected) => Err(ParseFault::Unexpected(cursor.place(bytes))),
    }
}

// Token `i` is the first to pass a limit, so the tokens up to it decide.
fn up_to(
    alloc: Global,
    tokens: &[Token],
    i: usize,
    quantity: Quantity,
    bytes: &[u8],
) -> Result<StripTree, ParseFault>
    requires below { i < length tokens.now }
    requires within { AreWithin (take i tokens.now) }
    requires passes { NextPasses (counts (take i tokens.now)) (drop i tokens.now) quantity }
    ensures { IsRead (place_after first_place bytes.now) tokens.now result }
{
    let place = tokens[i].place;
    let front = &tokens[..i + 1];
    let mut cursor = Cursor { rest: front };
    match whole(&mut cursor, alloc, front.len()) {
        Ok(_) => Err(passes_fault(quantity, place)),
        Err(Stop::NoMemory) => Err(ParseFault::NoMemory),
        Err(Stop::Unexpected) => Err(stop_fault(&cursor, quantity, place)),
    }
}

// The fault where the cursor stopped: at its token, or at the one behind all it had, which passes a limit.
fn stop_fault(cursor: &Cursor, quantity: Quantity, place: Place) -> ParseFault
    ensures { result ≡ stop_fault quantity place cursor.now.rest.now }
{
    match cursor.rest.first() {
        Some(token) => ParseFault::Unexpected(token.place),
        None => passes_fault(quantity, place),
    }
}

fn passes_fault(quantity: Quantity, place: Place) -> ParseFault
    ensures { result ≡ passes_fault quantity place }
{
    match quantity {
        Quantity::Nesting => ParseFault::TooDeep(place),
        Quantity::FileBytes
        | Quantity::NumberSize
        | Quantity::NameLength
        | Quantity::Statements
        | Quantity::Roles
        | Quantity::Branches
        | Quantity::Constant
        | Quantity::PayloadCount
        | Quantity::Breakpoints
        | Quantity::Ranks
        | Quantity::WordsInFlight
        | Quantity::TextNesting
        | Quantity::TextStatements
        | Quantity::Events
        | Quantity::Pieces => ParseFault::TooMany(quantity, place),
    }
}
