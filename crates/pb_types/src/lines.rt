ghost use Rattle.std.specs.Prelude.{◌≡◌};
ghost use Rattle.pb_parse.specs.Gives.{GivesTo};
ghost use Rattle.pb_syntax.specs.Reading.{many_at};
ghost use Rattle.pb_syntax.specs.Readers.{key_next, word_next};
ghost use Rattle.pb_types.specs.Grammar.{element_in, element_of_key};
ghost use Rattle.pb_types.specs.Readers.{element_at, constant_at, size_at, extent_at, row_at};

use crate::{Constant, Element, ElementSpot, Extent, TypeRow};
use pb_parse::{Cursor, Stop};
use pb_text::{Key, Mark, TokenKind};
use std::alloc::Global;

// The type that a keyword names.
fn element_of_key(key: Key) -> Option<Element>
    ensures { result ≡ element_of_key key }
{
    match key {
        Key::Int32 => Some(Element::Int32),
        Key::Uint32 => Some(Element::Uint32),
        Key::Const
        | Key::Global
        | Key::Protocol
        | Key::Role
        | Key::From
        | Key::To
        | Key::Foreach
        | Key::Rec
        | Key::Continue
        | Key::Choice
        | Key::At
        | Key::Or
        | Key::Compute
        | Key::Barrier
        | Key::Broadcast
        | Key::Reduce
        | Key::Allreduce
        | Key::With
        | Key::Max
        | Key::Min
        | Key::Sum
        | Key::Do => None,
    }
}

// The type that a token names.
fn element_in(kind: &TokenKind) -> Option<Element>
    ensures { result ≡ element_in kind.now }
{
    match kind {
        TokenKind::Key(key) => element_of_key(*key),
        TokenKind::Word(name) => Element::named(name.bytes()),
        TokenKind::Number(_) | TokenKind::Mark(_) => None,
    }
}

// A type.
fn element(cursor: &mut Cursor) -> Result<ElementSpot, Stop>
    ensures { GivesTo (λ x. x) result cursor.new.rest.now (element_at cursor.old.rest.now) }
{
    let Some((token, rest)) = cursor.rest.split_first() else {
        return Err(Stop::Unexpected);
    };
    match element_in(&token.kind) {
        Some(element) => {
            cursor.rest = rest;
            Ok(ElementSpot {
                element,
                place: token.place,
            })
        }
        None => Err(Stop::Unexpected),
    }
}

// `const NAME = NUMBER;`
#[tactic(auto, unfolding(crate::specs::Readers::constant_at))]
fn constant(cursor: &mut Cursor) -> Result<Constant, Stop>
    ensures { GivesTo (λ x. x) result cursor.new.rest.now (constant_at cursor.old.rest.now) }
{
    cursor.key(Key::Const)?;
    let name = cursor.name()?;
    cursor.mark(Mark::Equals)?;
    let number = cursor.number()?;
    cursor.mark(Mark::Semicolon)?;
    Ok(Constant {
        name,
        value: number.value,
        value_place: number.place,
    })
}

// What stands in brackets.
#[tactic(auto, unfolding(crate::specs::Readers::size_at))]
fn size(cursor: &mut Cursor) -> Result<Extent, Stop>
    ensures { GivesTo (λ x. x) result cursor.new.rest.now (size_at cursor.old.rest.now) }
{
    if cursor.at_number() {
        let number = cursor.number()?;
        return Ok(Extent::Number {
            value: number.value,
            place: number.place,
        });
    }
    if cursor.at_word() {
        let name = cursor.name()?;
        return Ok(Extent::Constant(name));
    }
    Ok(Extent::Open)
}

// Brackets, or none.
#[tactic(auto, unfolding(crate::specs::Readers::extent_at))]
fn extent(cursor: &mut Cursor) -> Result<Extent, Stop>
    ensures { GivesTo (λ x. x) result cursor.new.rest.now (extent_at cursor.old.rest.now) }
{
    if !cursor.at_mark(Mark::LeftBracket) {
        return Ok(Extent::One);
    }
    cursor.mark(Mark::LeftBracket)?;
    let inside = size(cursor)?;
    cursor.mark(Mark::RightBracket)?;
    Ok(inside)
}

// The line of a label.
#[tactic(auto, unfolding(crate::specs::Readers::row_at))]
fn row(cursor: &mut Cursor) -> Result<TypeRow, Stop>
    ensures { GivesTo (λ x. x) result cursor.new.rest.now (row_at cursor.old.rest.now) }
{
    let label = cursor.name()?;
    let carries = element(cursor)?;
    let extent = extent(cursor)?;
    cursor.mark(Mark::Semicolon)?;
    Ok(TypeRow {
        label,
        carries,
        extent,
    })
}

// Constants as long as the next token begins one.
pub(crate) fn constants(cursor: &mut Cursor, alloc: Global) -> Result<Vec<Constant>, Stop>
    ensures { GivesTo (λ v. v.items) result cursor.new.rest.now (many_at (key_next Key.Const) constant_at cursor.old.rest.now) }
{
    let mut list = Vec::new(alloc);
    for _ in 0..cursor.rest.len() {
        if !cursor.at_key(Key::Const) {
            break;
        }
        let one = constant(cursor)?;
        list.push(one)?;
    }
    Ok(list)
}

// Lines of labels as long as the next token begins one.
pub(crate) fn rows(cursor: &mut Cursor, alloc: Global) -> Result<Vec<TypeRow>, Stop>
    ensures { GivesTo (λ v. v.items) result cursor.new.rest.now (many_at word_next row_at cursor.old.rest.now) }
{
    let mut list = Vec::new(alloc);
    for _ in 0..cursor.rest.len() {
        if !cursor.at_word() {
            break;
        }
        let one = row(cursor)?;
        let _extent = &one.extent;
        list.push(one)?;
    }
    Ok(list)
}
