ghost use Rattle.std.specs.Prelude.{◌≡◌, map};
ghost use Rattle.pb_parse.specs.Gives.{GivesTo};
ghost use Rattle.pb_syntax.specs.Reading.{starts, among, many_at};
ghost use Rattle.pb_syntax.specs.Readers.{item_keys};
ghost use Rattle.pb_strips_syntax.specs.Plain.{plain_block, plain_statement};
ghost use Rattle.pb_strips_grammar.specs.Readers.{strip_item_keys, item_at, columns_text_at, items_at, item_or_columns_at, items_or_columns_at};

use crate::simple::item;
use pb_parse::{Cursor, Numeral, Stop};
use pb_strips_syntax::{Col, StripBlock, StripEnd, StripStatement};
use pb_syntax::{IndexText, LinText, Op, Payload, RangeText};
use pb_text::{Key, Mark, Place, Spot};
use std::alloc::Global;

// Items as long as the next token begins one.
fn item_list(cursor: &mut Cursor, alloc: Global) -> Result<Vec<StripStatement>, Stop>
    ensures { GivesTo (λ v. map plain_statement v.items) result cursor.new.rest.now (many_at (among item_keys) item_at cursor.old.rest.now) }
{
    let mut list = Vec::new(alloc);
    for _ in 0..cursor.rest.len() {
        if !cursor.at_item() {
            break;
        }
        let item = item(cursor)?;
        list.push(item)?;
    }
    Ok(list)
}

// Items in braces.
#[tactic(auto, unfolding(pb_strips_grammar::specs::Readers::items_at, pb_strips_grammar::specs::Readers::braces_at))]
pub(crate) fn item_block(cursor: &mut Cursor, alloc: Global) -> Result<StripBlock, Stop>
    ensures { GivesTo plain_block result cursor.new.rest.now (items_at cursor.old.rest.now) }
{
    let place = cursor.mark(Mark::LeftBrace)?;
    let list = item_list(cursor, alloc)?;
    cursor.mark(Mark::RightBrace)?;
    Ok(StripBlock { place, list })
}

// `columns` around items.
#[tactic(auto, unfolding(pb_strips_grammar::specs::Readers::columns_text_at))]
fn columns_of_items(cursor: &mut Cursor, alloc: Global) -> Result<StripStatement, Stop>
    ensures { GivesTo plain_statement result cursor.new.rest.now (columns_text_at items_at cursor.old.rest.now) }
{
    let place = cursor.key(Key::Do)?;
    cursor.mark(Mark::LeftParen)?;
    let var = cursor.name()?;
    cursor.mark(Mark::Colon)?;
    let low = cursor.number()?;
    cursor.mark(Mark::Dots)?;
    let high = cursor.number()?;
    cursor.mark(Mark::RightParen)?;
    let body = item_block(cursor, alloc)?;
    Ok(StripStatement::Columns {
        place,
        var,
        low: low.value,
        high: high.value,
        body,
    })
}

// Whether the next token begins an item, or columns of items.
fn at_item_or_columns(cursor: &Cursor) -> bool
    ensures { result ≡ starts (among strip_item_keys) cursor.now.rest.now }
{
    cursor.at_key(Key::Do) || cursor.at_item()
}

#[tactic(auto, unfolding(pb_strips_grammar::specs::Readers::item_or_columns_at))]
fn item_or_columns(cursor: &mut Cursor, alloc: Global) -> Result<StripStatement, Stop>
    ensures { GivesTo plain_statement result cursor.new.rest.now (item_or_columns_at cursor.old.rest.now) }
{
    if cursor.at_key(Key::Do) {
        return columns_of_items(cursor, alloc);
    }
    item(cursor)
}

// Items and columns of items as long as the next token begins one.
fn item_or_columns_list(cursor: &mut Cursor, alloc: Global) -> Result<Vec<StripStatement>, Stop>
    ensures { GivesTo (λ v. map plain_statement v.items) result cursor.new.rest.now (many_at (among strip_item_keys) item_or_columns_at cursor.old.rest.now) }
{
    let mut list = Vec::new(alloc);
    for _ in 0..cursor.rest.len() {
        if !at_item_or_columns(cursor) {
            break;
        }
        let item = item_or_columns(cursor, alloc)?;
        list.push(item)?;
    }
    Ok(list)
}

// Items and columns of items in braces.
#[tactic(auto, unfolding(pb_strips_grammar::specs::Readers::items_or_columns_at, pb_strips_grammar::specs::Readers::braces_at))]
pub(crate) fn item_or_columns_block(cursor: &mut Cursor, alloc: Global) -> Result<StripBlock, Stop>
    ensures { GivesTo plain_block result cursor.new.rest.now (items_or_columns_at cursor.old.rest.now) }
{
    let place = cursor.mark(Mark::LeftBrace)?;
    let list = item_or_columns_list(cursor, alloc)?;
    cursor.mark(Mark::RightBrace)?;
    Ok(StripBlock { place, list })
}
