ghost use Rattle.std.specs.Prelude.{◌≡◌, map};
ghost use Rattle.pb_text.specs.declared.token.Key.TheVariants.{Or};
ghost use Rattle.pb_parse.specs.Gives.{GivesTo};
ghost use Rattle.pb_syntax.specs.Reading.{starts, among, many_at, with_front};
ghost use Rattle.pb_syntax.specs.Readers.{key_next};
ghost use Rattle.pb_strips_syntax.specs.Plain.{plain_block, plain_statement};
ghost use Rattle.pb_strips_grammar.specs.Readers.{braces_at, columns_text_at, foreach_text_at, rec_text_at, or_block_at, choice_text_at, statement_at, column_block_at};
ghost use Rattle.pb_strips_parse.specs.Blocks.{items_within, block_within, keys_within, statement_within};

use crate::ends::plain_end;
use crate::items::{item_block, item_or_columns_block};
use crate::simple::{collective, compute, continuation, message};
use pb_parse::{Cursor, Numeral, Stop};
use pb_strips_syntax::{Col, StripBlock, StripEnd, StripStatement};
use pb_syntax::{IndexText, LinText, Op, Payload, RangeText};
use pb_text::{Key, Mark, Place, Spot};
use std::alloc::Global;

/// What a statement stands in.
#[derive(Clone, Copy)]
pub enum Around {
    /// The protocol, outside of `columns`.
    Protocol,
    /// The braces of `columns`, in which there are no further `columns`.
    Columns,
}

// The block of a `foreach`.
fn foreach_items(cursor: &mut Cursor, alloc: Global, around: Around) -> Result<StripBlock, Stop>
    ensures { GivesTo plain_block result cursor.new.rest.now (items_within around cursor.old.rest.now) }
{
    match around {
        Around::Protocol => item_or_columns_block(cursor, alloc),
        Around::Columns => item_block(cursor, alloc),
    }
}

// A whole `foreach`.
#[tactic(auto, unfolding(pb_strips_grammar::specs::Readers::foreach_text_at))]
fn foreach(cursor: &mut Cursor, alloc: Global, around: Around) -> Result<StripStatement, Stop>
    ensures { GivesTo plain_statement result cursor.new.rest.now (foreach_text_at (items_within around) cursor.old.rest.now) }
{
    let place = cursor.key(Key::Foreach)?;
    cursor.mark(Mark::LeftParen)?;
    let var = cursor.name()?;
    cursor.mark(Mark::Colon)?;
    let range = cursor.range()?;
    cursor.mark(Mark::RightParen)?;
    let items = foreach_items(cursor, alloc, around)?;
    Ok(StripStatement::Foreach {
        place,
        var,
        range,
        items,
    })
}

// Whether the next token begins a statement.
fn at_statement(cursor: &Cursor, around: Around) -> bool
    ensures { result ≡ starts (among (keys_within around)) cursor.now.rest.now }
{
    match around {
        Around::Protocol => cursor.at_key(Key::Do) || cursor.at_statement(),
        Around::Columns => cursor.at_statement(),
    }
}

// No statement in braces.
#[tactic(auto, unfolding(pb_strips_grammar::specs::Readers::column_block_at))]
fn empty_block(cursor: &mut Cursor, alloc: Global) -> Result<StripBlock, Stop>
    ensures { GivesTo plain_block result cursor.new.rest.now (column_block_at 0 cursor.old.rest.now) }
{
    let place = cursor.mark(Mark::LeftBrace)?;
    cursor.mark(Mark::RightBrace)?;
    Ok(StripBlock {
        place,
        list: Vec::new(alloc),
    })
}

#[cycle(block)]
#[tactic(auto, unfolding(pb_strips_grammar::specs::Readers::rec_text_at))]
fn recursion(
    cursor: &mut Cursor,
    alloc: Global,
    around: Around,
    depth: usize,
) -> Result<StripStatement, Stop>
    ensures { GivesTo plain_statement result cursor.new.rest.now (rec_text_at (block_within around depth) cursor.old.rest.now) }
{
    let place = cursor.key(Key::Rec)?;
    let name = cursor.name()?;
    let body = block(cursor, alloc, around, depth)?;
    Ok(StripStatement::Rec { place, name, body })
}

// `columns` around statements.
#[cycle(block)]
#[tactic(auto, unfolding(pb_strips_grammar::specs::Readers::columns_text_at))]
fn columns(cursor: &mut Cursor, alloc: Global, depth: usize) -> Result<StripStatement, Stop>
    ensures { GivesTo plain_statement result cursor.new.rest.now (columns_text_at (column_block_at depth) cursor.old.rest.now) }
{
    let place = cursor.key(Key::Do)?;
    cursor.mark(Mark::LeftParen)?;
    let var = cursor.name()?;
    cursor.mark(Mark::Colon)?;
    let low = cursor.number()?;
    cursor.mark(Mark::Dots)?;
    let high = cursor.number()?;
    cursor.mark(Mark::RightParen)?;
    let body = block(cursor, alloc, Around::Columns, depth)?;
    Ok(StripStatement::Columns {
        place,
        var,
        low: low.value,
        high: high.value,
        body,
    })
}

// Any statement but `columns`.
#[cycle(block)]
#[tactic(auto, unfolding(pb_strips_grammar::specs::Readers::statement_at))]
fn statement(
    cursor: &mut Cursor,
    alloc: Global,
    around: Around,
    depth: usize,
) -> Result<StripStatement, Stop>
    ensures { GivesTo plain_statement result cursor.new.rest.now (statement_at (items_within around) (block_within around depth) cursor.old.rest.now) }
{
    if cursor.at_word() {
        return message(cursor);
    }
    if cursor.at_key(Key::Foreach) {
        return foreach(cursor, alloc, around);
    }
    if cursor.at_key(Key::Rec) {
        return recursion(cursor, alloc, around, depth);
    }
    if cursor.at_key(Key::Continue) {
        return continuation(cursor);
    }
    if cursor.at_key(Key::Choice) {
        return choice(cursor, alloc, around, depth);
    }
    if cursor.at_key(Key::Compute) {
        return compute(cursor);
    }
    collective(cursor)
}

// A statement, or outside of columns `columns` around statements.
#[cycle(block)]
#[tactic(auto, unfolding(pb_strips_grammar::specs::Readers::statement_or_columns_at))]
fn statement_or_columns(
    cursor: &mut Cursor,
    alloc: Global,
    around: Around,
    depth: usize,
) -> Result<StripStatement, Stop>
    ensures { GivesTo plain_statement result cursor.new.rest.now (statement_within around depth cursor.old.rest.now) }
{
    match around {
        Around::Protocol if cursor.at_key(Key::Do) => columns(cursor, alloc, depth),
        Around::Protocol | Around::Columns => statement(cursor, alloc, around, depth),
    }
}

#[cycle(block)]
fn statements(
    cursor: &mut Cursor,
    alloc: Global,
    around: Around,
    depth: usize,
) -> Result<Vec<StripStatement>, Stop>
    ensures { GivesTo (λ v. map plain_statement v.items) result cursor.new.rest.now (many_at (among (keys_within around)) (statement_within around depth) cursor.old.rest.now) }
{
    let mut list = Vec::new(alloc);
    for _ in 0..cursor.rest.len() {
        if !at_statement(cursor, around) {
            break;
        }
        let statement = statement_or_columns(cursor, alloc, around, depth)?;
        list.push(statement)?;
    }
    Ok(list)
}

// Statements in braces.
#[cycle(block)]
#[tactic(auto, unfolding(pb_strips_grammar::specs::Readers::braces_at))]
fn braces(
    cursor: &mut Cursor,
    alloc: Global,
    around: Around,
    depth: usize,
) -> Result<StripBlock, Stop>
    ensures { GivesTo plain_block result cursor.new.rest.now (braces_at (among (keys_within around)) (statement_within around depth) cursor.old.rest.now) }
{
    let place = cursor.mark(Mark::LeftBrace)?;
    let list = statements(cursor, alloc, around, depth)?;
    cursor.mark(Mark::RightBrace)?;
    Ok(StripBlock { place, list })
}

// `depth` is how many blocks may still be nested. There are never more than tokens.
#[cycle(block)]
#[tactic(auto, using(crate::proofs::Shapes::block_empty))]
pub(crate) fn block(
    cursor: &mut Cursor,
    alloc: Global,
    around: Around,
    depth: usize,
) -> Result<StripBlock, Stop>
    ensures { GivesTo plain_block result cursor.new.rest.now (block_within around depth cursor.old.rest.now) }
{
    if depth == 0 {
        return empty_block(cursor, alloc);
    }
    braces(cursor, alloc, around, depth - 1)
}

#[cycle(block)]
#[tactic(auto, unfolding(pb_strips_grammar::specs::Readers::or_block_at))]
fn or_block(
    cursor: &mut Cursor,
    alloc: Global,
    around: Around,
    depth: usize,
) -> Result<StripBlock, Stop>
    ensures { GivesTo plain_block result cursor.new.rest.now (or_block_at (block_within around depth) cursor.old.rest.now) }
{
    cursor.key(Key::Or)?;
    block(cursor, alloc, around, depth)
}

// The branches after the first two, behind those.
#[cycle(block)]
fn or_blocks(
    cursor: &mut Cursor,
    alloc: Global,
    around: Around,
    depth: usize,
    mut list: Vec<StripBlock>,
) -> Result<Vec<StripBlock>, Stop>
    ensures { GivesTo (λ v. map plain_block v.items) result cursor.new.rest.now (with_front (map plain_block list.items) (many_at (key_next Or) (or_block_at (block_within around depth)) cursor.old.rest.now)) }
{
    for _ in 0..cursor.rest.len() {
        if !cursor.at_key(Key::Or) {
            break;
        }
        let branch = or_block(cursor, alloc, around, depth)?;
        list.push(branch)?;
    }
    Ok(list)
}

#[cycle(block)]
#[tactic(auto, unfolding(pb_strips_grammar::specs::Readers::choice_text_at))]
fn choice(
    cursor: &mut Cursor,
    alloc: Global,
    around: Around,
    depth: usize,
) -> Result<StripStatement, Stop>
    ensures { GivesTo plain_statement result cursor.new.rest.now (choice_text_at (block_within around depth) cursor.old.rest.now) }
{
    let place = cursor.key(Key::Choice)?;
    let kernel = cursor.name()?;
    cursor.key(Key::At)?;
    let at = plain_end(cursor)?;
    let first = block(cursor, alloc, around, depth)?;
    let second = or_block(cursor, alloc, around, depth)?;
    let mut branches = Vec::new(alloc);
    branches.push(first)?;
    branches.push(second)?;
    let branches = or_blocks(cursor, alloc, around, depth, branches)?;
    Ok(StripStatement::Choice {
        place,
        kernel,
        at,
        branches,
    })
}
