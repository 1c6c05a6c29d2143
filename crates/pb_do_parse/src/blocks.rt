ghost use Rattle.std.specs.Prelude.{◌≡◌, map};
ghost use Rattle.pb_parse.specs.Gives.{GivesTo};
ghost use Rattle.pb_syntax.specs.Reading.{starts, among, many_at, with_front};
ghost use Rattle.pb_syntax.specs.Readers.{key_next};
ghost use Rattle.pb_do_syntax.specs.Plain.{plain_block, plain_statement};
ghost use Rattle.pb_do_grammar.specs.Readers.{call_keys, rec_text_at, or_block_at, choice_text_at, statement_at, block_at};

use crate::simple::{call, collective, compute, continuation, foreach, message};
use pb_do_syntax::{CallBlock, CallStatement, CallTree, Sub};
use pb_parse::{Cursor, Numeral, Stop};
use pb_syntax::{End, High, IndexText, LinText, Op, Payload, RangeText, RoleText};
use pb_text::{Key, Mark, Place, Spot};
use std::alloc::Global;

// Whether the next token begins a statement.
fn at_statement(cursor: &Cursor) -> bool
    ensures { result ≡ starts (among call_keys) cursor.now.rest.now }
{
    cursor.at_key(Key::Do) || cursor.at_statement()
}

#[cycle(block)]
#[tactic(auto, unfolding(pb_do_grammar::specs::Readers::rec_text_at))]
pub(crate) fn recursion(
    cursor: &mut Cursor,
    alloc: Global,
    depth: usize,
) -> Result<CallStatement, Stop>
    ensures { GivesTo plain_statement result cursor.new.rest.now (rec_text_at (block_at depth) cursor.old.rest.now) }
{
    let place = cursor.key(Key::Rec)?;
    let name = cursor.name()?;
    let body = block(cursor, alloc, depth)?;
    Ok(CallStatement::Rec { place, name, body })
}

#[cycle(block)]
#[tactic(auto, unfolding(pb_do_grammar::specs::Readers::statement_at))]
pub(crate) fn statement(
    cursor: &mut Cursor,
    alloc: Global,
    depth: usize,
) -> Result<CallStatement, Stop>
    ensures { GivesTo plain_statement result cursor.new.rest.now (statement_at (block_at depth) cursor.old.rest.now) }
{
    if cursor.at_word() {
        return message(cursor);
    }
    if cursor.at_key(Key::Foreach) {
        return foreach(cursor, alloc);
    }
    if cursor.at_key(Key::Rec) {
        return recursion(cursor, alloc, depth);
    }
    if cursor.at_key(Key::Continue) {
        return continuation(cursor);
    }
    if cursor.at_key(Key::Choice) {
        return choice(cursor, alloc, depth);
    }
    if cursor.at_key(Key::Compute) {
        return compute(cursor);
    }
    if cursor.at_key(Key::Do) {
        return call(cursor, alloc);
    }
    collective(cursor)
}

#[cycle(block)]
pub(crate) fn statements(
    cursor: &mut Cursor,
    alloc: Global,
    depth: usize,
) -> Result<Vec<CallStatement>, Stop>
    ensures { GivesTo (λ v. map plain_statement v.items) result cursor.new.rest.now (many_at (among call_keys) (statement_at (block_at depth)) cursor.old.rest.now) }
{
    let mut list = Vec::new(alloc);
    for _ in 0..cursor.rest.len() {
        if !at_statement(cursor) {
            break;
        }
        let statement = statement(cursor, alloc, depth)?;
        list.push(statement)?;
    }
    Ok(list)
}

// `depth` is how many blocks may still be nested. There are never more than tokens.
#[cycle(block)]
#[tactic(auto, unfolding(pb_do_grammar::specs::Readers::block_at, pb_do_grammar::specs::Readers::braces_at))]
pub(crate) fn block(cursor: &mut Cursor, alloc: Global, depth: usize) -> Result<CallBlock, Stop>
    ensures { GivesTo plain_block result cursor.new.rest.now (block_at depth cursor.old.rest.now) }
{
    let place = cursor.mark(Mark::LeftBrace)?;
    if depth == 0 {
        cursor.mark(Mark::RightBrace)?;
        return Ok(CallBlock {
            place,
            list: Vec::new(alloc),
        });
    }
    let list = statements(cursor, alloc, depth - 1)?;
    cursor.mark(Mark::RightBrace)?;
    Ok(CallBlock { place, list })
}

#[cycle(block)]
#[tactic(auto, unfolding(pb_do_grammar::specs::Readers::or_block_at))]
pub(crate) fn or_block(cursor: &mut Cursor, alloc: Global, depth: usize) -> Result<CallBlock, Stop>
    ensures { GivesTo plain_block result cursor.new.rest.now (or_block_at (block_at depth) cursor.old.rest.now) }
{
    cursor.key(Key::Or)?;
    block(cursor, alloc, depth)
}

// The branches after the first two, behind those.
#[cycle(block)]
pub(crate) fn or_blocks(
    cursor: &mut Cursor,
    alloc: Global,
    depth: usize,
    mut list: Vec<CallBlock>,
) -> Result<Vec<CallBlock>, Stop>
    ensures { GivesTo (λ v. map plain_block v.items) result cursor.new.rest.now (with_front (map plain_block list.items) (many_at (key_next Key.Or) (or_block_at (block_at depth)) cursor.old.rest.now)) }
{
    for _ in 0..cursor.rest.len() {
        if !cursor.at_key(Key::Or) {
            break;
        }
        let branch = or_block(cursor, alloc, depth)?;
        list.push(branch)?;
    }
    Ok(list)
}

#[cycle(block)]
#[tactic(auto, unfolding(pb_do_grammar::specs::Readers::choice_text_at))]
pub(crate) fn choice(
    cursor: &mut Cursor,
    alloc: Global,
    depth: usize,
) -> Result<CallStatement, Stop>
    ensures { GivesTo plain_statement result cursor.new.rest.now (choice_text_at (block_at depth) cursor.old.rest.now) }
{
    let place = cursor.key(Key::Choice)?;
    let kernel = cursor.name()?;
    cursor.key(Key::At)?;
    let at = cursor.plain_end()?;
    let first = block(cursor, alloc, depth)?;
    let second = or_block(cursor, alloc, depth)?;
    let mut branches = Vec::new(alloc);
    branches.push(first)?;
    branches.push(second)?;
    let branches = or_blocks(cursor, alloc, depth, branches)?;
    Ok(CallStatement::Choice {
        place,
        kernel,
        at,
        branches,
    })
}
