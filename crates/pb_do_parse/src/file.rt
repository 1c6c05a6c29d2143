ghost use Rattle.std.specs.Prelude.{map};
ghost use Rattle.pb_parse.specs.Gives.{GivesTo};
ghost use Rattle.pb_syntax.specs.Reading.{next, many_at};
ghost use Rattle.pb_syntax.specs.Readers.{key_next};
ghost use Rattle.pb_do_syntax.specs.Plain.{plain_sub, plain_file};
ghost use Rattle.pb_do_grammar.specs.Readers.{subprotocol_at, block_at, file_at, ended};

use crate::blocks::block;
use crate::lists::{comma_parameters, parameter};
use pb_do_syntax::{CallBlock, CallStatement, CallTree, Sub};
use pb_parse::{Cursor, Numeral, Stop, Top};
use pb_syntax::{End, High, IndexText, LinText, Op, Payload, RangeText, RoleText};
use pb_text::{Key, Mark, Place, Spot};
use std::alloc::Global;

#[tactic(auto, unfolding(pb_do_grammar::specs::Readers::subprotocol_at))]
fn subprotocol(cursor: &mut Cursor, alloc: Global, depth: usize) -> Result<Sub, Stop>
    ensures { GivesTo plain_sub result cursor.new.rest.now (subprotocol_at (block_at depth) cursor.old.rest.now) }
{
    cursor.key(Key::Protocol)?;
    let name = cursor.name()?;
    cursor.mark(Mark::LeftParen)?;
    let first = parameter(cursor)?;
    let mut params = Vec::new(alloc);
    params.push(first)?;
    let params = comma_parameters(cursor, params)?;
    cursor.mark(Mark::RightParen)?;
    let body = block(cursor, alloc, depth)?;
    Ok(Sub { name, params, body })
}

// Subprotocols as long as the next token begins one.
fn subprotocols(cursor: &mut Cursor, alloc: Global, depth: usize) -> Result<Vec<Sub>, Stop>
    ensures { GivesTo (λ v. map plain_sub v.items) result cursor.new.rest.now (many_at (key_next Key.Protocol) (subprotocol_at (block_at depth)) cursor.old.rest.now) }
{
    let mut list = Vec::new(alloc);
    for _ in 0..cursor.rest.len() {
        if !cursor.at_key(Key::Protocol) {
            break;
        }
        let sub = subprotocol(cursor, alloc, depth)?;
        list.push(sub)?;
    }
    Ok(list)
}

#[tactic(auto, unfolding(pb_do_grammar::specs::Readers::file_at))]
fn file(cursor: &mut Cursor, alloc: Global, depth: usize) -> Result<CallTree, Stop>
    ensures { GivesTo plain_file result cursor.new.rest.now (file_at (block_at depth) cursor.old.rest.now) }
{
    cursor.key(Key::Const)?;
    let constant = cursor.name()?;
    cursor.mark(Mark::Equals)?;
    let low = cursor.number()?;
    cursor.mark(Mark::Dots)?;
    let high = cursor.top()?;
    cursor.mark(Mark::Semicolon)?;
    let subs = subprotocols(cursor, alloc, depth)?;
    cursor.key(Key::Global)?;
    cursor.key(Key::Protocol)?;
    let protocol = cursor.name()?;
    cursor.mark(Mark::LeftParen)?;
    let roles = cursor.roles(alloc)?;
    cursor.mark(Mark::RightParen)?;
    let body = block(cursor, alloc, depth)?;
    Ok(CallTree {
        subs,
        constant,
        low: low.value,
        low_place: low.place,
        high: high.high,
        high_place: high.place,
        protocol,
        roles,
        body,
    })
}

// The tree of all the tokens.
pub(crate) fn whole(cursor: &mut Cursor, alloc: Global, depth: usize) -> Result<CallTree, Stop>
    ensures { GivesTo plain_file result cursor.new.rest.now (next (file_at (block_at depth) cursor.old.rest.now) ended) }
{
    let file = file(cursor, alloc, depth)?;
    if cursor.rest.is_empty() {
        Ok(file)
    } else {
        Err(Stop::Unexpected)
    }
}
