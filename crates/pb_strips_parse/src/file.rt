ghost use Rattle.pb_parse.specs.Gives.{GivesTo};
ghost use Rattle.pb_syntax.specs.Reading.{next};
ghost use Rattle.pb_strips_syntax.specs.Plain.{plain_file};
ghost use Rattle.pb_strips_grammar.specs.Readers.{block_at, file_at, ended};

use crate::blocks::{Around, block};
use crate::roles::strip_roles;
use pb_parse::{Cursor, Numeral, Stop, Top};
use pb_strips_syntax::{Col, StripBlock, StripEnd, StripRole, StripStatement, StripTree};
use pb_syntax::{High, IndexText, LinText, Op, Payload, RangeText};
use pb_text::{Key, Mark, Place, Spot};
use std::alloc::Global;

#[tactic(auto, unfolding(pb_strips_grammar::specs::Readers::file_at))]
fn file(cursor: &mut Cursor, alloc: Global, depth: usize) -> Result<StripTree, Stop>
    ensures { GivesTo plain_file result cursor.new.rest.now (file_at (block_at depth) cursor.old.rest.now) }
{
    cursor.key(Key::Const)?;
    let constant = cursor.name()?;
    cursor.mark(Mark::Equals)?;
    let low = cursor.number()?;
    cursor.mark(Mark::Dots)?;
    let high = cursor.top()?;
    cursor.mark(Mark::Semicolon)?;
    cursor.key(Key::Global)?;
    cursor.key(Key::Protocol)?;
    let protocol = cursor.name()?;
    cursor.mark(Mark::LeftParen)?;
    let roles = strip_roles(cursor, alloc)?;
    cursor.mark(Mark::RightParen)?;
    let body = block(cursor, alloc, Around::Protocol, depth)?;
    Ok(StripTree {
        constant,
        low: low.value,
        low_place: low.place,
        high: high.high,
        high_place: high.place,
        protocol,
        roles,
        body,
    })
}

// The tree of all the tokens.
pub(crate) fn whole(cursor: &mut Cursor, alloc: Global, depth: usize) -> Result<StripTree, Stop>
    ensures { GivesTo plain_file result cursor.new.rest.now (next (file_at (block_at depth) cursor.old.rest.now) ended) }
{
    let file = file(cursor, alloc, depth)?;
    if cursor.rest.is_empty() {
        Ok(file)
    } else {
        Err(Stop::Unexpected)
    }
}
