ghost use Rattle.pb_parse.specs.Gives.{GivesTo};
ghost use Rattle.pb_strips_syntax.specs.Plain.{plain_statement};
ghost use Rattle.pb_strips_grammar.specs.Readers.{and_semicolon_at, message_text_at, item_message_at, compute_text_at, continue_text_at, broadcast_text_at, reduce_text_at, allreduce_text_at, collective_at, item_at};

use crate::ends::{any_end, end_beside, plain_end};
use pb_parse::{Cursor, Numeral, Stop};
use pb_strips_syntax::{Col, StripBlock, StripEnd, StripStatement};
use pb_syntax::{IndexText, LinText, Op, Payload, RangeText};
use pb_text::{Key, Mark, Place, Spot};

// A message and its `;`. At most one of its ends binds.
#[tactic(auto, unfolding(pb_strips_grammar::specs::Readers::and_semicolon_at, pb_strips_grammar::specs::Readers::message_text_at))]
pub(crate) fn message(cursor: &mut Cursor) -> Result<StripStatement, Stop>
    ensures { GivesTo plain_statement result cursor.new.rest.now (and_semicolon_at message_text_at cursor.old.rest.now) }
{
    let label = cursor.name()?;
    let payload = cursor.payload()?;
    cursor.key(Key::From)?;
    let from = any_end(cursor)?;
    cursor.key(Key::To)?;
    let to = end_beside(cursor, &from.index)?;
    cursor.mark(Mark::Semicolon)?;
    Ok(StripStatement::Message {
        label,
        payload,
        from,
        to,
    })
}

// `compute` and its `;`.
#[tactic(auto, unfolding(pb_strips_grammar::specs::Readers::and_semicolon_at, pb_strips_grammar::specs::Readers::compute_text_at))]
pub(crate) fn compute(cursor: &mut Cursor) -> Result<StripStatement, Stop>
    ensures { GivesTo plain_statement result cursor.new.rest.now (and_semicolon_at compute_text_at cursor.old.rest.now) }
{
    let place = cursor.key(Key::Compute)?;
    let kernel = cursor.name()?;
    cursor.key(Key::At)?;
    let at = plain_end(cursor)?;
    cursor.mark(Mark::Semicolon)?;
    Ok(StripStatement::Compute { place, kernel, at })
}

// `continue` and its `;`.
#[tactic(auto, unfolding(pb_strips_grammar::specs::Readers::and_semicolon_at, pb_strips_grammar::specs::Readers::continue_text_at))]
pub(crate) fn continuation(cursor: &mut Cursor) -> Result<StripStatement, Stop>
    ensures { GivesTo plain_statement result cursor.new.rest.now (and_semicolon_at continue_text_at cursor.old.rest.now) }
{
    let place = cursor.key(Key::Continue)?;
    let name = cursor.name()?;
    cursor.mark(Mark::Semicolon)?;
    Ok(StripStatement::Continue { place, name })
}

// `broadcast` and its `;`.
#[tactic(auto, unfolding(pb_strips_grammar::specs::Readers::and_semicolon_at))]
fn broadcast(cursor: &mut Cursor) -> Result<StripStatement, Stop>
    ensures { GivesTo plain_statement result cursor.new.rest.now (and_semicolon_at broadcast_text_at cursor.old.rest.now) }
{
    let place = cursor.key(Key::Broadcast)?;
    let label = cursor.name()?;
    let payload = cursor.payload()?;
    cursor.key(Key::From)?;
    let from = plain_end(cursor)?;
    cursor.mark(Mark::Semicolon)?;
    Ok(StripStatement::Broadcast {
        place,
        label,
        payload,
        from,
    })
}

// `reduce` and its `;`.
#[tactic(auto, unfolding(pb_strips_grammar::specs::Readers::and_semicolon_at))]
fn reduce(cursor: &mut Cursor) -> Result<StripStatement, Stop>
    ensures { GivesTo plain_statement result cursor.new.rest.now (and_semicolon_at reduce_text_at cursor.old.rest.now) }
{
    let place = cursor.key(Key::Reduce)?;
    let label = cursor.name()?;
    let payload = cursor.payload()?;
    cursor.key(Key::With)?;
    let op = cursor.op()?;
    cursor.key(Key::To)?;
    let to = plain_end(cursor)?;
    cursor.mark(Mark::Semicolon)?;
    Ok(StripStatement::Reduce {
        place,
        label,
        payload,
        op,
        to,
    })
}

// `allreduce` and its `;`.
#[tactic(auto, unfolding(pb_strips_grammar::specs::Readers::and_semicolon_at))]
fn allreduce(cursor: &mut Cursor) -> Result<StripStatement, Stop>
    ensures { GivesTo plain_statement result cursor.new.rest.now (and_semicolon_at allreduce_text_at cursor.old.rest.now) }
{
    let place = cursor.key(Key::Allreduce)?;
    let label = cursor.name()?;
    let payload = cursor.payload()?;
    cursor.key(Key::With)?;
    let op = cursor.op()?;
    cursor.mark(Mark::Semicolon)?;
    Ok(StripStatement::Allreduce {
        place,
        label,
        payload,
        op,
    })
}

// A collective and its `;`.
#[tactic(auto, unfolding(pb_strips_grammar::specs::Readers::and_semicolon_at, pb_strips_grammar::specs::Readers::collective_at))]
pub(crate) fn collective(cursor: &mut Cursor) -> Result<StripStatement, Stop>
    ensures { GivesTo plain_statement result cursor.new.rest.now (and_semicolon_at collective_at cursor.old.rest.now) }
{
    if cursor.at_key(Key::Barrier) {
        let place = cursor.key(Key::Barrier)?;
        cursor.mark(Mark::Semicolon)?;
        return Ok(StripStatement::Barrier { place });
    }
    if cursor.at_key(Key::Broadcast) {
        return broadcast(cursor);
    }
    if cursor.at_key(Key::Reduce) {
        return reduce(cursor);
    }
    allreduce(cursor)
}

// A message of a `foreach` and its `;`. No end binds.
#[tactic(auto, unfolding(pb_strips_grammar::specs::Readers::and_semicolon_at, pb_strips_grammar::specs::Readers::item_message_at))]
fn item_message(cursor: &mut Cursor) -> Result<StripStatement, Stop>
    ensures { GivesTo plain_statement result cursor.new.rest.now (and_semicolon_at item_message_at cursor.old.rest.now) }
{
    let label = cursor.name()?;
    let payload = cursor.payload()?;
    cursor.key(Key::From)?;
    let from = plain_end(cursor)?;
    cursor.key(Key::To)?;
    let to = plain_end(cursor)?;
    cursor.mark(Mark::Semicolon)?;
    Ok(StripStatement::Message {
        label,
        payload,
        from,
        to,
    })
}

// An item of a `foreach` and its `;`.
#[tactic(auto, unfolding(pb_strips_grammar::specs::Readers::item_at))]
pub(crate) fn item(cursor: &mut Cursor) -> Result<StripStatement, Stop>
    ensures { GivesTo plain_statement result cursor.new.rest.now (item_at cursor.old.rest.now) }
{
    if cursor.at_word() {
        return item_message(cursor);
    }
    compute(cursor)
}
