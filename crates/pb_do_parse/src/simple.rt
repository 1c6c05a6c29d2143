ghost use Rattle.std.specs.Prelude.{map};
ghost use Rattle.pb_parse.specs.Gives.{GivesTo};
ghost use Rattle.pb_syntax.specs.Reading.{among, many_at};
ghost use Rattle.pb_syntax.specs.Readers.{message_text_at, item_message_at, compute_text_at, continue_text_at, collective_at, item_keys};
ghost use Rattle.pb_do_syntax.specs.Plain.{plain_block, plain_statement};
ghost use Rattle.pb_do_grammar.specs.Readers.{simple_at, item_call_at, braces_at, foreach_text_at, call_text_at};

use crate::lists::comma_names;
use pb_do_syntax::{CallBlock, CallStatement, CallTree, Sub};
use pb_parse::{Cursor, Numeral, Stop};
use pb_syntax::{End, High, IndexText, LinText, Op, Payload, RangeText, RoleText};
use pb_text::{Key, Mark, Place, Spot};
use std::alloc::Global;

// A message and its `;`. At most one of its ends binds.
#[tactic(auto, unfolding(pb_do_grammar::specs::Readers::simple_at, pb_syntax::specs::Readers::and_semicolon_at, pb_syntax::specs::Readers::message_text_at))]
pub(crate) fn message(cursor: &mut Cursor) -> Result<CallStatement, Stop>
    ensures { GivesTo plain_statement result cursor.new.rest.now (simple_at message_text_at cursor.old.rest.now) }
{
    let label = cursor.name()?;
    let payload = cursor.payload()?;
    cursor.key(Key::From)?;
    let from = cursor.any_end()?;
    cursor.key(Key::To)?;
    let to = cursor.end_beside(&from.index)?;
    cursor.mark(Mark::Semicolon)?;
    Ok(CallStatement::Message {
        label,
        payload,
        from,
        to,
    })
}

// `compute` and its `;`.
#[tactic(auto, unfolding(pb_do_grammar::specs::Readers::simple_at, pb_syntax::specs::Readers::and_semicolon_at, pb_syntax::specs::Readers::compute_text_at))]
pub(crate) fn compute(cursor: &mut Cursor) -> Result<CallStatement, Stop>
    ensures { GivesTo plain_statement result cursor.new.rest.now (simple_at compute_text_at cursor.old.rest.now) }
{
    let place = cursor.key(Key::Compute)?;
    let kernel = cursor.name()?;
    cursor.key(Key::At)?;
    let at = cursor.plain_end()?;
    cursor.mark(Mark::Semicolon)?;
    Ok(CallStatement::Compute { place, kernel, at })
}

// `continue` and its `;`.
#[tactic(auto, unfolding(pb_do_grammar::specs::Readers::simple_at, pb_syntax::specs::Readers::and_semicolon_at, pb_syntax::specs::Readers::continue_text_at))]
pub(crate) fn continuation(cursor: &mut Cursor) -> Result<CallStatement, Stop>
    ensures { GivesTo plain_statement result cursor.new.rest.now (simple_at continue_text_at cursor.old.rest.now) }
{
    let place = cursor.key(Key::Continue)?;
    let name = cursor.name()?;
    cursor.mark(Mark::Semicolon)?;
    Ok(CallStatement::Continue { place, name })
}

// A collective and its `;`.
#[tactic(auto, unfolding(pb_do_grammar::specs::Readers::simple_at, pb_syntax::specs::Readers::and_semicolon_at, pb_syntax::specs::Readers::collective_at))]
pub(crate) fn collective(cursor: &mut Cursor) -> Result<CallStatement, Stop>
    ensures { GivesTo plain_statement result cursor.new.rest.now (simple_at collective_at cursor.old.rest.now) }
{
    if cursor.at_key(Key::Barrier) {
        let place = cursor.key(Key::Barrier)?;
        cursor.mark(Mark::Semicolon)?;
        return Ok(CallStatement::Barrier { place });
    }
    if cursor.at_key(Key::Broadcast) {
        let place = cursor.key(Key::Broadcast)?;
        let label = cursor.name()?;
        let payload = cursor.payload()?;
        cursor.key(Key::From)?;
        let from = cursor.plain_end()?;
        cursor.mark(Mark::Semicolon)?;
        return Ok(CallStatement::Broadcast {
            place,
            label,
            payload,
            from,
        });
    }
    if cursor.at_key(Key::Reduce) {
        let place = cursor.key(Key::Reduce)?;
        let label = cursor.name()?;
        let payload = cursor.payload()?;
        cursor.key(Key::With)?;
        let op = cursor.op()?;
        cursor.key(Key::To)?;
        let to = cursor.plain_end()?;
        cursor.mark(Mark::Semicolon)?;
        return Ok(CallStatement::Reduce {
            place,
            label,
            payload,
            op,
            to,
        });
    }
    let place = cursor.key(Key::Allreduce)?;
    let label = cursor.name()?;
    let payload = cursor.payload()?;
    cursor.key(Key::With)?;
    let op = cursor.op()?;
    cursor.mark(Mark::Semicolon)?;
    Ok(CallStatement::Allreduce {
        place,
        label,
        payload,
        op,
    })
}

// A message of a `foreach` and its `;`. No end binds.
#[tactic(auto, unfolding(pb_do_grammar::specs::Readers::simple_at, pb_syntax::specs::Readers::and_semicolon_at, pb_syntax::specs::Readers::item_message_at))]
fn item_message(cursor: &mut Cursor) -> Result<CallStatement, Stop>
    ensures { GivesTo plain_statement result cursor.new.rest.now (simple_at item_message_at cursor.old.rest.now) }
{
    let label = cursor.name()?;
    let payload = cursor.payload()?;
    cursor.key(Key::From)?;
    let from = cursor.plain_end()?;
    cursor.key(Key::To)?;
    let to = cursor.plain_end()?;
    cursor.mark(Mark::Semicolon)?;
    Ok(CallStatement::Message {
        label,
        payload,
        from,
        to,
    })
}

// An item of a `foreach` and its `;`.
#[tactic(auto, unfolding(pb_do_grammar::specs::Readers::item_call_at, pb_syntax::specs::Readers::item_at, pb_do_grammar::specs::Readers::simple_at))]
pub(crate) fn item(cursor: &mut Cursor) -> Result<CallStatement, Stop>
    ensures { GivesTo plain_statement result cursor.new.rest.now (item_call_at cursor.old.rest.now) }
{
    if cursor.at_word() {
        return item_message(cursor);
    }
    compute(cursor)
}

// Items as long as the next token begins one.
pub(crate) fn items(cursor: &mut Cursor, alloc: Global) -> Result<Vec<CallStatement>, Stop>
    ensures { GivesTo (λ v. map plain_statement v.items) result cursor.new.rest.now (many_at (among item_keys) item_call_at cursor.old.rest.now) }
{
    let mut list = Vec::new(alloc);
    for _ in 0..cursor.rest.len() {
        if !cursor.at_item() {
            break;
        }
        let item = item(cursor)?;
        list.push(item)?;
    }
    Ok(list)
}

// Items in braces.
#[tactic(auto, unfolding(pb_do_grammar::specs::Readers::braces_at))]
pub(crate) fn item_braces(cursor: &mut Cursor, alloc: Global) -> Result<CallBlock, Stop>
    ensures { GivesTo plain_block result cursor.new.rest.now (braces_at (among item_keys) item_call_at cursor.old.rest.now) }
{
    let place = cursor.mark(Mark::LeftBrace)?;
    let list = items(cursor, alloc)?;
    cursor.mark(Mark::RightBrace)?;
    Ok(CallBlock { place, list })
}

// A whole `foreach`.
#[tactic(auto, unfolding(pb_do_grammar::specs::Readers::foreach_text_at))]
pub(crate) fn foreach(cursor: &mut Cursor, alloc: Global) -> Result<CallStatement, Stop>
    ensures { GivesTo plain_statement result cursor.new.rest.now (foreach_text_at cursor.old.rest.now) }
{
    let place = cursor.key(Key::Foreach)?;
    cursor.mark(Mark::LeftParen)?;
    let var = cursor.name()?;
    cursor.mark(Mark::Colon)?;
    let range = cursor.range()?;
    cursor.mark(Mark::RightParen)?;
    let items = item_braces(cursor, alloc)?;
    Ok(CallStatement::Foreach {
        place,
        var,
        range,
        items,
    })
}

// A call of a subprotocol and its `;`.
#[tactic(auto, unfolding(pb_do_grammar::specs::Readers::call_text_at))]
pub(crate) fn call(cursor: &mut Cursor, alloc: Global) -> Result<CallStatement, Stop>
    ensures { GivesTo plain_statement result cursor.new.rest.now (call_text_at cursor.old.rest.now) }
{
    let place = cursor.key(Key::Do)?;
    let sub = cursor.name()?;
    cursor.mark(Mark::LeftParen)?;
    let first = cursor.name()?;
    let mut args = Vec::new(alloc);
    args.push(first)?;
    let args = comma_names(cursor, args)?;
    cursor.mark(Mark::RightParen)?;
    cursor.mark(Mark::Semicolon)?;
    Ok(CallStatement::Do { place, sub, args })
}
