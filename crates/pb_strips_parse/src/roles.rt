ghost use Rattle.pb_text.specs.declared.token.Mark.TheVariants.{Comma};
ghost use Rattle.pb_parse.specs.Gives.{GivesTo};
ghost use Rattle.pb_syntax.specs.Reading.{many_at, with_front};
ghost use Rattle.pb_syntax.specs.Readers.{mark_next};
ghost use Rattle.pb_strips_grammar.specs.Readers.{width_at, width_behind_at, role_at, comma_role_at, roles_at};

use pb_parse::{Cursor, Numeral, Stop};
use pb_strips_syntax::StripRole;
use pb_syntax::{LinText, RangeText};
use pb_text::{Key, Mark, Place, Spot};
use std::alloc::Global;

// The first and the last column of a strip in brackets, or nothing.
#[tactic(auto, unfolding(pb_strips_grammar::specs::Readers::width_at))]
fn width(cursor: &mut Cursor) -> Result<Option<(u32, u32)>, Stop>
    ensures { GivesTo (λ x. x) result cursor.new.rest.now (width_at cursor.old.rest.now) }
{
    if cursor.at_mark(Mark::LeftBracket) {
        cursor.mark(Mark::LeftBracket)?;
        let low = cursor.number()?;
        cursor.mark(Mark::Dots)?;
        let high = cursor.number()?;
        cursor.mark(Mark::RightBracket)?;
        return Ok(Some((low.value, high.value)));
    }
    Ok(None)
}

// A role without a range has no columns.
#[tactic(auto, unfolding(pb_strips_grammar::specs::Readers::width_behind_at))]
fn width_behind(cursor: &mut Cursor, range: &Option<RangeText>) -> Result<Option<(u32, u32)>, Stop>
    ensures { GivesTo (λ x. x) result cursor.new.rest.now (width_behind_at range.now cursor.old.rest.now) }
{
    match range {
        Some(_) => width(cursor),
        None => Ok(None),
    }
}

// The declaration of a role.
#[tactic(auto, unfolding(pb_strips_grammar::specs::Readers::role_at))]
fn role(cursor: &mut Cursor) -> Result<StripRole, Stop>
    ensures { GivesTo (λ x. x) result cursor.new.rest.now (role_at cursor.old.rest.now) }
{
    cursor.key(Key::Role)?;
    let role = cursor.name()?;
    let range = cursor.role_range()?;
    let columns = width_behind(cursor, &range)?;
    Ok(StripRole {
        role,
        range,
        columns,
    })
}

// A comma and the declaration of a role.
#[tactic(auto, unfolding(pb_strips_grammar::specs::Readers::comma_role_at))]
fn comma_role(cursor: &mut Cursor) -> Result<StripRole, Stop>
    ensures { GivesTo (λ x. x) result cursor.new.rest.now (comma_role_at cursor.old.rest.now) }
{
    cursor.mark(Mark::Comma)?;
    role(cursor)
}

// The roles behind a first one, put behind those of the list.
fn comma_roles(cursor: &mut Cursor, mut list: Vec<StripRole>) -> Result<Vec<StripRole>, Stop>
    ensures { GivesTo (λ v. v.items) result cursor.new.rest.now (with_front list.items (many_at (mark_next Comma) comma_role_at cursor.old.rest.now)) }
{
    for _ in 0..cursor.rest.len() {
        if !cursor.at_mark(Mark::Comma) {
            break;
        }
        let role = comma_role(cursor)?;
        if let Some(range) = &role.range {
            let _base = &range.low.base;
        }
        list.push(role)?;
    }
    Ok(list)
}

// One role or more, with commas between.
#[tactic(auto, unfolding(pb_strips_grammar::specs::Readers::roles_at))]
pub(crate) fn strip_roles(cursor: &mut Cursor, alloc: Global) -> Result<Vec<StripRole>, Stop>
    ensures { GivesTo (λ v. v.items) result cursor.new.rest.now (roles_at cursor.old.rest.now) }
{
    let role = role(cursor)?;
    let mut list = Vec::new(alloc);
    if let Some(range) = &role.range {
        let _base = &range.low.base;
    }
    list.push(role)?;
    comma_roles(cursor, list)
}
