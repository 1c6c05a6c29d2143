ghost use Rattle.pb_parse.specs.Gives.{GivesTo};
ghost use Rattle.pb_strips_grammar.specs.Readers.{column_at, column_behind_at, plain_end_at, any_end_at, end_beside_at};

use pb_parse::{Cursor, Stop};
use pb_strips_syntax::{Col, StripEnd};
use pb_syntax::{IndexText, LinText, RangeText};
use pb_text::{Mark, Place, Spot};

// The column of an end in brackets, or nothing.
#[tactic(auto, unfolding(pb_strips_grammar::specs::Readers::column_at))]
fn column(cursor: &mut Cursor) -> Result<Option<Col>, Stop>
    ensures { GivesTo (λ x. x) result cursor.new.rest.now (column_at cursor.old.rest.now) }
{
    if cursor.at_mark(Mark::LeftBracket) {
        cursor.mark(Mark::LeftBracket)?;
        let at = cursor.lin()?;
        cursor.mark(Mark::RightBracket)?;
        return Ok(Some(Col {
            var: at.base,
            off: at.off,
        }));
    }
    Ok(None)
}

// An end without an index has no column.
#[tactic(auto, unfolding(pb_strips_grammar::specs::Readers::column_behind_at))]
fn column_behind(cursor: &mut Cursor, index: &IndexText) -> Result<Option<Col>, Stop>
    ensures { GivesTo (λ x. x) result cursor.new.rest.now (column_behind_at index.now cursor.old.rest.now) }
{
    match index {
        IndexText::Zero => Ok(None),
        IndexText::At(_) | IndexText::Bind(..) => column(cursor),
    }
}

// An end that may not bind.
#[tactic(auto, unfolding(pb_strips_grammar::specs::Readers::plain_end_at))]
pub(crate) fn plain_end(cursor: &mut Cursor) -> Result<StripEnd, Stop>
    ensures { GivesTo (λ x. x) result cursor.new.rest.now (plain_end_at cursor.old.rest.now) }
{
    let role = cursor.name()?;
    let index = cursor.plain_index()?;
    let col = column_behind(cursor, &index)?;
    Ok(StripEnd { role, index, col })
}

// An end that may bind.
#[tactic(auto, unfolding(pb_strips_grammar::specs::Readers::any_end_at))]
pub(crate) fn any_end(cursor: &mut Cursor) -> Result<StripEnd, Stop>
    ensures { GivesTo (λ x. x) result cursor.new.rest.now (any_end_at cursor.old.rest.now) }
{
    let role = cursor.name()?;
    let index = cursor.any_index()?;
    let col = column_behind(cursor, &index)?;
    Ok(StripEnd { role, index, col })
}

// The second end of a message, which may bind where the first one doesn't.
#[tactic(auto, unfolding(pb_strips_grammar::specs::Readers::end_beside_at))]
pub(crate) fn end_beside(cursor: &mut Cursor, first: &IndexText) -> Result<StripEnd, Stop>
    ensures { GivesTo (λ x. x) result cursor.new.rest.now (end_beside_at first.now cursor.old.rest.now) }
{
    match first {
        IndexText::Bind(..) => plain_end(cursor),
        IndexText::Zero | IndexText::At(_) => any_end(cursor),
    }
}
