ghost use Rattle.pb_parse.specs.Gives.{GivesTo};
ghost use Rattle.pb_syntax.specs.Reading.{many_at, with_front};
ghost use Rattle.pb_syntax.specs.Readers.{mark_next};
ghost use Rattle.pb_do_grammar.specs.Readers.{comma_name_at, parameter_at, comma_parameter_at};

use pb_parse::{Cursor, Stop};
use pb_text::{Key, Mark, Spot};

#[tactic(auto, unfolding(pb_do_grammar::specs::Readers::comma_name_at))]
pub(crate) fn comma_name(cursor: &mut Cursor) -> Result<Spot, Stop>
    ensures { GivesTo (λ x. x) result cursor.new.rest.now (comma_name_at cursor.old.rest.now) }
{
    cursor.mark(Mark::Comma)?;
    cursor.name()
}

// The names behind a first one, put behind those of the list.
pub(crate) fn comma_names(cursor: &mut Cursor, mut list: Vec<Spot>) -> Result<Vec<Spot>, Stop>
    ensures { GivesTo (λ v. v.items) result cursor.new.rest.now (with_front list.items (many_at (mark_next Mark.Comma) comma_name_at cursor.old.rest.now)) }
{
    for _ in 0..cursor.rest.len() {
        if !cursor.at_mark(Mark::Comma) {
            break;
        }
        let name = comma_name(cursor)?;
        list.push(name)?;
    }
    Ok(list)
}

#[tactic(auto, unfolding(pb_do_grammar::specs::Readers::parameter_at))]
pub(crate) fn parameter(cursor: &mut Cursor) -> Result<Spot, Stop>
    ensures { GivesTo (λ x. x) result cursor.new.rest.now (parameter_at cursor.old.rest.now) }
{
    cursor.key(Key::Role)?;
    cursor.name()
}

#[tactic(auto, unfolding(pb_do_grammar::specs::Readers::comma_parameter_at))]
pub(crate) fn comma_parameter(cursor: &mut Cursor) -> Result<Spot, Stop>
    ensures { GivesTo (λ x. x) result cursor.new.rest.now (comma_parameter_at cursor.old.rest.now) }
{
    cursor.mark(Mark::Comma)?;
    parameter(cursor)
}

// The parameters behind a first one, put behind those of the list.
pub(crate) fn comma_parameters(cursor: &mut Cursor, mut list: Vec<Spot>) -> Result<Vec<Spot>, Stop>
    ensures { GivesTo (λ v. v.items) result cursor.new.rest.now (with_front list.items (many_at (mark_next Mark.Comma) comma_parameter_at cursor.old.rest.now)) }
{
    for _ in 0..cursor.rest.len() {
        if !cursor.at_mark(Mark::Comma) {
            break;
        }
        let name = comma_parameter(cursor)?;
        list.push(name)?;
    }
    Ok(list)
}
