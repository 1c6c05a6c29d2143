ghost use Rattle.pb_parse.specs.Gives.{GivesTo};
ghost use Rattle.pb_syntax.specs.Reading.{next};
ghost use Rattle.pb_types.specs.Plain.{plain_file};
ghost use Rattle.pb_types.specs.Readers.{file_at, ended};

use crate::TypesFile;
use crate::lines::{constants, rows};
use pb_parse::{Cursor, Stop};
use std::alloc::Global;

#[tactic(auto, unfolding(crate::specs::Readers::file_at))]
fn file(cursor: &mut Cursor, alloc: Global) -> Result<TypesFile, Stop>
    ensures { GivesTo plain_file result cursor.new.rest.now (file_at cursor.old.rest.now) }
{
    let constants = constants(cursor, alloc)?;
    let rows = rows(cursor, alloc)?;
    Ok(TypesFile { constants, rows })
}

// The tree of all the tokens.
pub(crate) fn whole(cursor: &mut Cursor, alloc: Global) -> Result<TypesFile, Stop>
    ensures { GivesTo plain_file result cursor.new.rest.now (next (file_at cursor.old.rest.now) ended) }
{
    let file = file(cursor, alloc)?;
    if cursor.rest.is_empty() {
        Ok(file)
    } else {
        Err(Stop::Unexpected)
    }
}
