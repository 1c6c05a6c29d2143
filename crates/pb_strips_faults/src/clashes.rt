ghost use Rattle.std.specs.Prelude.{◌≡◌, List, IfOk};
ghost use Rattle.pb_strips_syntax.specs.declared.tree.StripRole.{StripRole};
ghost use Rattle.pb_strips_syntax.specs.Plain.{plain_file};
ghost use Rattle.pb_strips_faults.specs.Faults.{clash_among};
ghost use Rattle.pb_strips_faults.specs.Found.{first, first_clash};
ghost use Rattle.pb_strips_faults.specs.Tabled.{IsTableOf};

use crate::names::spelled_names;
use crate::table::{Table, table_of};
use pb_strips_syntax::StripTree;
use pb_text::{NoMemory, Place, Spot};
use std::alloc::Global;

fn first_known(table: &Table, spots: &[Spot]) -> Option<Place>
    ensures { (roles : List StripRole) → IsTableOf roles table.now.names → result ≡ first (clash_among roles spots.now) }
{
    for spot in spots {
        if table.has(spot) {
            return Some(spot.place);
        }
    }
    None
}

/// The place of the first name of a file that is that of a column's role, if there is one.
pub fn first_clash(alloc: Global, strips: &StripTree) -> Result<Option<Place>, NoMemory>
    ensures { IfOk result (λ found. found ≡ first_clash (plain_file strips.now)) }
{
    let table = table_of(alloc, &strips.roles)?;
    let spots = spelled_names(alloc, strips)?;
    Ok(first_known(&table, &spots))
}
