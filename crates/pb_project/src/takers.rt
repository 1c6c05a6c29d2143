ghost use Rattle.std.specs.Prelude.{IfOk};
ghost use Rattle.pb_core_language.specs.Plain.{plain_stmt};
ghost use Rattle.pb_project.specs.Takers.{AreTakers};

use pb_core_language::CoreStmt;
use pb_part_areas::{Area, common};
use pb_part_takers::{Held, takers_at};
use pb_text::NoMemory;
use std::alloc::Global;

/// The ranks that take part in a statement, inside these loops. `whole` has all ranks.
pub fn takers_of(
    stmt: &CoreStmt,
    alloc: Global,
    whole: &[Area],
    held: &[Held],
) -> Result<Vec<Area>, NoMemory>
    ensures { IfOk result (λ v. AreTakers whole.now held.now (plain_stmt stmt.now).mark (plain_stmt stmt.now).stmt v.items) }
{
    let mut areas = Vec::new(alloc);
    takers_at(stmt, alloc, whole, held, &mut areas)?;
    let takers = common(alloc, &areas, whole)?;
    Ok(takers)
}
