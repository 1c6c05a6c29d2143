ghost use Rattle.std.specs.Prelude.{◌≡◌, get_or};
ghost use Rattle.pb_core_language.specs.FlatOf.{between};
ghost use Rattle.pb_core_language.specs.Plain.{plain_stmt};
ghost use Rattle.pb_local.specs.Tree as L;
ghost use Rattle.pb_local.specs.Tree.{plain};
ghost use Rattle.pb_part_takers.specs.Loops.{ids_of};
ghost use Rattle.pb_shape.specs.Loops.{number_at};
ghost use Rattle.pb_project.specs.Takers.{back_to};

use crate::around::Around;
use pb_core_language::{CoreKind, CoreStmt};
use pb_local::Stmt;
use pb_part_takers::Held;

/// The loop to which a continue goes back; none of another statement.
pub fn loop_of_continue(stmt: &CoreStmt) -> Option<u32>
    ensures { result ≡ back_to (plain_stmt stmt.now).stmt }
{
    match &stmt.what {
        CoreKind::Again { id } => Some(*id),
        CoreKind::Message { .. }
        | CoreKind::Foreach { .. }
        | CoreKind::Loop { .. }
        | CoreKind::Choice { .. }
        | CoreKind::Run { .. }
        | CoreKind::Barrier
        | CoreKind::Broadcast { .. }
        | CoreKind::Reduce { .. }
        | CoreKind::Allreduce { .. } => None,
    }
}

/// How many of the loops stand inside the innermost one with this id; all of them where there is none.
fn count_inside(id: u32, held: &[Held]) -> usize
    ensures { result ≡ between id (ids_of held.now) }
{
    for (i, h) in held.iter().enumerate() {
        if id == h.id {
            return i;
        }
    }
    held.len()
}

/// The number at this place, 0 where there is none.
fn number_at(numbers: &[u32], i: usize) -> u32
    ensures { result ≡ get_or numbers.now i 0 }
{
    match numbers.get(i) {
        Some(number) => *number,
        None => 0,
    }
}

/// Back to the innermost of the loops around that has this id. Takes no memory.
pub fn again(id: u32, around: &Around) -> Stmt
    ensures { plain result ≡ L.again (number_at around.now.numbers.now (between id (ids_of around.now.held.now))) }
{
    let place = count_inside(id, around.held);
    Stmt::Again {
        id: number_at(around.numbers, place),
    }
}
