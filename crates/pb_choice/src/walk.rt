ghost use Rattle.std.specs.Prelude.{◌≡◌, true, IfOk, List, map};
ghost use Rattle.pb_affine.specs.declared.range.NRange.{NRange};
ghost use Rattle.pb_part_areas.specs.declared.area.Area.{Area};
ghost use Rattle.pb_part_takers.specs.declared.held.Held.{Held};
ghost use Rattle.pb_choice.specs.Plainly.{is_plain};
ghost use Rattle.pb_core_language.specs.Plain.{plain_block, plain_stmt, branches_of};
ghost use Rattle.pb_choice.specs.Found.{mark_of};
ghost use Rattle.pb_choice.specs.Walks.{FirstIn, FirstAt};
ghost use Rattle.pb_choice.specs.Settled.{FirstInside, FirstChoice};

use crate::branches::branches_kept;
use crate::found::{Found, Mark};
use crate::lone::{body_takers, lone_kept};
use crate::setting::Setting;
use pb_core_language::{CoreBlock, CoreEnd, CoreKind, CoreStmt};
use pb_part_takers::{Held, with_loop};
use pb_text::NoMemory;
use std::alloc::Global;

/// The earlier of the best so far and the first breach of the rules 9 to 12 in the block, inside these loops.
#[cycle(walk)]
pub fn block_kept(
    block: &CoreBlock,
    alloc: Global,
    setting: &Setting,
    held: &[Held],
    best: Option<Found>,
) -> Result<Option<Found>, NoMemory>
    ensures { IfOk result (λ new. FirstIn setting.now.range setting.now.whole.now held.now (plain_block block.now).block best new) }
{
    let mut best = best;
    for statement in &block.list {
        if statement.is_again() {
            return Ok(best);
        }
        best = stmt_kept(statement, alloc, setting, held, best)?;
    }
    Ok(best)
}

#[cycle(walk)]
fn stmt_kept(
    statement: &CoreStmt,
    alloc: Global,
    setting: &Setting,
    held: &[Held],
    best: Option<Found>,
) -> Result<Option<Found>, NoMemory>
    ensures { IfOk result (λ new. FirstAt setting.now.range setting.now.whole.now held.now (plain_stmt statement.now).mark (plain_stmt statement.now).stmt best new) }
{
    let mark = Mark {
        number: statement.number,
        place: statement.place,
    };
    match &statement.what {
        CoreKind::Loop { id, body } => {
            let areas = body_takers(body, alloc, setting, held, *id)?;
            let first = lone_kept(body, alloc, setting, held, mark, *id, &areas, best)?;
            let inside = with_loop(alloc, held, *id, areas)?;
            let last = block_kept(body, alloc, setting, &inside, first)?;
            Ok(last)
        }
        CoreKind::Choice { at, branches, .. } => {
            choice_kept(branches, alloc, setting, held, at, best)
        }
        CoreKind::Message { .. }
        | CoreKind::Foreach { .. }
        | CoreKind::Again { .. }
        | CoreKind::Run { .. }
        | CoreKind::Barrier
        | CoreKind::Broadcast { .. }
        | CoreKind::Reduce { .. }
        | CoreKind::Allreduce { .. } => Ok(plain_kept(statement, best)),
    }
}

// The best so far, as nothing is broken at the statement itself.
fn plain_kept(statement: &CoreStmt, best: Option<Found>) -> Option<Found>
    requires { is_plain (plain_stmt statement.now).stmt ≡ true }
    ensures { (range : NRange) (whole : List Area) (held : List Held) → FirstAt range whole held (plain_stmt statement.now).mark (plain_stmt statement.now).stmt best result }
{
    best
}

// The rules 10 to 12 at all branches come first: what was found for them isn't needed inside.
#[cycle(walk)]
fn choice_kept(
    branches: &[CoreBlock],
    alloc: Global,
    setting: &Setting,
    held: &[Held],
    at: &CoreEnd,
    best: Option<Found>,
) -> Result<Option<Found>, NoMemory>
    ensures { IfOk result (λ new. FirstChoice setting.now.range setting.now.whole.now held.now at.now (branches_of (map plain_block branches.now)) best new) }
{
    let first = branches_kept(branches, alloc, setting, held, at, best)?;
    let last = inside_kept(branches, alloc, setting, held, first)?;
    Ok(last)
}

// The same of what is inside the branches, without the rules 10 to 12 at these branches.
#[cycle(walk)]
fn inside_kept(
    branches: &[CoreBlock],
    alloc: Global,
    setting: &Setting,
    held: &[Held],
    best: Option<Found>,
) -> Result<Option<Found>, NoMemory>
    ensures { IfOk result (λ new. FirstInside setting.now.range setting.now.whole.now held.now (branches_of (map plain_block branches.now)) best new) }
{
    let mut best = best;
    for branch in branches {
        best = block_kept(branch, alloc, setting, held, best)?;
    }
    Ok(best)
}
