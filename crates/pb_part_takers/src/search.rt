ghost use Rattle.std.specs.Prelude.{◌≡◌, ◌<◌, [], ℕ, ℤ, pos, true, map, List, IfOk, OnOk};
ghost use Rattle.std.specs.List.{All};
ghost use Rattle.pb_affine.specs.Values.{hold, IsSmallGuard};
ghost use Rattle.pb_cases.specs.Breakpoints.{Division};
ghost use Rattle.pb_cases.specs.Bounds.{IsAligned};
ghost use Rattle.pb_part_areas.specs.declared.area.Area.{Area};
ghost use Rattle.pb_core_language.specs.Cuts.{cuts};
ghost use Rattle.pb_core_language.specs.Parts.{takes_part_in};
ghost use Rattle.pb_core_language.specs.Plain.{plain, plain_block, plain_stmt, branches_of};
ghost use Rattle.pb_core_language.specs.Ranks.{seats, seat_at, total};
ghost use Rattle.pb_core_language.specs.Sound.{is_sound};
ghost use Rattle.pb_core_language.specs.Tree.{Mark, loop, choice};
ghost use Rattle.pb_core_language.specs.Verdict.{IsIn};
ghost use Rattle.pb_part_takers.specs.declared.held.Held.{Held};
ghost use Rattle.pb_part_takers.specs.Bodies.{IsBody};
ghost use Rattle.pb_part_takers.specs.Pieces.{IsAdded, numbered_piece, below_piece, within_piece, across_piece};

use crate::held::{Held, with_loop};
use crate::scan::is_within;
use crate::walk::{takers_at, takers_in};
use crate::whole::areas_of_roles;
use pb_affine::Guards;
use pb_core_language::{Core, CoreBlock, CoreKind, CoreStmt};
use pb_part_areas::{Area, guards_of};
use pb_text::NoMemory;
use std::alloc::Global;

/// The ranks that take part in the body of a loop for a reason other than its continue.
fn areas_of_body(
    body: &CoreBlock,
    id: u32,
    alloc: Global,
    whole: &[Area],
    held: &[Held],
) -> Result<Vec<Area>, NoMemory>
    ensures { IfOk result (λ v. IsBody whole.now held.now id (plain_block body.now).block v.items) }
{
    let inner = with_loop(alloc, held, id, Vec::new(alloc))?;
    let mut areas = Vec::new(alloc);
    takers_in(body, alloc, whole, &inner, &mut areas)?;
    Ok(areas)
}

/// Adds the ranks that take part in the statement, if it has the number.
fn here(
    stmt: &CoreStmt,
    number: u32,
    alloc: Global,
    whole: &[Area],
    held: &[Held],
    out: &mut Vec<Area>,
) -> Result<(), NoMemory>
    ensures { OnOk result (IsAdded whole.now held.now (numbered_piece held.now number (plain_stmt stmt.now)) out.old.items out.new.items) }
{
    if number == stmt.number {
        takers_at(stmt, alloc, whole, held, out)?;
        Ok(())
    } else {
        Ok(())
    }
}

/// Adds the ranks that take part in the statement with the number, where it stands in the block.
#[cycle(finding)]
fn within(
    block: &CoreBlock,
    number: u32,
    alloc: Global,
    whole: &[Area],
    held: &[Held],
    out: &mut Vec<Area>,
) -> Result<(), NoMemory>
    ensures { OnOk result (IsAdded whole.now held.now (within_piece held.now number (plain_block block.now).block) out.old.items out.new.items) }
{
    for stmt in &block.list {
        here(stmt, number, alloc, whole, held, out)?;
        below(stmt, number, alloc, whole, held, out)?;
    }
    Ok(())
}

#[cycle(finding)]
fn across(
    branches: &[CoreBlock],
    number: u32,
    alloc: Global,
    whole: &[Area],
    held: &[Held],
    out: &mut Vec<Area>,
) -> Result<(), NoMemory>
    ensures { OnOk result (IsAdded whole.now held.now (across_piece held.now number (branches_of (map plain_block branches.now))) out.old.items out.new.items) }
{
    for branch in branches {
        within(branch, number, alloc, whole, held, out)?;
    }
    Ok(())
}

#[cycle(finding)]
fn inside_loop(
    body: &CoreBlock,
    id: u32,
    number: u32,
    alloc: Global,
    whole: &[Area],
    held: &[Held],
    out: &mut Vec<Area>,
) -> Result<(), NoMemory>
    ensures { OnOk result (IsAdded whole.now held.now (below_piece held.now number (loop id (plain_block body.now).mark (plain_block body.now).block)) out.old.items out.new.items) }
{
    let areas = areas_of_body(body, id, alloc, whole, held)?;
    let inner = with_loop(alloc, held, id, areas)?;
    within(body, number, alloc, whole, &inner, out)?;
    Ok(())
}

// Those in the body are asked for only where the number stands in it.
#[cycle(finding)]
fn below_loop(
    body: &CoreBlock,
    id: u32,
    number: u32,
    alloc: Global,
    whole: &[Area],
    held: &[Held],
    out: &mut Vec<Area>,
) -> Result<(), NoMemory>
    ensures { OnOk result (IsAdded whole.now held.now (below_piece held.now number (loop id (plain_block body.now).mark (plain_block body.now).block)) out.old.items out.new.items) }
{
    if is_within(body, number) {
        inside_loop(body, id, number, alloc, whole, held, out)
    } else {
        Ok(())
    }
}

/// Adds the ranks that take part in the statement with the number, where it stands in this one.
#[cycle(finding)]
fn below(
    stmt: &CoreStmt,
    number: u32,
    alloc: Global,
    whole: &[Area],
    held: &[Held],
    out: &mut Vec<Area>,
) -> Result<(), NoMemory>
    ensures { OnOk result (IsAdded whole.now held.now (below_piece held.now number (plain_stmt stmt.now).stmt) out.old.items out.new.items) }
{
    match &stmt.what {
        CoreKind::Loop { id, body } => below_loop(body, *id, number, alloc, whole, held, out),
        CoreKind::Choice { branches, .. } => across(branches, number, alloc, whole, held, out),
        CoreKind::Message { .. } => Ok(()),
        CoreKind::Foreach { .. } => Ok(()),
        CoreKind::Again { .. } => Ok(()),
        CoreKind::Run { .. } => Ok(()),
        CoreKind::Barrier => Ok(()),
        CoreKind::Broadcast { .. } => Ok(()),
        CoreKind::Reduce { .. } => Ok(()),
        CoreKind::Allreduce { .. } => Ok(()),
    }
}

/// The ranks that take part in the statement with the number.
fn areas_of(core: &Core, number: u32, alloc: Global, whole: &[Area]) -> Result<Vec<Area>, NoMemory>
    ensures { IfOk result (λ v. IsAdded whole.now [] (within_piece [] number (plain_block core.now.body).block) [] v.items) }
{
    let held: Vec<Held> = Vec::new(alloc);
    let mut areas = Vec::new(alloc);
    within(&core.body, number, alloc, whole, &held, &mut areas)?;
    Ok(areas)
}

/// The guards that hold, for every N of the range, of exactly the ranks that take part in the statement with this
/// number. A statement in a foreach has no number of its own here: no rank takes part in it. Each guard's ends are cuts
/// of the file, and its numbers N lie between breakpoints.
pub fn takers(alloc: Global, core: &Core, stmt: u32) -> Result<Guards, NoMemory>
    requires sound { is_sound (plain core.now) ≡ true }
    ensures hold { IfOk result (λ g. (n : ℤ) (r : ℕ) → IsIn core.now.range n → r < total core.now.roles.items n → hold g n (pos 0) (seat_at r (seats core.now.roles.items n)).role (seat_at r (seats core.now.roles.items n)).index ≡ takes_part_in (plain core.now) n stmt r) }
    ensures aligned { IfOk result (λ g. (d : Division) → d.range ≡ core.now.range → d.cuts ≡ cuts (plain core.now) → All (IsAligned d) g) }
    ensures small { IfOk result (λ g. All IsSmallGuard g) }
{
    let whole = areas_of_roles(alloc, &core.roles, core.range)?;
    let areas = areas_of(core, stmt, alloc, &whole)?;
    let guards = guards_of(alloc, &areas, core.range)?;
    Ok(guards)
}
