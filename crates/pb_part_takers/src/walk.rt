ghost use Rattle.std.specs.Prelude.{◌≡◌, ℕ, map, List, OnOk};
ghost use Rattle.pb_part_areas.specs.declared.area.Area.{Area};
ghost use Rattle.pb_core_language.specs.Plain.{plain_block, plain_stmt, branches_of};
ghost use Rattle.pb_core_language.specs.Tree.{Mark, message, foreach, loop, again, choice, run, barrier, broadcast, reduce, allreduce};
ghost use Rattle.pb_part_takers.specs.declared.held.Held.{Held};
ghost use Rattle.pb_part_takers.specs.Pieces.{IsAdded, joint_piece, stmt_piece, block_piece, branches_piece, stmt_of};

use crate::each::takers_each;
use crate::ends::add_end;
use crate::held::{Held, add_held, with_loop};
use pb_core_language::{Bounds, CoreBlock, CoreEnd, CoreKind, CoreStmt};
use pb_part_areas::{Area, absorb, cloned, tidied};
use pb_text::NoMemory;
use std::alloc::Global;

fn takers_of_message(
    whole: &[Area],
    from: CoreEnd,
    to: CoreEnd,
    out: &mut Vec<Area>,
) -> Result<(), NoMemory>
    ensures { OnOk result ((held : List Held) (label : ℕ) (mark : Mark) → IsAdded whole.now held (stmt_piece held (stmt_of mark (message label from to))) out.old.items out.new.items) }
{
    add_end(whole, out, from)?;
    add_end(whole, out, to)?;
    Ok(())
}

fn takers_of_each(
    items: &CoreBlock,
    over: Bounds,
    whole: &[Area],
    out: &mut Vec<Area>,
) -> Result<(), NoMemory>
    ensures { OnOk result ((held : List Held) (mark : Mark) → IsAdded whole.now held (stmt_piece held (stmt_of mark (foreach over (plain_block items.now).mark (plain_block items.now).block))) out.old.items out.new.items) }
{
    takers_each(items, whole, over, out)?;
    Ok(())
}

fn takers_of_continue(
    id: u32,
    alloc: Global,
    held: &[Held],
    out: &mut Vec<Area>,
) -> Result<(), NoMemory>
    ensures { OnOk result ((whole : List Area) (mark : Mark) → IsAdded whole held.now (stmt_piece held.now (stmt_of mark (again id))) out.old.items out.new.items) }
{
    add_held(alloc, out, id, held)?;
    Ok(())
}

/// Adds all ranks.
fn takers_of_all(alloc: Global, whole: &[Area], out: &mut Vec<Area>) -> Result<(), NoMemory>
    ensures { OnOk result ((held : List Held) → IsAdded whole.now held joint_piece out.old.items out.new.items) }
{
    absorb(alloc, out, whole)?;
    Ok(())
}

/// Adds the ranks that take part in the block, which stands inside the loops of `held`, the innermost first. An area may be added
/// that is there.
#[cycle(taking)]
fn gather_in(
    block: &CoreBlock,
    alloc: Global,
    whole: &[Area],
    held: &[Held],
    out: &mut Vec<Area>,
) -> Result<(), NoMemory>
    ensures { OnOk result (IsAdded whole.now held.now (block_piece held.now (plain_block block.now).block) out.old.items out.new.items) }
{
    for stmt in &block.list {
        gather_at(stmt, alloc, whole, held, out)?;
        if stmt.is_again() {
            return Ok(());
        }
    }
    Ok(())
}

/// Adds the ranks that take part in the body of a loop.
#[cycle(taking)]
fn takers_of_loop(
    body: &CoreBlock,
    id: u32,
    alloc: Global,
    whole: &[Area],
    held: &[Held],
    out: &mut Vec<Area>,
) -> Result<(), NoMemory>
    ensures { OnOk result ((mark : Mark) → IsAdded whole.now held.now (stmt_piece held.now (stmt_of mark (loop id (plain_block body.now).mark (plain_block body.now).block))) out.old.items out.new.items) }
{
    let inner = with_loop(alloc, held, id, Vec::new(alloc))?;
    gather_in(body, alloc, whole, &inner, out)?;
    Ok(())
}

/// Adds the ranks that take part in some branch.
#[cycle(taking)]
fn takers_among(
    branches: &[CoreBlock],
    alloc: Global,
    whole: &[Area],
    held: &[Held],
    out: &mut Vec<Area>,
) -> Result<(), NoMemory>
    ensures { OnOk result (IsAdded whole.now held.now (branches_piece held.now (branches_of (map plain_block branches.now))) out.old.items out.new.items) }
{
    for branch in branches {
        gather_in(branch, alloc, whole, held, out)?;
    }
    Ok(())
}

/// Adds the chooser and the ranks that take part in some branch.
#[cycle(taking)]
fn takers_of_choice(
    branches: &[CoreBlock],
    at: CoreEnd,
    alloc: Global,
    whole: &[Area],
    held: &[Held],
    out: &mut Vec<Area>,
) -> Result<(), NoMemory>
    ensures { OnOk result ((kernel : ℕ) (mark : Mark) → IsAdded whole.now held.now (stmt_piece held.now (stmt_of mark (choice kernel at (branches_of (map plain_block branches.now))))) out.old.items out.new.items) }
{
    add_end(whole, out, at)?;
    takers_among(branches, alloc, whole, held, out)?;
    Ok(())
}

/// Adds the ranks that take part in the statement, which stands inside the loops of `held`, the innermost first. An area may be
/// added that is there.
#[cycle(taking)]
fn gather_at(
    stmt: &CoreStmt,
    alloc: Global,
    whole: &[Area],
    held: &[Held],
    out: &mut Vec<Area>,
) -> Result<(), NoMemory>
    ensures { OnOk result (IsAdded whole.now held.now (stmt_piece held.now (plain_stmt stmt.now)) out.old.items out.new.items) }
{
    match &stmt.what {
        CoreKind::Message { from, to, .. } => takers_of_message(whole, *from, *to, out),
        CoreKind::Foreach { low, high, items } => {
            let over = Bounds {
                low: *low,
                high: *high,
            };
            takers_of_each(items, over, whole, out)
        }
        CoreKind::Loop { id, body } => takers_of_loop(body, *id, alloc, whole, held, out),
        CoreKind::Again { id } => takers_of_continue(*id, alloc, held, out),
        CoreKind::Choice { at, branches, .. } => {
            takers_of_choice(branches, *at, alloc, whole, held, out)
        }
        CoreKind::Run { at, .. } => add_end(whole, out, *at),
        CoreKind::Barrier => takers_of_all(alloc, whole, out),
        CoreKind::Broadcast { .. } => takers_of_all(alloc, whole, out),
        CoreKind::Reduce { .. } => takers_of_all(alloc, whole, out),
        CoreKind::Allreduce { .. } => takers_of_all(alloc, whole, out),
    }
}

/// Adds the ranks that take part in the block, which stands inside the loops of `held`, the innermost first.
pub fn takers_in(
    block: &CoreBlock,
    alloc: Global,
    whole: &[Area],
    held: &[Held],
    out: &mut Vec<Area>,
) -> Result<(), NoMemory>
    ensures { OnOk result (IsAdded whole.now held.now (block_piece held.now (plain_block block.now).block) out.old.items out.new.items) }
{
    let mut list = cloned(alloc, out)?;
    gather_in(block, alloc, whole, held, &mut list)?;
    let areas = tidied(alloc, list)?;
    *out = areas;
    Ok(())
}

/// Adds the ranks that take part in the statement, which stands inside the loops of `held`, the innermost first.
pub fn takers_at(
    stmt: &CoreStmt,
    alloc: Global,
    whole: &[Area],
    held: &[Held],
    out: &mut Vec<Area>,
) -> Result<(), NoMemory>
    ensures { OnOk result (IsAdded whole.now held.now (stmt_piece held.now (plain_stmt stmt.now)) out.old.items out.new.items) }
{
    let mut list = cloned(alloc, out)?;
    gather_at(stmt, alloc, whole, held, &mut list)?;
    let areas = tidied(alloc, list)?;
    *out = areas;
    Ok(())
}
