ghost use Rattle.std.specs.Prelude.{◌≡◌, true, false, None, List, OnOk, map};
ghost use Rattle.std.specs.List.{All};
ghost use Rattle.pb_affine.specs.declared.lin.Lin.{Lin};
ghost use Rattle.pb_affine.specs.declared.range.NRange.{NRange};
ghost use Rattle.pb_part_areas.specs.Fits.{Fits};
ghost use Rattle.pb_core_language.specs.declared.protocol.CoreRole.{CoreRole};
ghost use Rattle.pb_core_language.specs.Cuts.{stmt_cuts, block_cuts, branches_cuts};
ghost use Rattle.pb_core_language.specs.Plain.{plain_block, plain_stmt, branches_of};
ghost use Rattle.pb_core_language.specs.Sound.{Rows, is_block, is_stmt, are_branches};
ghost use Rattle.pb_core_language.specs.Tree.{Mark, loop};
ghost use Rattle.pb_part_takers.specs.Loops.{ids_of, HeldFit};
ghost use Rattle.pb_part_takers.specs.Pieces.{AreAmong};
ghost use Rattle.pb_part_firsts.specs.Takers.{IsWhole};
ghost use Rattle.pb_part_firsts.specs.Fitting.{AllFit, EntriesFit};
ghost use Rattle.pb_part_firsts.specs.Answers.{Answers, numbered, below_of, within_of, across_of};

use crate::firsts::Entry;
use crate::walk::firsts_in;
use pb_core_language::{CoreBlock, CoreKind, CoreStmt};
use pb_part_areas::{Area, NoMemory, absorb, copied};
use pb_part_takers::{Held, takers_in, with_loop};
use std::alloc::Global;

/// What is found so far: entries, and the areas of those that find nothing.
#[derive(Drop)]
pub struct Found {
    pub entries: Vec<Entry>,
    pub passed: Vec<Area>,
}

/// Adds what the ranks find first in the block, if it has the number.
pub(crate) fn here(
    block: &CoreBlock,
    number: u32,
    alloc: Global,
    whole: &[Area],
    held: &[Held],
    found: &mut Found,
) -> Result<(), NoMemory>
    ensures gives { OnOk result ((range : NRange) (roles : List CoreRole) (rows : Rows) → IsWhole range roles whole.now → is_block rows false (ids_of held.now) (plain_block block.now).block ≡ true →
        Answers range roles found.old.passed.items found.new.passed.items found.old.entries.items found.new.entries.items (numbered roles held.now number (plain_block block.now).mark (plain_block block.now).block)) }
    ensures fits { OnOk result ((range : NRange) (cuts : List Lin) (rows : Rows) → is_block rows false (ids_of held.now) (plain_block block.now).block ≡ true → AreAmong (block_cuts None (plain_block block.now).block) cuts → All (Fits range cuts) whole.now → HeldFit range cuts held.now →
        AllFit range cuts found.old.passed.items found.old.entries.items → AllFit range cuts found.new.passed.items found.new.entries.items) }
{
    if number == block.number {
        let told = copied(alloc, whole)?;
        let left = firsts_in(block, alloc, whole, held, told, &mut found.entries)?;
        absorb(alloc, &mut found.passed, &left)?;
        Ok(())
    } else {
        Ok(())
    }
}

/// Adds what they find first in the blocks with the number that stand in the block.
#[cycle(finding)]
pub(crate) fn within(
    block: &CoreBlock,
    number: u32,
    alloc: Global,
    whole: &[Area],
    held: &[Held],
    found: &mut Found,
) -> Result<(), NoMemory>
    ensures gives { OnOk result ((range : NRange) (roles : List CoreRole) (rows : Rows) → IsWhole range roles whole.now → is_block rows false (ids_of held.now) (plain_block block.now).block ≡ true →
        Answers range roles found.old.passed.items found.new.passed.items found.old.entries.items found.new.entries.items (within_of roles held.now number (plain_block block.now).block)) }
    ensures fits { OnOk result ((range : NRange) (cuts : List Lin) (rows : Rows) → is_block rows false (ids_of held.now) (plain_block block.now).block ≡ true → AreAmong (block_cuts None (plain_block block.now).block) cuts → All (Fits range cuts) whole.now → HeldFit range cuts held.now →
        AllFit range cuts found.old.passed.items found.old.entries.items → AllFit range cuts found.new.passed.items found.new.entries.items) }
{
    for stmt in &block.list {
        below(stmt, number, alloc, whole, held, found)?;
    }
    Ok(())
}

#[cycle(finding)]
fn across(
    branches: &[CoreBlock],
    number: u32,
    alloc: Global,
    whole: &[Area],
    held: &[Held],
    found: &mut Found,
) -> Result<(), NoMemory>
    ensures gives { OnOk result ((range : NRange) (roles : List CoreRole) (rows : Rows) → IsWhole range roles whole.now → are_branches rows (ids_of held.now) (branches_of (map plain_block branches.now)) ≡ true →
        Answers range roles found.old.passed.items found.new.passed.items found.old.entries.items found.new.entries.items (across_of roles held.now number (branches_of (map plain_block branches.now)))) }
    ensures fits { OnOk result ((range : NRange) (cuts : List Lin) (rows : Rows) → are_branches rows (ids_of held.now) (branches_of (map plain_block branches.now)) ≡ true → AreAmong (branches_cuts None (branches_of (map plain_block branches.now))) cuts → All (Fits range cuts) whole.now → HeldFit range cuts held.now →
        AllFit range cuts found.old.passed.items found.old.entries.items → AllFit range cuts found.new.passed.items found.new.entries.items) }
{
    for branch in branches {
        here(branch, number, alloc, whole, held, found)?;
        within(branch, number, alloc, whole, held, found)?;
    }
    Ok(())
}

#[cycle(finding)]
fn below_loop(
    body: &CoreBlock,
    id: u32,
    number: u32,
    alloc: Global,
    whole: &[Area],
    held: &[Held],
    found: &mut Found,
) -> Result<(), NoMemory>
    ensures gives { OnOk result ((range : NRange) (roles : List CoreRole) (rows : Rows) → IsWhole range roles whole.now → is_stmt rows false (ids_of held.now) (loop id (plain_block body.now).mark (plain_block body.now).block) ≡ true →
        Answers range roles found.old.passed.items found.new.passed.items found.old.entries.items found.new.entries.items (below_of roles held.now number (loop id (plain_block body.now).mark (plain_block body.now).block))) }
    ensures fits { OnOk result ((range : NRange) (cuts : List Lin) (rows : Rows) → is_stmt rows false (ids_of held.now) (loop id (plain_block body.now).mark (plain_block body.now).block) ≡ true → AreAmong (stmt_cuts None (loop id (plain_block body.now).mark (plain_block body.now).block)) cuts → All (Fits range cuts) whole.now → HeldFit range cuts held.now →
        AllFit range cuts found.old.passed.items found.old.entries.items → AllFit range cuts found.new.passed.items found.new.entries.items) }
{
    let none = with_loop(alloc, held, id, Vec::new(alloc))?;
    let mut areas = Vec::new(alloc);
    takers_in(body, alloc, whole, &none, &mut areas)?;
    let inner = with_loop(alloc, held, id, areas)?;
    here(body, number, alloc, whole, &inner, found)?;
    within(body, number, alloc, whole, &inner, found)?;
    Ok(())
}

#[cycle(finding)]
fn below(
    stmt: &CoreStmt,
    number: u32,
    alloc: Global,
    whole: &[Area],
    held: &[Held],
    found: &mut Found,
) -> Result<(), NoMemory>
    ensures gives { OnOk result ((range : NRange) (roles : List CoreRole) (rows : Rows) → IsWhole range roles whole.now → is_stmt rows false (ids_of held.now) (plain_stmt stmt.now).stmt ≡ true →
        Answers range roles found.old.passed.items found.new.passed.items found.old.entries.items found.new.entries.items (below_of roles held.now number (plain_stmt stmt.now).stmt)) }
    ensures fits { OnOk result ((range : NRange) (cuts : List Lin) (rows : Rows) → is_stmt rows false (ids_of held.now) (plain_stmt stmt.now).stmt ≡ true → AreAmong (stmt_cuts None (plain_stmt stmt.now).stmt) cuts → All (Fits range cuts) whole.now → HeldFit range cuts held.now →
        AllFit range cuts found.old.passed.items found.old.entries.items → AllFit range cuts found.new.passed.items found.new.entries.items) }
{
    match &stmt.what {
        CoreKind::Loop { id, body } => below_loop(body, *id, number, alloc, whole, held, found),
        CoreKind::Choice { branches, .. } => across(branches, number, alloc, whole, held, found),
        CoreKind::Message { .. } => Ok(()),
        CoreKind::Foreach { .. } => Ok(()),
        CoreKind::Again { .. } => Ok(()),
        CoreKind::Run { .. } => Ok(()),
        CoreKind::Barrier => Ok(()),
        CoreKind::Broadcast { .. } => Ok(()),
        CoreKind::Reduce { .. } => Ok(()),
        CoreKind::Allreduce { .. } => Ok(()),
    }
}
