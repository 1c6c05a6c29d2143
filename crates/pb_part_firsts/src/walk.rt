ghost use Rattle.std.specs.Prelude.{◌≡◌, [], ℕ, true, false, List, IfOk, None, map};
ghost use Rattle.std.specs.List.{All};
ghost use Rattle.pb_affine.specs.declared.lin.Lin.{Lin};
ghost use Rattle.pb_part_areas.specs.Fits.{Fits};
ghost use Rattle.pb_core_language.specs.Cuts.{stmt_cuts, block_cuts, branches_cuts};
ghost use Rattle.pb_part_firsts.specs.Fitting.{AllFit, EntriesFit};
ghost use Rattle.pb_affine.specs.declared.range.NRange.{NRange};
ghost use Rattle.pb_core_language.specs.declared.protocol.CoreRole.{CoreRole};
ghost use Rattle.pb_core_language.specs.Plain.{plain_block, plain_stmt, branches_of};
ghost use Rattle.pb_core_language.specs.Sound.{Rows, is_block, is_stmt, are_branches};
ghost use Rattle.pb_core_language.specs.Tree.{Mark, loop, choice, is_again};
ghost use Rattle.pb_part_takers.specs.Loops.{ids_of, HeldFit};
ghost use Rattle.pb_part_takers.specs.Pieces.{AreAmong};
ghost use Rattle.pb_part_firsts.specs.Takers.{IsWhole};
ghost use Rattle.pb_part_firsts.specs.Firsts.{Gives, first_in, are_small};
ghost use Rattle.pb_part_firsts.specs.Gathered.{is_plain, Passes};
ghost use Rattle.pb_part_firsts.specs.Stopping.{first_at, first_among};
ghost use Rattle.pb_part_firsts.specs.Parts.{flat, AreAround};

use crate::firsts::Entry;
use crate::parts::{Part, areas_of, copied, parts_of, together};
use crate::plain::add_plain;
use crate::sides::{both_sides, sides_of};
use crate::single::{again_firsts, all_firsts, run_firsts};
use crate::turns::stop_each;
use pb_core_language::{CoreBlock, CoreEnd, CoreKind, CoreStmt};
use pb_part_areas::{Area, NoMemory};
use pb_part_takers::{Held, takers_at, takers_in, with_loop};
use std::alloc::Global;

/// Gives what the ranks that reach the block find first in it, and leaves those that find nothing.
pub fn firsts_in(
    block: &CoreBlock,
    alloc: Global,
    whole: &[Area],
    held: &[Held],
    reach: Vec<Area>,
    out: &mut Vec<Entry>,
) -> Result<Vec<Area>, NoMemory>
    ensures gives { IfOk result (λ left. (range : NRange) (roles : List CoreRole) (rows : Rows) → IsWhole range roles whole.now →
        is_block rows false (ids_of held.now) (plain_block block.now).block ≡ true →
        Gives range roles reach.items left.items out.old.items out.new.items (first_in roles held.now (plain_block block.now).block)) }
    ensures small { IfOk result (λ left. (rows : Rows) → is_block rows false (ids_of held.now) (plain_block block.now).block ≡ true →
        are_small out.old.items ≡ true → are_small out.new.items ≡ true) }
    ensures fits { IfOk result (λ left. (range : NRange) (cuts : List Lin) (rows : Rows) → is_block rows false (ids_of held.now) (plain_block block.now).block ≡ true → AreAmong (block_cuts None (plain_block block.now).block) cuts →
        All (Fits range cuts) whole.now → HeldFit range cuts held.now → All (Fits range cuts) reach.items → EntriesFit range cuts out.old.items → AllFit range cuts left.items out.new.items) }
{
    let parts = parts_of(alloc, &reach)?;
    let left = firsts_of(block, alloc, whole, held, parts, out)?;
    let areas = areas_of(alloc, &left)?;
    Ok(areas)
}

/// The same of areas in parts.
#[cycle(firsts)]
fn firsts_of(
    block: &CoreBlock,
    alloc: Global,
    whole: &[Area],
    held: &[Held],
    reach: Vec<Part>,
    out: &mut Vec<Entry>,
) -> Result<Vec<Part>, NoMemory>
    ensures gives { IfOk result (λ left. (range : NRange) (roles : List CoreRole) (rows : Rows) → IsWhole range roles whole.now →
        is_block rows false (ids_of held.now) (plain_block block.now).block ≡ true →
        AreAround reach.items → Gives range roles (flat reach.items) (flat left.items) out.old.items out.new.items (first_in roles held.now (plain_block block.now).block)) }
    ensures around { IfOk result (λ left. AreAround reach.items → AreAround left.items) }
    ensures small { IfOk result (λ left. (rows : Rows) → is_block rows false (ids_of held.now) (plain_block block.now).block ≡ true →
        are_small out.old.items ≡ true → are_small out.new.items ≡ true) }
    ensures fits { IfOk result (λ left. (range : NRange) (cuts : List Lin) (rows : Rows) → is_block rows false (ids_of held.now) (plain_block block.now).block ≡ true → AreAmong (block_cuts None (plain_block block.now).block) cuts →
        All (Fits range cuts) whole.now → HeldFit range cuts held.now → All (Fits range cuts) (flat reach.items) → EntriesFit range cuts out.old.items → AllFit range cuts (flat left.items) out.new.items) }
{
    let mut left = reach;
    let mut stops = Vec::new(alloc);
    for stmt in &block.list {
        if left.is_empty() {
            return Ok(left);
        }
        left = firsts_at(stmt, alloc, whole, held, left, &mut stops, out)?;
        if stmt.is_again() {
            return Ok(left);
        }
    }
    let rest = stop_each(alloc, left, &stops, out)?;
    Ok(rest)
}

/// How many parts come to a statement at most, where nobody asks who takes part in it.
const FEW_PARTS: usize = 64;

/// How many areas of those who take part each part is compared with at most.
const FEW_TAKERS: usize = 16;

/// Adds the stops of a plain statement. Another one comes behind the stops that were gathered, which are taken first.
#[cycle(firsts)]
fn firsts_at(
    stmt: &CoreStmt,
    alloc: Global,
    whole: &[Area],
    held: &[Held],
    reach: Vec<Part>,
    stops: &mut Vec<Entry>,
    out: &mut Vec<Entry>,
) -> Result<Vec<Part>, NoMemory>
    ensures gives { IfOk result (λ left. (range : NRange) (roles : List CoreRole) (rows : Rows) → IsWhole range roles whole.now →
        is_stmt rows false (ids_of held.now) (plain_stmt stmt.now).stmt ≡ true →
        AreAround reach.items → Passes range roles (flat reach.items) (flat left.items) out.old.items out.new.items stops.old.items stops.new.items (first_at roles held.now (plain_stmt stmt.now).mark (plain_stmt stmt.now).stmt)) }
    ensures none { IfOk result (λ left. is_again (plain_stmt stmt.now).stmt ≡ true → stops.new.items ≡ []) }
    ensures around { IfOk result (λ left. AreAround reach.items → AreAround left.items) }
    ensures small { IfOk result (λ left. (rows : Rows) → is_stmt rows false (ids_of held.now) (plain_stmt stmt.now).stmt ≡ true →
        are_small stops.old.items ≡ true → are_small out.old.items ≡ true → (are_small stops.new.items ≡ true) × (are_small out.new.items ≡ true)) }
    ensures fits { IfOk result (λ left. (range : NRange) (cuts : List Lin) (rows : Rows) → is_stmt rows false (ids_of held.now) (plain_stmt stmt.now).stmt ≡ true → AreAmong (stmt_cuts None (plain_stmt stmt.now).stmt) cuts →
        All (Fits range cuts) whole.now → HeldFit range cuts held.now → All (Fits range cuts) (flat reach.items) → EntriesFit range cuts stops.old.items → EntriesFit range cuts out.old.items →
        EntriesFit range cuts stops.new.items × AllFit range cuts (flat left.items) out.new.items) }
{
    let is_plain = add_plain(stmt, alloc, whole, stops)?;
    if is_plain {
        return Ok(reach);
    }
    let come = stop_each(alloc, reach, stops, out)?;
    stops.clear();
    if come.is_empty() {
        return Ok(come);
    }
    met_firsts(stmt, alloc, whole, held, come, out)
}

/// The first outcomes of a statement that isn't plain. Where many parts come to a statement in which few areas take part, those
/// without a rank of these areas pass it as they are.
#[cycle(firsts)]
fn met_firsts(
    stmt: &CoreStmt,
    alloc: Global,
    whole: &[Area],
    held: &[Held],
    reach: Vec<Part>,
    out: &mut Vec<Entry>,
) -> Result<Vec<Part>, NoMemory>
    ensures gives { IfOk result (λ left. is_plain (plain_stmt stmt.now).stmt ≡ false → (range : NRange) (roles : List CoreRole) (rows : Rows) → IsWhole range roles whole.now →
        is_stmt rows false (ids_of held.now) (plain_stmt stmt.now).stmt ≡ true →
        AreAround reach.items → Gives range roles (flat reach.items) (flat left.items) out.old.items out.new.items (first_at roles held.now (plain_stmt stmt.now).mark (plain_stmt stmt.now).stmt)) }
    ensures around { IfOk result (λ left. AreAround reach.items → AreAround left.items) }
    ensures small { IfOk result (λ left. (rows : Rows) → is_stmt rows false (ids_of held.now) (plain_stmt stmt.now).stmt ≡ true →
        are_small out.old.items ≡ true → are_small out.new.items ≡ true) }
    ensures fits { IfOk result (λ left. (range : NRange) (cuts : List Lin) (rows : Rows) → is_stmt rows false (ids_of held.now) (plain_stmt stmt.now).stmt ≡ true → AreAmong (stmt_cuts None (plain_stmt stmt.now).stmt) cuts →
        All (Fits range cuts) whole.now → HeldFit range cuts held.now → All (Fits range cuts) (flat reach.items) → EntriesFit range cuts out.old.items → AllFit range cuts (flat left.items) out.new.items) }
{
    if reach.len() <= FEW_PARTS {
        return other_firsts(stmt, alloc, whole, held, reach, out);
    }
    let mut takers = Vec::new(alloc);
    takers_at(stmt, alloc, whole, held, &mut takers)?;
    if takers.len() > FEW_TAKERS {
        return other_firsts(stmt, alloc, whole, held, reach, out);
    }
    let sides = sides_of(alloc, reach, &takers)?;
    let left = other_firsts(stmt, alloc, whole, held, sides.met, out)?;
    both_sides(sides.others, left)
}

/// The first outcomes of a statement that isn't plain.
#[cycle(firsts)]
fn other_firsts(
    stmt: &CoreStmt,
    alloc: Global,
    whole: &[Area],
    held: &[Held],
    reach: Vec<Part>,
    out: &mut Vec<Entry>,
) -> Result<Vec<Part>, NoMemory>
    ensures gives { IfOk result (λ left. is_plain (plain_stmt stmt.now).stmt ≡ false → (range : NRange) (roles : List CoreRole) (rows : Rows) → IsWhole range roles whole.now →
        is_stmt rows false (ids_of held.now) (plain_stmt stmt.now).stmt ≡ true →
        AreAround reach.items → Gives range roles (flat reach.items) (flat left.items) out.old.items out.new.items (first_at roles held.now (plain_stmt stmt.now).mark (plain_stmt stmt.now).stmt)) }
    ensures around { IfOk result (λ left. AreAround reach.items → AreAround left.items) }
    ensures small { IfOk result (λ left. (rows : Rows) → is_stmt rows false (ids_of held.now) (plain_stmt stmt.now).stmt ≡ true →
        are_small out.old.items ≡ true → are_small out.new.items ≡ true) }
    ensures fits { IfOk result (λ left. (range : NRange) (cuts : List Lin) (rows : Rows) → is_stmt rows false (ids_of held.now) (plain_stmt stmt.now).stmt ≡ true → AreAmong (stmt_cuts None (plain_stmt stmt.now).stmt) cuts →
        All (Fits range cuts) whole.now → HeldFit range cuts held.now → All (Fits range cuts) (flat reach.items) → EntriesFit range cuts out.old.items → AllFit range cuts (flat left.items) out.new.items) }
{
    match &stmt.what {
        CoreKind::Message { .. } | CoreKind::Run { .. } | CoreKind::Foreach { .. } => Ok(reach),
        CoreKind::Again { id } => again_firsts(alloc, *id, held, reach, out),
        CoreKind::Barrier
        | CoreKind::Broadcast { .. }
        | CoreKind::Reduce { .. }
        | CoreKind::Allreduce { .. } => all_firsts(alloc, whole, reach, out),
        CoreKind::Loop { id, body } => loop_firsts(body, alloc, *id, whole, held, reach, out),
        CoreKind::Choice { at, branches, .. } => {
            choice_firsts(branches, alloc, *at, whole, held, reach, out)
        }
    }
}

#[cycle(firsts)]
fn loop_firsts(
    body: &CoreBlock,
    alloc: Global,
    id: u32,
    whole: &[Area],
    held: &[Held],
    reach: Vec<Part>,
    out: &mut Vec<Entry>,
) -> Result<Vec<Part>, NoMemory>
    ensures gives { IfOk result (λ left. (range : NRange) (roles : List CoreRole) (rows : Rows) (m k : Mark) → IsWhole range roles whole.now →
        is_stmt rows false (ids_of held.now) (loop id k (plain_block body.now).block) ≡ true →
        AreAround reach.items → Gives range roles (flat reach.items) (flat left.items) out.old.items out.new.items (first_at roles held.now m (loop id k (plain_block body.now).block))) }
    ensures around { IfOk result (λ left. AreAround reach.items → AreAround left.items) }
    ensures small { IfOk result (λ left. (rows : Rows) (k : Mark) → is_stmt rows false (ids_of held.now) (loop id k (plain_block body.now).block) ≡ true →
        are_small out.old.items ≡ true → are_small out.new.items ≡ true) }
    ensures fits { IfOk result (λ left. (range : NRange) (cuts : List Lin) (rows : Rows) (k : Mark) → is_stmt rows false (ids_of held.now) (loop id k (plain_block body.now).block) ≡ true → AreAmong (stmt_cuts None (loop id k (plain_block body.now).block)) cuts →
        All (Fits range cuts) whole.now → HeldFit range cuts held.now → All (Fits range cuts) (flat reach.items) → EntriesFit range cuts out.old.items → AllFit range cuts (flat left.items) out.new.items) }
{
    let none = with_loop(alloc, held, id, Vec::new(alloc))?;
    let mut takers = Vec::new(alloc);
    takers_in(body, alloc, whole, &none, &mut takers)?;
    let inner = with_loop(alloc, held, id, takers)?;
    let left = firsts_of(body, alloc, whole, &inner, reach, out)?;
    Ok(left)
}

#[cycle(firsts)]
fn choice_firsts(
    branches: &[CoreBlock],
    alloc: Global,
    at: CoreEnd,
    whole: &[Area],
    held: &[Held],
    reach: Vec<Part>,
    out: &mut Vec<Entry>,
) -> Result<Vec<Part>, NoMemory>
    ensures gives { IfOk result (λ left. (range : NRange) (roles : List CoreRole) (rows : Rows) (m : Mark) (kernel : ℕ) → IsWhole range roles whole.now →
        is_stmt rows false (ids_of held.now) (choice kernel at (branches_of (map plain_block branches.now))) ≡ true →
        AreAround reach.items → Gives range roles (flat reach.items) (flat left.items) out.old.items out.new.items (first_at roles held.now m (choice kernel at (branches_of (map plain_block branches.now))))) }
    ensures around { IfOk result (λ left. AreAround reach.items → AreAround left.items) }
    ensures small { IfOk result (λ left. (rows : Rows) (kernel : ℕ) → is_stmt rows false (ids_of held.now) (choice kernel at (branches_of (map plain_block branches.now))) ≡ true →
        are_small out.old.items ≡ true → are_small out.new.items ≡ true) }
    ensures fits { IfOk result (λ left. (range : NRange) (cuts : List Lin) (rows : Rows) (kernel : ℕ) → is_stmt rows false (ids_of held.now) (choice kernel at (branches_of (map plain_block branches.now))) ≡ true → AreAmong (stmt_cuts None (choice kernel at (branches_of (map plain_block branches.now)))) cuts →
        All (Fits range cuts) whole.now → HeldFit range cuts held.now → All (Fits range cuts) (flat reach.items) → EntriesFit range cuts out.old.items → AllFit range cuts (flat left.items) out.new.items) }
{
    let others = run_firsts(alloc, at, reach, out)?;
    let left = firsts_among(branches, alloc, whole, held, &others, out)?;
    Ok(left)
}

#[cycle(firsts)]
fn firsts_among(
    branches: &[CoreBlock],
    alloc: Global,
    whole: &[Area],
    held: &[Held],
    reach: &[Part],
    out: &mut Vec<Entry>,
) -> Result<Vec<Part>, NoMemory>
    ensures gives { IfOk result (λ left. (range : NRange) (roles : List CoreRole) (rows : Rows) → IsWhole range roles whole.now →
        are_branches rows (ids_of held.now) (branches_of (map plain_block branches.now)) ≡ true →
        AreAround reach.now → Gives range roles (flat reach.now) (flat left.items) out.old.items out.new.items (first_among roles held.now (branches_of (map plain_block branches.now)))) }
    ensures around { IfOk result (λ left. AreAround reach.now → AreAround left.items) }
    ensures small { IfOk result (λ left. (rows : Rows) → are_branches rows (ids_of held.now) (branches_of (map plain_block branches.now)) ≡ true →
        are_small out.old.items ≡ true → are_small out.new.items ≡ true) }
    ensures fits { IfOk result (λ left. (range : NRange) (cuts : List Lin) (rows : Rows) → are_branches rows (ids_of held.now) (branches_of (map plain_block branches.now)) ≡ true → AreAmong (branches_cuts None (branches_of (map plain_block branches.now))) cuts →
        All (Fits range cuts) whole.now → HeldFit range cuts held.now → All (Fits range cuts) (flat reach.now) → EntriesFit range cuts out.old.items → AllFit range cuts (flat left.items) out.new.items) }
{
    let mut passed = Vec::new(alloc);
    for branch in branches {
        let told = copied(alloc, reach)?;
        let left = firsts_of(branch, alloc, whole, held, told, out)?;
        passed = together(alloc, passed, left)?;
    }
    Ok(passed)
}
