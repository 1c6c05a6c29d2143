ghost use Rattle.std.specs.Prelude.{◌≡◌, ◌+◌, ◌≤◌, ◌∷◌, ◌==◌, ℕ, length, map, IfOk};
ghost use Rattle.pb_core_language.specs.FlatOf.{between};
ghost use Rattle.pb_core_language.specs.Plain.{plain_block, plain_stmt, branches_of};
ghost use Rattle.pb_core_flat.specs.GoesOn.{has_again, have_again, some_have_again};
ghost use Rattle.pb_part_takers.specs.Loops.{ids_of};
ghost use Rattle.pb_choice.specs.Rounds.{Rounds};

use pb_core_language::{CoreBlock, CoreKind, CoreStmt};
use pb_part_takers::Held;
use pb_text::NoMemory;
use std::alloc::Global;

/// Whether the body of a loop has its continue.
pub fn comes_round(
    body: &CoreBlock,
    alloc: Global,
    held: &[Held],
    id: u32,
) -> Result<bool, NoMemory>
    ensures { IfOk result (λ t. t ≡ have_again 0 (id ∷ ids_of held.now) (plain_block body.now).block) }
{
    let around = ids(alloc, held)?;
    let opens = inside(alloc, id, &around)?;
    let round = block_again(body, alloc, opens.len(), &opens)?;
    Ok(round)
}

fn ids(alloc: Global, held: &[Held]) -> Result<Vec<u32>, NoMemory>
    ensures { IfOk result (λ v. v.items ≡ ids_of held.now) }
{
    let mut list = Vec::new(alloc);
    for one in held {
        list.push(one.id)?;
    }
    Ok(list)
}

fn inside(alloc: Global, id: u32, opens: &[u32]) -> Result<Vec<u32>, NoMemory>
    ensures { IfOk result (λ v. v.items ≡ id ∷ opens.now) }
{
    let mut list = Vec::new(alloc);
    list.push(id)?;
    for one in opens {
        list.push(*one)?;
    }
    Ok(list)
}

#[cycle(round)]
fn block_again(
    block: &CoreBlock,
    alloc: Global,
    outer: usize,
    opens: &[u32],
) -> Result<bool, NoMemory>
    ensures { IfOk result (λ t. Rounds outer opens.now t (λ k. have_again k opens.now (plain_block block.now).block)) }
{
    for statement in &block.list {
        let found = stmt_again(statement, alloc, outer, opens)?;
        if found {
            return Ok(true);
        }
        if statement.is_again() {
            return Ok(false);
        }
    }
    Ok(false)
}

#[cycle(round)]
fn branches_again(
    branches: &[CoreBlock],
    alloc: Global,
    outer: usize,
    opens: &[u32],
) -> Result<bool, NoMemory>
    ensures { IfOk result (λ t. Rounds outer opens.now t (λ k. some_have_again k opens.now (branches_of (map plain_block branches.now)))) }
{
    for branch in branches {
        let found = block_again(branch, alloc, outer, opens)?;
        if found {
            return Ok(true);
        }
    }
    Ok(false)
}

#[cycle(round)]
fn stmt_again(
    statement: &CoreStmt,
    alloc: Global,
    outer: usize,
    opens: &[u32],
) -> Result<bool, NoMemory>
    ensures { IfOk result (λ t. Rounds outer opens.now t (λ k. has_again k opens.now (plain_stmt statement.now).stmt)) }
{
    match &statement.what {
        CoreKind::Again { id } => Ok(is_of(*id, outer, opens)),
        CoreKind::Loop { id, body } => {
            let inner = inside(alloc, *id, opens)?;
            let round = block_again(body, alloc, outer, &inner)?;
            Ok(round)
        }
        CoreKind::Choice { branches, .. } => {
            let round = branches_again(branches, alloc, outer, opens)?;
            Ok(round)
        }
        CoreKind::Message { .. }
        | CoreKind::Foreach { .. }
        | CoreKind::Run { .. }
        | CoreKind::Barrier
        | CoreKind::Broadcast { .. }
        | CoreKind::Reduce { .. }
        | CoreKind::Allreduce { .. } => Ok(false),
    }
}

// Whether the continue is of the loop with `outer` ids from it on.
#[tactic(auto, using(crate::proofs::Circles::of_loop))]
fn is_of(id: u32, outer: usize, opens: &[u32]) -> bool
    ensures { Rounds outer opens.now result (λ k. between id opens.now == k) }
{
    let at = position(id, opens);
    opens.len() - at == outer
}

// How many ids stand before this one, or in all where it is none of them.
fn position(id: u32, opens: &[u32]) -> usize
    ensures is { result ≡ between id opens.now }
    ensures within { result ≤ length opens.now }
{
    for (i, open) in opens.iter().enumerate() {
        if id == *open {
            return i;
        }
    }
    opens.len()
}
