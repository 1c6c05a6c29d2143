//! The walk over the statements of a protocol.

ghost use Rattle.std.specs.Prelude.{◌≡◌, IfOk};
ghost use Rattle.pb_affine.specs.Values.{count_from};
ghost use Rattle.pb_core_language.specs.Plain.{plain_block, plain_stmt};
ghost use Rattle.pb_judge_lists.specs.Places.{left_of};
ghost use Rattle.pb_judge_blocks.specs.Steps.{BlockWalks, StmtWalks, TurnsWalk, RoundsWalk};

use crate::choice::take;
use crate::flow::{differing, is_back, is_passed};
use crate::joint::{allreduce, barrier, broadcast, reduce};
use crate::numbers::{count, next, value};
use crate::simple::{run, send};
use crate::site::Site;
use pb_core_language::{CoreBlock, CoreKind, CoreStmt};
use pb_judge_steps::Lists;
use pb_judge_walks::Flow;
use pb_text::NoMemory;
use std::alloc::Global;

/// The walk over the statements of a block, with i for the variable.
#[cycle(walk)]
pub fn block(
    block: &CoreBlock,
    alloc: Global,
    site: &Site,
    i: &i64,
    lists: &mut Lists,
) -> Result<Flow, NoMemory>
    ensures walked { IfOk result (λ flow. BlockWalks site.now i.now (plain_block block.now).block (left_of lists.old) flow (left_of lists.new)) }
    ensures log { lists.new.log ≡ lists.old.log }
{
    for stmt in &block.list {
        let flow = statement(stmt, alloc, site, i, lists)?;
        if !is_passed(flow) {
            return Ok(flow);
        }
    }
    Ok(Flow::Passed)
}

#[cycle(walk)]
fn statement(
    stmt: &CoreStmt,
    alloc: Global,
    site: &Site,
    i: &i64,
    lists: &mut Lists,
) -> Result<Flow, NoMemory>
    ensures walked { IfOk result (λ flow. StmtWalks site.now i.now (plain_stmt stmt.now) (left_of lists.old) flow (left_of lists.new)) }
    ensures log { lists.new.log ≡ lists.old.log }
{
    match &stmt.what {
        CoreKind::Message { label, from, to } => Ok(send(*label, from, to, site, i, lists)),
        CoreKind::Run { kernel, at } => Ok(run(*kernel, at, site, i, lists)),
        CoreKind::Foreach { low, high, items } => {
            let low = value(low, &site.n, &0);
            let high = value(high, &site.n, &0);
            turns(items, alloc, site, &low, &count(&low, &high), lists)
        }
        CoreKind::Loop { id, body } => rounds(body, alloc, site, i, *id, lists),
        CoreKind::Again { id } => Ok(Flow::Back(*id)),
        CoreKind::Choice {
            kernel,
            at,
            branches,
        } => match take(*kernel, at, branches, site, i, lists) {
            Err(difference) => Ok(differing(difference)),
            Ok(branch) => {
                if branch < branches.len() {
                    let taken = &branches[branch];
                    block(taken, alloc, site, i, lists)
                } else {
                    Ok(Flow::Passed)
                }
            }
        },
        CoreKind::Barrier => barrier(alloc, site, lists),
        CoreKind::Broadcast { label, root } => broadcast(alloc, *label, root, site, i, lists),
        CoreKind::Reduce { label, op, root } => reduce(alloc, *label, *op, root, site, i, lists),
        CoreKind::Allreduce { label, op } => allreduce(alloc, *label, *op, site, lists),
    }
}

/// The items of a foreach, for so many values of the variable from the first on.
#[cycle(walk)]
fn turns(
    items: &CoreBlock,
    alloc: Global,
    site: &Site,
    first: &i64,
    many: &u64,
    lists: &mut Lists,
) -> Result<Flow, NoMemory>
    ensures walked { IfOk result (λ flow. TurnsWalk site.now (count_from many.now first.now) (plain_block items.now).block (left_of lists.old) flow (left_of lists.new)) }
    ensures log { lists.new.log ≡ lists.old.log }
{
    let mut turn = *first;
    let mut left = *many;
    'turns: while left > 0 {
        let flow = block(items, alloc, site, &turn, lists)?;
        if !is_passed(flow) {
            return Ok(flow);
        }
        turn = next(&turn);
        left -= 1;
    }
    Ok(Flow::Passed)
}

/// A loop, round by round, up to one that uses no entry.
#[cycle(walk)]
fn rounds(
    body: &CoreBlock,
    alloc: Global,
    site: &Site,
    i: &i64,
    id: u32,
    lists: &mut Lists,
) -> Result<Flow, NoMemory>
    ensures walked { IfOk result (λ flow. RoundsWalk site.now i.now id (plain_block body.now).block (left_of lists.old) flow (left_of lists.new)) }
    ensures log { lists.new.log ≡ lists.old.log }
{
    let mut used = lists.used();
    let mut flow = block(body, alloc, site, i, lists)?;
    'rounds: while is_back(flow, id) {
        let now = lists.used();
        if now <= used {
            return Ok(Flow::Endless);
        }
        used = now;
        flow = block(body, alloc, site, i, lists)?;
    }
    Ok(flow)
}
