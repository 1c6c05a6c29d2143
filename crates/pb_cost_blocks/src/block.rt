ghost use Rattle.std.specs.Prelude.{ℕ, map};
ghost use Rattle.pb_core_language.specs.declared.tree.CoreEnd.{CoreEnd};
ghost use Rattle.pb_core_language.specs.Plain.{plain_block, plain_stmt, branches_of};
ghost use Rattle.pb_cost_blocks.specs.Answers.{SameAnswer, StmtAnswer, BlockAnswer, BranchesAnswer};
ghost use Rattle.pb_cost_laws.specs.Flats.{of_label};
ghost use Rattle.pb_cost_blocks.specs.Asked.{counted, size_in};

use crate::asked::Asked;
use crate::foreach::of_foreach;
use crate::join::few_joined;
use crate::running::Running;
use crate::same::same;
use crate::stop::Stop;
use pb_core_language::{CoreBlock, CoreKind, CoreLabel, CoreStmt};
use pb_cost_joins::Count;
use std::alloc::Global;

/// The count of a block.
#[cycle(block)]
pub fn of_block(
    block: &CoreBlock,
    alloc: Global,
    labels: &[CoreLabel],
    asked: Asked,
) -> Result<Count, Stop>
    ensures { BlockAnswer asked labels.now (plain_block block.now).block result }
{
    let mut running = Running::begin(alloc, asked.span)?;
    for stmt in &block.list {
        let next = of_stmt(stmt, alloc, labels, asked)?;
        running = running.plus(alloc, &next)?;
    }
    running.finish(alloc)
}

/// The count of a statement.
#[cycle(block)]
fn of_stmt(
    stmt: &CoreStmt,
    alloc: Global,
    labels: &[CoreLabel],
    asked: Asked,
) -> Result<Count, Stop>
    ensures { StmtAnswer asked labels.now (plain_stmt stmt.now).stmt result }
{
    match &stmt.what {
        CoreKind::Message { label, .. } => of_message(alloc, labels, *label, asked),
        CoreKind::Foreach { low, high, items } => {
            of_foreach(alloc, labels, asked, *low, *high, items)
        }
        CoreKind::Loop { body, .. } => of_block(body, alloc, labels, asked),
        CoreKind::Choice { branches, .. } => of_branches(branches, alloc, labels, asked),
        CoreKind::Again { .. }
        | CoreKind::Run { .. }
        | CoreKind::Barrier
        | CoreKind::Broadcast { .. }
        | CoreKind::Reduce { .. }
        | CoreKind::Allreduce { .. } => same(alloc, asked.span, 0),
    }
}

/// The count of a message.
fn of_message(alloc: Global, labels: &[CoreLabel], label: u32, asked: Asked) -> Result<Count, Stop>
    ensures { SameAnswer asked.span (of_label (counted asked.what) (size_in labels.now) label) result }
{
    same(alloc, asked.span, asked.of_label(labels, label))
}

/// The count of a choice with these branches.
#[cycle(block)]
fn of_branches(
    branches: &[CoreBlock],
    alloc: Global,
    labels: &[CoreLabel],
    asked: Asked,
) -> Result<Count, Stop>
    ensures { BranchesAnswer asked labels.now (branches_of (map plain_block branches.now)) result }
{
    let Some((first, others)) = branches.split_first() else {
        return same(alloc, asked.span, 0);
    };
    let mut best = of_block(first, alloc, labels, asked)?;
    for branch in others {
        let next = of_block(branch, alloc, labels, asked)?;
        best = few_joined(alloc, asked.choosing(), &best, &next)?;
    }
    Ok(best)
}
