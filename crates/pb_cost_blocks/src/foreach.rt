ghost use Rattle.std.specs.Prelude.{◌≡◌, ◌≤◌, ℕ, pos, true, MatchOption};
ghost use Rattle.pb_core_language.specs.Plain.{plain_block, plain_stmt};
ghost use Rattle.pb_core_language.specs.Tree.{Mark, foreach};
ghost use Rattle.pb_core_language.specs.Sound.{is_item};
ghost use Rattle.pb_cost_blocks.specs.Asked.{counted, size_in};
ghost use Rattle.pb_cost_blocks.specs.Answers.{StmtAnswer};
ghost use Rattle.pb_cost_blocks.specs.Fit.{are_items, weight_of, weight_of_stmt};

use crate::asked::Asked;
use crate::stop::Stop;
use crate::values::{line_of, values_of};
use pb_core_language::{CoreBlock, CoreKind, CoreLabel, CoreStmt, Lin};
use pb_cost_joins::{Count, NoMemory, clipped};
use std::alloc::Global;

/// The most that is counted of the items for one value of the variable.
const MOST_ONCE: u64 = 4_100_000;

/// The count of a foreach: that of its items, once for each value of its variable.
pub(crate) fn of_foreach(
    alloc: Global,
    labels: &[CoreLabel],
    asked: Asked,
    low: Lin,
    high: Lin,
    items: &CoreBlock,
) -> Result<Count, Stop>
    ensures { (mark : Mark) → StmtAnswer asked labels.now (foreach (record { low = low; high = high }) mark (plain_block items.now).block) result }
{
    let Some(once) = of_items(items, labels, asked) else {
        return Err(Stop::Unfit);
    };
    let Some(values) = values_of(asked.span, low, high) else {
        return Err(Stop::Unfit);
    };
    match clipped(alloc, asked.span, line_of(once, values)) {
        Ok(count) => Ok(count),
        Err(NoMemory) => Err(Stop::NoMemory),
    }
}

/// What is counted for each value of the variable; None where there is more than a file has, or another statement than
/// messages and computes.
fn of_items(items: &CoreBlock, labels: &[CoreLabel], asked: Asked) -> Option<u64>
    ensures { MatchOption result (are_items (plain_block items.now).block ≡ true → weight_of (counted asked.what) (size_in labels.now) (plain_block items.now).block ≤ 4100000 → ⊥)
        (λ once. (are_items (plain_block items.now).block ≡ true) × (weight_of (counted asked.what) (size_in labels.now) (plain_block items.now).block ≡ once) × (once ≤ 4100000)) }
{
    let mut once: u64 = 0;
    for stmt in &items.list {
        let Some(more) = of_item(stmt, labels, asked) else {
            return None;
        };
        once += u64::from(more);
        if once > MOST_ONCE {
            return None;
        }
    }
    Some(once)
}

/// What is counted of an item; None where it isn't one.
fn of_item(stmt: &CoreStmt, labels: &[CoreLabel], asked: Asked) -> Option<u32>
    ensures { MatchOption result (is_item (plain_stmt stmt.now).stmt ≡ true → ⊥)
        (λ once. (is_item (plain_stmt stmt.now).stmt ≡ true) × (weight_of_stmt (counted asked.what) (size_in labels.now) (plain_stmt stmt.now).stmt ≡ once)) }
{
    match &stmt.what {
        CoreKind::Message { label, .. } => Some(asked.of_label(labels, *label)),
        CoreKind::Run { .. } => Some(0),
        CoreKind::Foreach { .. }
        | CoreKind::Loop { .. }
        | CoreKind::Again { .. }
        | CoreKind::Choice { .. }
        | CoreKind::Barrier
        | CoreKind::Broadcast { .. }
        | CoreKind::Reduce { .. }
        | CoreKind::Allreduce { .. } => None,
    }
}
