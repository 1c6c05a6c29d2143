ghost use Rattle.std.specs.Prelude.{◌≡◌, ◌+◌, ◌≤◌, ◌<ℤ◌, ◌≤ℤ◌, ◌+ℤ◌, pos, true, length, MatchResult};
ghost use Rattle.pb_cost_pieces.specs.Lines.{value_in};
ghost use Rattle.pb_cost_joins.specs.Counts.{IsCount};
ghost use Rattle.pb_cost_joins.specs.Merging.{both_in};
ghost use Rattle.pb_cost_blocks.specs.Answers.{JoinAnswer};
ghost use Rattle.pb_cost_blocks.specs.Sums.{IsBegun};
ghost use Rattle.pb_cost_blocks.specs.Running.{AreCounts, RunningAnswer, BeginAnswer, AloneAnswer, LightAnswer, total, total_weight};

use crate::join::{MOST_PIECES, few, few_joined};
use crate::same::same;
use crate::stop::Stop;
use pb_cost_joins::{Count, CountFault, Join, Span, joined};
use std::alloc::Global;

/// The most pieces that the count of the latest statements has.
const MOST_RECENT: usize = 64;

/// The most that a count weighs.
const MOST_WEIGHT: i64 = 4_100_000;

/// The count of the statements so far, in two: the sum of most of them, and the count of the latest ones. So a statement more
/// mostly goes through the pieces of the latest ones alone.
#[derive(Drop)]
pub(crate) struct Running {
    pub(crate) sum: Count,
    pub(crate) recent: Count,
}

impl Running {
    /// No statements.
    pub(crate) fn begin(alloc: Global, span: Span) -> Result<Running, Stop>
        ensures { BeginAnswer span result }
    {
        let sum = begun(alloc, span)?;
        alone(alloc, sum)
    }

    /// With one statement more, which has this count.
    pub(crate) fn plus(self, alloc: Global, next: &Count) -> Result<Running, Stop>
        requires counts { AreCounts self }
        requires right { IsCount next.now }
        requires span { next.now.span ≡ self.sum.span }
        ensures { RunningAnswer self.sum.span (λ n. total self n +ℤ value_in next.now.list.items n) (total_weight self +ℤ next.now.weight) result }
    {
        let recent = light_joined(alloc, &self.sum, &self.recent, next)?;
        settled(alloc, self.sum, recent)
    }

    /// The count of all statements.
    pub(crate) fn finish(self, alloc: Global) -> Result<Count, Stop>
        requires { AreCounts self }
        ensures { JoinAnswer Join.Sum self.sum self.recent result }
    {
        few_joined(alloc, Join::Sum, &self.sum, &self.recent)
    }
}

/// The count of no statements.
fn begun(alloc: Global, span: Span) -> Result<Count, Stop>
    ensures { IsBegun span result }
{
    let none = same(alloc, span, 0)?;
    few(none)
}

/// This sum, with no latest statements.
fn alone(alloc: Global, sum: Count) -> Result<Running, Stop>
    ensures { AloneAnswer sum result }
{
    let recent = begun(alloc, sum.span)?;
    Ok(Running { sum, recent })
}

/// The count of the latest statements and one more, where all statements aren't too heavy.
fn light_joined(alloc: Global, sum: &Count, recent: &Count, next: &Count) -> Result<Count, Stop>
    requires left { IsCount recent.now }
    requires right { IsCount next.now }
    requires span { next.now.span ≡ recent.now.span }
    ensures { LightAnswer sum.now recent.now next.now result }
{
    match joined(alloc, Join::Sum, recent, next) {
        Ok(count) => light(sum, count),
        Err(CountFault::TooHeavy) => Err(Stop::Unfit),
        Err(CountFault::NoMemory) => Err(Stop::NoMemory),
    }
}

/// The count, where it isn't too heavy with the sum.
fn light(sum: &Count, count: Count) -> Result<Count, Stop>
    ensures { MatchResult result (λ c. (c ≡ count) × ((sum.now.weight +ℤ count.weight) ≤ℤ pos 4100000)) (λ e. (e ≡ Stop.Unfit) × (pos 4100000 <ℤ (sum.now.weight +ℤ count.weight))) }
{
    if sum.weight + count.weight > MOST_WEIGHT {
        return Err(Stop::Unfit);
    }
    Ok(count)
}

/// Both counts, which become one where they might have many pieces, or the latest statements have more than a few.
fn settled(alloc: Global, sum: Count, recent: Count) -> Result<Running, Stop>
    requires left { IsCount sum }
    requires right { IsCount recent }
    requires span { recent.span ≡ sum.span }
    requires light { (sum.weight +ℤ recent.weight) ≤ℤ pos 4100000 }
    ensures { RunningAnswer sum.span (both_in Join.Sum sum.list.items recent.list.items) (sum.weight +ℤ recent.weight) result }
{
    if are_short(&sum, &recent) {
        return Ok(Running { sum, recent });
    }
    let sum = few_joined(alloc, Join::Sum, &sum, &recent)?;
    alone(alloc, sum)
}

/// Whether the latest statements have few pieces, and both counts joined surely have at most 4,096: a piece of the sum ends
/// only where a piece of one of them does.
fn are_short(sum: &Count, recent: &Count) -> bool
    ensures { result ≡ true → (length sum.now.list.items + length recent.now.list.items) ≤ 4097 }
{
    recent.list.len() <= MOST_RECENT && sum.list.len() + recent.list.len() <= MOST_PIECES + 1
}
