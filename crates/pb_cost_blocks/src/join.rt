ghost use Rattle.std.specs.Prelude.{◌≡◌, ◌<◌, ◌≤◌, length, MatchResult};
ghost use Rattle.pb_cost_joins.specs.Counts.{IsCount};
ghost use Rattle.pb_cost_blocks.specs.declared.stop.Stop.TheVariants.{TooManyPieces};
ghost use Rattle.pb_cost_blocks.specs.Answers.{JoinAnswer};

use crate::stop::Stop;
use pb_cost_joins::{Count, CountFault, Join, joined};
use std::alloc::Global;

/// The most pieces that a count may have.
pub(crate) const MOST_PIECES: usize = 4096;

/// Two counts joined, where that has few pieces.
pub(crate) fn few_joined(alloc: Global, join: Join, a: &Count, b: &Count) -> Result<Count, Stop>
    requires left { IsCount a.now }
    requires right { IsCount b.now }
    requires span { b.now.span ≡ a.now.span }
    ensures { JoinAnswer join a.now b.now result }
{
    match joined(alloc, join, a, b) {
        Ok(count) => few(count),
        Err(CountFault::TooHeavy) => Err(Stop::Unfit),
        Err(CountFault::NoMemory) => Err(Stop::NoMemory),
    }
}

/// The count, where it has few pieces.
pub(crate) fn few(count: Count) -> Result<Count, Stop>
    ensures { MatchResult result (λ c. (c ≡ count) × (length count.list.items ≤ 4096)) (λ e. (e ≡ TooManyPieces) × (4096 < length count.list.items)) }
{
    if count.list.len() > MOST_PIECES {
        return Err(Stop::TooManyPieces);
    }
    Ok(count)
}
