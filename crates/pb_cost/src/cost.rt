ghost use Rattle.std.specs.Prelude.{◌≡◌, None, IfOk, IfErr, MatchResult};
ghost use Rattle.pb_core_language.specs.Plain.{plain};
ghost use Rattle.pb_cost_blocks.specs.Asked.{way_of, counted};
ghost use Rattle.pb_cost.specs.Costs.{first_loop, IsCountable, IsCounted, IsTold, IsFault};

use crate::loops::first_loop;
use crate::piece::{Piece, pieces_of};
use crate::range::span_of;
use pb_core_language::{Core, Place};
use pb_cost_blocks::{Asked, Counted, Stop, Way, of_block};
use pb_text::NoMemory;
use std::alloc::Global;
use thiserror::Error;

/// How much a protocol sends, for each N of its range. Each list has each N once.
#[derive(Drop)]
pub struct Cost {
    pub least_messages: Vec<Piece>,
    pub most_messages: Vec<Piece>,
    pub least_words: Vec<Piece>,
    pub most_words: Vec<Piece>,
}

/// Why a protocol has no cost.
#[derive(Clone, Copy, Debug, Error)]
pub enum CostFault {
    /// It has a loop; the place is that of the first.
    #[error("HasLoop")]
    HasLoop(Place),
    /// One of the four counts has more than 4,096 pieces, of the first statements of a block or the first branches of a
    /// choice.
    #[error("TooManyPieces")]
    TooManyPieces,
    /// Memory ran out.
    #[error("NoMemory")]
    NoMemory,
}

impl From<NoMemory> for CostFault {
    ghost use Rattle.std.specs.Prelude.{◌≡◌};
    ghost use Rattle.pb_cost.specs.declared.cost.CostFault.TheVariants.{NoMemory};

    ghost from_gives = { λ _ e. e ≡ NoMemory };

    fn from(_error: NoMemory) -> CostFault {
        CostFault::NoMemory
    }
}

/// The least and the most that the protocol sends. `HasLoop` comes exactly where it has a loop; `TooManyPieces` exactly where
/// it has none, and for the first statements of some block that isn't a foreach's, or for the first branches of some choice,
/// one of the four counts has more than 4,096 pieces.
pub fn cost_of(alloc: Global, core: &Core) -> Result<Cost, CostFault>
    requires { IsCountable (plain core.now) }
    ensures told { IfOk result (IsTold (plain core.now)) }
    ensures fault { IfErr result (IsFault (plain core.now)) }
{
    if let Some(place) = first_loop(&core.body) {
        return Err(CostFault::HasLoop(place));
    }
    let cost = Cost {
        least_messages: count_of(alloc, core, Way::Least, Counted::Messages)?,
        most_messages: count_of(alloc, core, Way::Most, Counted::Messages)?,
        least_words: count_of(alloc, core, Way::Least, Counted::Words)?,
        most_words: count_of(alloc, core, Way::Most, Counted::Words)?,
    };
    Ok(cost)
}

/// One of the four counts.
fn count_of(alloc: Global, core: &Core, way: Way, what: Counted) -> Result<Vec<Piece>, CostFault>
    requires countable { IsCountable (plain core.now) }
    requires none { first_loop (plain core.now).body.block ≡ None }
    ensures { MatchResult result (λ v. IsCounted (plain core.now) (way_of way) (counted what) v.items) (IsFault (plain core.now)) }
{
    let asked = Asked {
        way,
        what,
        span: span_of(core.range),
    };
    match of_block(&core.body, alloc, &core.labels, asked) {
        Ok(count) => Ok(pieces_of(alloc, &count.list, core.range.high)?),
        Err(Stop::TooManyPieces) => Err(CostFault::TooManyPieces),
        Err(Stop::Unfit) => unreachable!(),
        Err(Stop::NoMemory) => Err(CostFault::NoMemory),
    }
}
