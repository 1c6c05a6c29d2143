ghost use Rattle.std.specs.Prelude.{◌≡◌, ◌≤◌, ◌↔◌, pos, ◌≤ℤ◌, IsTrue, IfOk};
ghost use Rattle.pb_affine.specs.Values.{count_of};
ghost use Rattle.pb_local.specs.WellMade.{IsInRange};
ghost use Rattle.pb_ctree.specs.Trees.{IsTree};
ghost use Rattle.pb_sim.specs.Seen.{IsSeen};
ghost use Rattle.pb_sim.specs.Made.{IsNumber, ranks_of, IsBegun};

use crate::counts::Counts;
use crate::seen::Seen;
use pb_affine::NRange;
use pb_machine::{CTree, NoMemory};
use pb_sim_ready::Ready;
use pb_sim_world::State;
use std::alloc::Global;

/// The most ranks of a simulation.
pub const MOST_RANKS: u32 = 1024;

/// Whether N is a number of the range.
pub fn is_number(range: NRange, n: i64) -> bool
    ensures { IsTrue result ↔ IsNumber range n }
{
    if n < i64::from(range.low) {
        return false;
    }
    match range.high {
        None => true,
        Some(high) => n <= i64::from(high),
    }
}

impl Seen {
    /// All ranks at their starts.
    pub fn new(alloc: Global, tree: CTree, n: i64, total: u32) -> Result<Seen, NoMemory>
        requires tree { IsTree tree }
        requires number { IsNumber tree.local.range n }
        requires total { total ≡ ranks_of tree n }
        requires few { total ≤ 1024 }
        ensures begun { IfOk result (IsBegun tree n) }
        ensures seen { IfOk result IsSeen }
    {
        let ready = Ready::new(alloc, total)?;
        let state = State::new(alloc, tree, n, total)?;
        let mut seen = Seen {
            state,
            ready,
            counts: Counts {
                sends: 0,
                receives: 0,
                runs: 0,
                chooses: 0,
                enters: 0,
                leaves: 0,
                words: 0,
            },
            steps: 0,
        };
        seen.refresh_all();
        Ok(seen)
    }
}
