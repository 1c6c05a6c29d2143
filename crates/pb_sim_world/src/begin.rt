ghost use Rattle.std.specs.Prelude.{◌≡◌, ◌≤◌, pos, ◌≤ℤ◌, IfOk};
ghost use Rattle.pb_affine.specs.Values.{count_of};
ghost use Rattle.pb_local.specs.Ranks.{total as ranks_of};
ghost use Rattle.pb_local.specs.WellMade.{IsInRange};
ghost use Rattle.pb_ctree.specs.Trees.{IsTree};
ghost use Rattle.pb_sim_world.specs.Starts.{AreStarts, AreFresh, IsStart};

use crate::stand::Stand;
use crate::state::State;
use pb_chan::Channels;
use pb_machine::{CTree, NoMemory, Rank, Sizes};
use pb_sim_collectives::Joins;
use pb_text::Mode;
use std::alloc::Global;

/// So many ranks at their starts.
fn starts(alloc: Global, tree: &CTree, n: i64, total: u32) -> Result<Vec<Rank>, NoMemory>
    requires tree { IsTree tree.now }
    requires some { pos 0 ≤ℤ n }
    requires range { IsInRange tree.now.local.range (count_of n) }
    requires total { total ≡ ranks_of tree.now.local.roles.items n }
    requires few { total ≤ 1024 }
    ensures { IfOk result (λ v. AreStarts tree.now n total v.items) }
{
    let sizes = Sizes::of(tree);
    let mut ranks = Vec::new(alloc);
    for rank in 0..total {
        ranks.push(Rank::sized(alloc, tree, sizes, n, rank)?)?;
    }
    Ok(ranks)
}

/// What is kept of so many ranks that have done nothing.
#[tactic(auto, using(crate::proofs::Starting::no_fresh, crate::proofs::Starting::one_fresh))]
fn fresh_stands(alloc: Global, total: u32) -> Result<Vec<Stand>, NoMemory>
    ensures { IfOk result (λ v. AreFresh total v.items) }
{
    let mut stands = Vec::new(alloc);
    for _ in 0..total {
        stands.push(Stand {
            waits: None,
            left: 0,
            mode: Mode::Eager,
            asked: 0,
        })?;
    }
    Ok(stands)
}

impl State {
    /// All ranks at their starts, for this N; nothing was sent or entered.
    pub fn new(alloc: Global, tree: CTree, n: i64, total: u32) -> Result<State, NoMemory>
        requires tree { IsTree tree }
        requires some { pos 0 ≤ℤ n }
        requires range { IsInRange tree.local.range (count_of n) }
        requires total { total ≡ ranks_of tree.local.roles.items n }
        requires few { total ≤ 1024 }
        ensures { IfOk result (IsStart tree n) }
    {
        let ranks = starts(alloc, &tree, n, total)?;
        let stands = fresh_stands(alloc, total)?;
        let joins = Joins::new(alloc, total)?;
        Ok(State {
            tree,
            n,
            ranks,
            stands,
            channels: Channels::new(alloc),
            joins,
        })
    }
}
