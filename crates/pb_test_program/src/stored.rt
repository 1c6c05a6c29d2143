//! Simulations with an answer function of their own, told by its relation.

ghost use Rattle.std.specs.Prelude.{◌≡◌, ◌≤◌, slice_index};
ghost use Rattle.pb_text.specs.declared.limits.TheConstants.{MOST_EVENTS};
ghost use Rattle.pb_ctree.specs.Trees.{IsTree};
ghost use Rattle.pb_sim_play.specs.Plans.{drawn};
ghost use Rattle.pb_cli_simulate.specs.Replies.{SaysReply};
ghost use Rattle.pb_test_program.specs.Answers.{IsGreatest, IsListed};

use pb_cli_simulate::{CTree, Options, Status, simulate_tree};
use pb_io::Sink;
use std::alloc::Global;

/// The greatest word.
fn greatest(_seed: u64, _rank: u32, _count: u64) -> u32
    ensures { result ≡ 4294967295 }
{
    u32::MAX
}

/// Simulates a tree, and answers each kernel with the greatest word.
pub fn simulate_by_greatest<O: Sink>(
    alloc: Global,
    tree: CTree,
    options: Options,
    out: &mut O,
) -> Status
    requires tree { IsTree tree }
    requires few { options.turns ≤ MOST_EVENTS }
    ensures { SaysReply tree options.n IsGreatest (drawn options.seed options.modes) options.turns options.shown options.seed result (O.taken out.old) (O.taken out.new) }
{
    simulate_tree(alloc, tree, options, greatest, out)
}

/// The word with this number in a list, and 0 past its end.
fn listed(words: &[u32], count: u64) -> u32
    ensures { result ≡ slice_index words.now count }
{
    if count < words.len() as u64 {
        words[count as usize]
    } else {
        0
    }
}

/// Simulates a tree, and answers each kernel with the next word of a list, and with 0 past its end.
pub fn simulate_by_list<O: Sink>(
    alloc: Global,
    tree: CTree,
    options: Options,
    words: &[u32],
    out: &mut O,
) -> Status
    requires tree { IsTree tree }
    requires few { options.turns ≤ MOST_EVENTS }
    ensures { SaysReply tree options.n (IsListed words.now) (drawn options.seed options.modes) options.turns options.shown options.seed result (O.taken out.old) (O.taken out.new) }
{
    let answers = |_seed: u64, _rank: u32, count: u64| listed(words, count);
    simulate_tree(alloc, tree, options, answers, out)
}
