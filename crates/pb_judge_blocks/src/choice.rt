//! The branch of a choice.

ghost use Rattle.std.specs.Prelude.{◌≡◌, map};
ghost use Rattle.pb_core_language.specs.Plain.{plain_block, branches_of};
ghost use Rattle.pb_judge_lists.specs.Places.{left_of};
ghost use Rattle.pb_judge_blocks.specs.Steps.{Takes};

use crate::ranks::rank_of;
use crate::site::Site;
use pb_core_language::{CoreBlock, CoreEnd};
use pb_judge_endings::first_ending;
use pb_judge_steps::{Difference, Lists, choose};

/// The branch that is taken: that of the chooser's next entry, or without one the first that can end.
pub fn take(
    kernel: u32,
    at: &CoreEnd,
    branches: &[CoreBlock],
    site: &Site,
    i: &i64,
    lists: &mut Lists,
) -> Result<usize, Difference>
    ensures takes { Takes site.now i.now kernel at.now (branches_of (map plain_block branches.now)) (left_of lists.old) result (left_of lists.new) }
    ensures log { lists.new.log ≡ lists.old.log }
{
    let otherwise = first_ending(branches);
    let rank = rank_of(at, site, i);
    choose(lists, rank, kernel, branches.len(), otherwise)
}
