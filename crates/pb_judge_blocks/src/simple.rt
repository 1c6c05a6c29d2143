//! Messages and computes.

ghost use Rattle.std.specs.Prelude.{◌≡◌};
ghost use Rattle.pb_core_language.specs.Flat as F;
ghost use Rattle.pb_core_language.specs.FlatOf.{rank_of};
ghost use Rattle.pb_judge_lists.specs.Places.{left_of};
ghost use Rattle.pb_judge_blocks.specs.Steps.{SimpleWalks};

use crate::flow::flow_of;
use crate::ranks::rank_of;
use crate::site::Site;
use pb_core_language::CoreEnd;
use pb_judge_steps::{Lists, compute, message};
use pb_judge_walks::Flow;

/// A message.
pub fn send(
    label: u32,
    from: &CoreEnd,
    to: &CoreEnd,
    site: &Site,
    i: &i64,
    lists: &mut Lists,
) -> Flow
    ensures walked { SimpleWalks site.now i.now (λ origin. F.message origin (rank_of site.now.roles.now site.now.n from.now i.now) (rank_of site.now.roles.now site.now.n to.now i.now) label) (left_of lists.old) result (left_of lists.new) }
    ensures log { lists.new.log ≡ lists.old.log }
{
    let sender = rank_of(from, site, i);
    let receiver = rank_of(to, site, i);
    flow_of(message(lists, sender, receiver, label, site.setting.size(label)))
}

/// A compute.
pub fn run(kernel: u32, at: &CoreEnd, site: &Site, i: &i64, lists: &mut Lists) -> Flow
    ensures walked { SimpleWalks site.now i.now (λ origin. F.compute origin (rank_of site.now.roles.now site.now.n at.now i.now) kernel) (left_of lists.old) result (left_of lists.new) }
    ensures log { lists.new.log ≡ lists.old.log }
{
    let rank = rank_of(at, site, i);
    flow_of(compute(lists, rank, kernel))
}
