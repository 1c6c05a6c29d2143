//! The number of all ranks.

ghost use Rattle.std.specs.Prelude.{◌≡◌, ◌≤◌, length};
ghost use Rattle.std.specs.List.{All};
ghost use Rattle.pb_local.specs.Ranks.{ranks_of};
ghost use Rattle.pb_ctree.specs.Sums.{HasSmallEnds};
ghost use Rattle.pb_ctree.specs.Trees.{sum_of};

use pb_ctree::{Formula, Role};

/// The number of all ranks, as a sum in N.
#[tactic(auto, using(pb_ctree::proofs::Rooms::room_after, pb_ctree::proofs::Rooms::room_now))]
pub fn ranks(roles: &[Role]) -> Formula
    requires few { length roles.now ≤ 64 }
    requires small { All HasSmallEnds roles.now }
    ensures { sum_of result ≡ ranks_of roles.now }
{
    let mut first = Formula { a: 0, b: 0 };
    for role in roles {
        first = first.with_role(role);
    }
    first
}
