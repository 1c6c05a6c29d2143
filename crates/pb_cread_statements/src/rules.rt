//! What lines keep beside those before them.

ghost use Rattle.std.specs.Prelude.{◌≡◌, ◌∷◌, [], Option, Some, None, nat_eq, nat_lt, ◌&&◌, ◌||◌};
ghost use Rattle.pb_local.specs.declared.stmt.Test.{Test};
ghost use Rattle.pb_ctree.specs.Rules.{comes_after};
ghost use Rattle.pb_cread_statements.specs.Reading.{is_same_peer, last_of};

use crate::{Peer, Test};
use pb_local::is_same_lin;

/// Whether both have the same role and the same lin.
pub fn is_same_peer(a: Peer, b: Peer) -> bool
    ensures { result ≡ is_same_peer a b }
{
    a.role == b.role && is_same_lin(a.at, b.at)
}

fn comes_behind(before: &Test, branch: u32, label: u32) -> bool
    ensures { result ≡ (nat_lt before.now.branch branch || (nat_eq before.now.branch branch && nat_lt before.now.label label)) }
{
    before.branch < branch || (before.branch == branch && before.label < label)
}

/// Whether a test of this branch and label may stand behind these tests.
#[tactic(auto, using(crate::proofs::LastTest::first_in_order, crate::proofs::LastTest::in_order))]
pub fn is_in_order(tests: &[Test], branch: u32, label: u32) -> bool
    ensures { (t : Test) → t.branch ≡ branch → t.label ≡ label → comes_after (last_of tests.now) t ≡ result }
{
    match tests {
        [] => true,
        [_earlier @ .., before] => comes_behind(before, branch, label),
    }
}
