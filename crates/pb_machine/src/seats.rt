ghost use Rattle.std.specs.Prelude.{◌≡◌, ◌≤◌, ◌<◌, pos, ◌+ℤ◌, ◌-ℤ◌, ◌≤ℤ◌, length, IfSome, None};
ghost use Rattle.pb_text.specs.declared.limits.TheConstants.{MOST_NUMBER};
ghost use Rattle.pb_affine.specs.Values.{value, count_of, IsNear};
ghost use Rattle.pb_local.specs.Ranks.{seats, seat_at, total};
ghost use Rattle.pb_local.specs.WellMade.{IsInRange};
ghost use Rattle.pb_ctree.specs.Trees.{IsTree};
ghost use Rattle.pb_machine.specs.Seats.{IsModest, IsWide};
ghost use Rattle.pb_machine_next.specs.Numbers.{seat_of};

use pb_ctree::{Base, CTree, Lin, Role};
use pb_machine_next::Me;

/// The end of a role's range.
fn end(lin: Lin, n: i64) -> i64
    requires { IsModest n }
    ensures value { result ≡ value lin n (pos 0) }
    ensures wide { IsWide result }
{
    let off = i64::from(lin.off);
    match lin.base {
        Base::Fixed => off,
        Base::Param => off + n,
        Base::Var => off,
    }
}

/// How many numbers lie between the two, with both.
fn distance(low: i64, high: i64) -> u64
    requires low { IsWide low }
    requires high { IsWide high }
    ensures { result ≡ count_of (high +ℤ pos 1 -ℤ low) }
{
    if low <= high {
        (high - low + 1) as u64
    } else {
        0
    }
}

/// How many ranks the role has.
fn count(role: &Role, n: i64) -> u64
    requires { IsModest n }
    ensures { result ≡ count_of (value role.now.high n (pos 0) +ℤ pos 1 -ℤ value role.now.low n (pos 0)) }
{
    distance(end(role.low, n), end(role.high, n))
}

/// How many ranks the roles have.
#[tactic(auto, using(crate::proofs::Ranges::length_round))]
fn total(roles: &[Role], n: i64) -> u64
    requires modest { IsModest n }
    requires few { total roles.now n ≤ MOST_NUMBER }
    ensures { result ≡ total roles.now n }
{
    let mut sum = 0;
    for role in roles {
        sum += count(role, n);
    }
    sum
}

/// The index that stands so many behind the role's first.
fn index(role: &Role, n: i64, left: u32) -> i64
    requires { IsModest n }
    ensures value { result ≡ value role.now.low n (pos 0) +ℤ pos left }
    ensures near { IsNear result }
{
    end(role.low, n) + i64::from(left)
}

/// Who the rank with this number is.
#[tactic(auto, using(crate::proofs::Ranges::here_round, crate::proofs::Ranges::past_round, crate::proofs::Ranges::no_round))]
pub fn me_at(roles: &[Role], n: i64, rank: u32) -> Me
    requires modest { IsModest n }
    requires many { length roles.now ≤ 64 }
    requires few { total roles.now n ≤ MOST_NUMBER }
    ensures seat { seat_of result ≡ seat_at rank (seats roles.now n) }
    ensures n { result.n ≡ n }
    ensures total { result.total ≡ total roles.now n }
{
    let total = total(roles, n) as u32;
    let mut left = rank;
    let mut number = 0;
    for role in roles {
        let count = count(role, n);
        if u64::from(left) < count {
            let index = index(role, n, left);
            return Me {
                n,
                role: number,
                index,
                total,
            };
        }
        left -= count as u32;
        number += 1;
    }
    Me {
        n,
        role: 0,
        index: 0,
        total,
    }
}

/// How many ranks the roles have; `None` where that is more than `most`.
#[tactic(auto, using(crate::proofs::Ranges::length_round))]
fn total_within(roles: &[Role], n: i64, most: u32) -> Option<u32>
    requires { IsModest n }
    ensures some { IfSome result (λ count. (count ≡ total roles.now n) × (count ≤ most)) }
    ensures none { result ≡ None → most < total roles.now n }
{
    let mut sum = 0;
    for role in roles {
        let more = count(role, n);
        if more > u64::from(most) - sum {
            return None;
        }
        sum += more;
    }
    Some(sum as u32)
}

/// How many ranks there are for this N; `None` exactly where that is more than `most`. Takes no memory.
pub fn total_of(tree: &CTree, n: i64, most: u32) -> Option<u32>
    requires tree { IsTree tree.now }
    requires some { pos 0 ≤ℤ n }
    requires range { IsInRange tree.now.local.range (count_of n) }
    requires few { most ≤ MOST_NUMBER }
    ensures some { IfSome result (λ count. (count ≡ total tree.now.local.roles.items n) × (count ≤ most)) }
    ensures none { result ≡ None → most < total tree.now.local.roles.items n }
{
    if n > 4294967296 {
        None
    } else {
        total_within(&tree.local.roles, n, most)
    }
}
