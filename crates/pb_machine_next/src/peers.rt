ghost use Rattle.std.specs.Prelude.{◌≡◌, ◌+ℤ◌, ◌*ℤ◌};
ghost use Rattle.pb_ctree.specs.Trees.{formula_at};
ghost use Rattle.pb_machine_next.specs.Numbers.{int32};
ghost use Rattle.pb_machine_next.specs.Peers.{rank_if, placed_at, peer_at};

use crate::me::Me;
use crate::numbers::{int32, value};
use pb_ctree::{Formula, Peer};

#[tactic(auto, using(crate::proofs::Fitting::int32_none))]
fn product(a: i64, n: i64) -> Option<i32>
    ensures { result ≡ int32 (a *ℤ n) }
{
    match a.checked_mul(n) {
        None => None,
        Some(x) => int32(x),
    }
}

fn sum(x: i32, y: i32) -> Option<i32>
    ensures { result ≡ int32 (x +ℤ y) }
{
    int32(i64::from(x) + i64::from(y))
}

#[tactic(auto, using(crate::proofs::Fitting::int32_none))]
fn sum_with(x: i32, b: i64) -> Option<i32>
    ensures { result ≡ int32 (x +ℤ b) }
{
    match i64::from(x).checked_add(b) {
        None => None,
        Some(x) => int32(x),
    }
}

/// The number, where it is a rank's.
fn rank_if(x: i32, total: u32) -> Option<u32>
    ensures { result ≡ rank_if total x }
{
    if 0 <= x && i64::from(x) < i64::from(total) {
        Some(x as u32)
    } else {
        None
    }
}

/// What is added to an index of a role.
fn place_of(places: &[Formula], role: u32) -> Formula
    ensures { result ≡ formula_at places.now role }
{
    match places.get(role as usize) {
        None => Formula { a: 0, b: 0 },
        Some(place) => *place,
    }
}

/// The number of the rank at an index of a role with this place.
fn placed(place: Formula, me: &Me, x: i32) -> Option<u32>
    ensures { result ≡ placed_at place me.now x }
{
    match product(place.a, me.n) {
        None => None,
        Some(ranks) => match sum(x, ranks) {
            None => None,
            Some(first) => match sum_with(first, place.b) {
                None => None,
                Some(number) => rank_if(number, me.total),
            },
        },
    }
}

/// The number of the peer; None where a number on the way is no int32, or it is no rank's.
pub fn peer(places: &[Formula], peer: Peer, me: &Me, i: i32) -> Option<u32>
    ensures { result ≡ peer_at places.now peer me.now i }
{
    match int32(value(peer.at, me, i)) {
        None => None,
        Some(x) => placed(place_of(places, peer.role), me, x),
    }
}
