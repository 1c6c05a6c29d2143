ghost use Rattle.std.specs.Prelude.{◌≡◌};
ghost use Rattle.pb_affine.specs.Values.{value, is_from_on, is_up_to};
ghost use Rattle.pb_local.specs.Computed.{fits};
ghost use Rattle.pb_machine_next.specs.Numbers.{int32, low_holds, high_holds, both_ends, within, guard_holds, some_holds, source_at, tested};

use crate::me::Me;
use pb_ctree::{Base, Guard, Lin, Peer, Relay, Test};

/// The number that a lin stands for.
pub fn value(lin: Lin, me: &Me, i: i32) -> i64
    ensures { result ≡ value lin me.now.n i }
{
    let off = i64::from(lin.off);
    match lin.base {
        Base::Fixed => off,
        Base::Param => off + me.n,
        Base::Var => off + i64::from(i),
    }
}

/// Whether the number is an int32.
pub fn fits(x: i64) -> bool
    ensures { result ≡ fits x }
{
    -2147483648 <= x && x <= 2147483647
}

/// The number, where it is an int32.
pub fn int32(x: i64) -> Option<i32>
    ensures { result ≡ int32 x }
{
    if fits(x) { Some(x as i32) } else { None }
}

// ---- guards; None where a number that is computed is no int32

fn low_holds(low: Option<Lin>, me: &Me, i: i32) -> Option<bool>
    ensures { result ≡ low_holds low me.now i }
{
    match low {
        None => Some(true),
        Some(low) => {
            let low = value(low, me, i);
            if fits(low) {
                Some(low <= me.index)
            } else {
                None
            }
        }
    }
}

fn high_holds(high: Option<Lin>, me: &Me, i: i32) -> Option<bool>
    ensures { result ≡ high_holds high me.now i }
{
    match high {
        None => Some(true),
        Some(high) => {
            let high = value(high, me, i);
            if fits(high) {
                Some(me.index <= high)
            } else {
                None
            }
        }
    }
}

fn is_from_on(n: i64, from: Option<u32>) -> bool
    ensures { result ≡ is_from_on n from }
{
    match from {
        None => true,
        Some(from) => i64::from(from) <= n,
    }
}

fn is_up_to(n: i64, to: Option<u32>) -> bool
    ensures { result ≡ is_up_to n to }
{
    match to {
        None => true,
        Some(to) => n <= i64::from(to),
    }
}

/// The high end is computed where the low end holds.
fn both_ends(high: Option<Lin>, me: &Me, i: i32, low: Option<bool>) -> Option<bool>
    ensures { result ≡ both_ends high me.now i low }
{
    match low {
        None => None,
        Some(held) => {
            if held {
                high_holds(high, me, i)
            } else {
                Some(false)
            }
        }
    }
}

fn within(guard: &Guard, me: &Me, held: Option<bool>) -> Option<bool>
    ensures { result ≡ within guard.now me.now held }
{
    match held {
        None => None,
        Some(held) => Some(held && is_from_on(me.n, guard.from) && is_up_to(me.n, guard.to)),
    }
}

/// Whether the guard holds for the rank.
pub fn guard_holds(guard: &Guard, me: &Me, i: i32) -> Option<bool>
    ensures { result ≡ guard_holds guard.now me.now i }
{
    if me.role == guard.role {
        let low = low_holds(guard.low, me, i);
        within(guard, me, both_ends(guard.high, me, i, low))
    } else {
        Some(false)
    }
}

/// Whether some guard holds; none is computed behind the first that does.
pub fn some_holds(guards: &[Guard], me: &Me, i: i32) -> Option<bool>
    ensures { result ≡ some_holds guards.now me.now i }
{
    for guard in guards {
        match guard_holds(guard, me, i) {
            None => return None,
            Some(held) => {
                if held {
                    return Some(true);
                }
            }
        }
    }
    Some(false)
}

// ---- relays and tests

/// The source of the first relay that holds for the rank, or else `other`.
pub fn source(relays: &[Relay], other: Peer, me: &Me, i: i32) -> Option<Peer>
    ensures { result ≡ source_at relays.now other me.now i }
{
    for relay in relays {
        match some_holds(relay.guards.list(), me, i) {
            None => return None,
            Some(held) => {
                if held {
                    return Some(relay.from);
                }
            }
        }
    }
    Some(other)
}

/// The branch of the first test with this label that holds for the rank.
pub fn tested(tests: &[Test], label: u32, me: &Me, i: i32) -> Option<u32>
    ensures { result ≡ tested tests.now label me.now i }
{
    for test in tests {
        if label == test.label {
            match some_holds(test.guards.list(), me, i) {
                None => return None,
                Some(held) => {
                    if held {
                        return Some(test.branch);
                    }
                }
            }
        }
    }
    None
}
