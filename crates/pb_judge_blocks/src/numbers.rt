//! Numbers at one N, within reach of 2^41 from zero.

ghost use Rattle.std.specs.Prelude.{◌≡◌, ◌+◌, ◌^◌, ◌+ℤ◌, ◌-ℤ◌, ◌≤ℤ◌, ◌<◌, pos, MatchOption};
ghost use Rattle.pb_affine.specs.Values.{IsNear, value, count_of};
ghost use Rattle.pb_judge_blocks.specs.Places.{IsTurn};

use pb_core_language::{Base, Lin};

/// The sum, where the number is within 2^41 of zero.
fn plus(off: &i32, x: &i64) -> i64
    ensures sum { IsTurn x.now → result ≡ off.now +ℤ x.now }
    ensures turn { IsNear x.now → IsTurn result }
{
    let off = *off;
    let x = *x;
    if x < -2_199_023_255_552 || x > 2_199_023_255_552 {
        return 0;
    }
    i64::from(off) + x
}

/// The number that a lin stands for, with i for the variable.
pub fn value(lin: &Lin, n: &i64, i: &i64) -> i64
    ensures value { IsNear n.now → IsTurn i.now → result ≡ value lin.now n.now i.now }
    ensures turn { IsNear n.now → IsNear i.now → IsTurn result }
{
    match lin.base {
        Base::Fixed => plus(&lin.off, &0),
        Base::Param => plus(&lin.off, n),
        Base::Var => plus(&lin.off, i),
    }
}

/// How many whole numbers there are from `low` to `high`.
pub fn count(low: &i64, high: &i64) -> u64
    ensures { IsTurn low.now → IsTurn high.now → result ≡ count_of (high.now +ℤ pos 1 -ℤ low.now) }
{
    let low = *low;
    let high = *high;
    if low > high || low < -2_199_023_255_552 || high > 2_199_023_255_552 {
        return 0;
    }
    (high - low) as u64 + 1
}

/// How far a number is behind the first of a role's, where the role is this one and the number one of its indices.
pub fn place(number: usize, role: u32, low: &i64, high: &i64, x: &i64) -> Option<u64>
    ensures { MatchOption result (IsTurn low.now → IsTurn high.now → number ≡ role → low.now ≤ℤ x.now → x.now ≤ℤ high.now → ⊥) (λ far. (number ≡ role) × (low.now ≤ℤ x.now) × (x.now ≤ℤ high.now) × (far ≡ count_of (x.now -ℤ low.now))) }
{
    let low = *low;
    let high = *high;
    let x = *x;
    if number != role as usize || low > x || x > high {
        return None;
    }
    if low < -2_199_023_255_552 || x > 2_199_023_255_552 {
        return None;
    }
    Some((x - low) as u64)
}

/// The next number.
pub fn next(i: &i64) -> i64
    ensures { IsTurn i.now → result ≡ i.now +ℤ pos 1 }
{
    let i = *i;
    if i > 2_199_023_255_552 { i } else { i + 1 }
}

/// The number with so many more, at most 4,294,967,295.
pub fn behind(before: &u32, many: &u64) -> u32
    ensures { before.now + many.now < 2 ^ 32 → result ≡ before.now + many.now }
{
    let before = *before;
    let many = *many;
    if many > 4_294_967_295 {
        return before;
    }
    let all = u64::from(before) + many;
    if all > 4_294_967_295 {
        before
    } else {
        all as u32
    }
}
