ghost use Rattle.std.specs.Prelude.{IsSome, ◌+ℤ◌, pos, negsuc};
ghost use Rattle.pb_affine.specs.Values.{IsSmall, IsSmallGuard};

use crate::columns::{pair, word};
use pb_affine::{Base, Guard, Lin, NRange};
use pb_diff_apart::{first_apart, first_apart_other};

fn lin_of(base: Base, off: i8) -> Lin
    ensures small { IsSmall result.off }
    ensures below { IsSmall (result.off +ℤ negsuc 0) }
    ensures above { IsSmall (result.off +ℤ pos 1) }
{
    Lin {
        base,
        off: i32::from(off),
    }
}

/// From one lin to another, for N from a number on.
#[derive(Clone, Copy)]
struct Ends {
    low: (Base, i8),
    high: (Base, i8),
    from: Option<u32>,
}

fn guard_of(role: u32, ends: Ends) -> Guard
    ensures small { IsSmallGuard result }
    ensures low { IsSome result.low }
{
    let low = lin_of(ends.low.0, ends.low.1);
    let high = lin_of(ends.high.0, ends.high.1);
    Guard {
        role,
        low: Some(low),
        high: Some(high),
        from: ends.from,
        to: None,
    }
}

/// The N and the index at which `p` and `q` first differ under both guards.
fn apart(range: NRange, g: Ends, h: Ends, p: (Base, i8), q: (Base, i8)) -> Option<(i64, i64)> {
    let g = guard_of(3, g);
    let h = guard_of(3, h);
    let p = lin_of(p.0, p.1);
    let q = lin_of(q.0, q.1);
    first_apart(range, &g, &h, p, q).map(|bad| (bad.n, bad.index))
}

/// The number, the base N or the base i with an offset that stands at a place of a row.
fn end_at(row: &str, place: usize) -> (Base, i8) {
    let word = word(row, place);
    let (base, off) = match word.strip_prefix('N') {
        Some(off) => (Base::Param, off),
        None => fixed_or_turn(word),
    };
    (base, off.parse().unwrap_or(0))
}

fn fixed_or_turn(word: &str) -> (Base, &str) {
    match word.strip_prefix('i') {
        Some(off) => (Base::Var, off),
        None => (Base::Fixed, word),
    }
}

/// The low end, the high end and the least N, from a place of a row on.
fn ends_at(row: &str, place: usize) -> Ends {
    Ends {
        low: end_at(row, place),
        high: end_at(row, place.saturating_add(1)),
        from: word(row, place.saturating_add(2)).parse().ok(),
    }
}

/// The range of N at the front of a row. It goes on where the second word is no number.
fn range_of(row: &str) -> NRange {
    NRange {
        low: word(row, 0).parse().unwrap_or(0),
        high: word(row, 1).parse().ok(),
    }
}

/// The range of N, the first and the last index and the least N of two guards, two lins, and the first N and index at which these
/// differ under both guards.
const APART: &str = "2 max 0 N-1 - 0 N-1 - i+1 5 2 0
2 max 0 N-1 - 0 N-1 - 5 5 - -
2 max 0 N-1 - 4 4 - i+1 5 - -
2 max 0 N-1 - 4 N-1 - i+1 5 6 5
5 max 0 0 - 0 N-1 - N 5 6 0
5 5 0 0 - 0 N-1 - N 5 - -
2 max 0 N-1 20 0 N-1 - 0 5 20 0
2 max 0 N-1 - 5 4 - 0 5 - -
2 max 0 N-1 - 0 N-1 - i+1 N 2 0
2 max N-1 N-1 - 0 N-1 - i+1 N - -";

fn is_row_apart(row: &str) -> bool {
    let range = range_of(row);
    let g = ends_at(row, 2);
    let h = ends_at(row, 5);
    apart(range, g, h, end_at(row, 8), end_at(row, 9)) == pair(row, 10)
}

#[test]
fn lins_differ_first(rt: HostRuntime) {
    for row in APART.lines() {
        assert!(rt; is_row_apart(row), "{row}");
    }
}

/// The N and the index at which `p` and `q` first differ under the guard, at another index than `but`.
fn apart_other(
    range: NRange,
    g: Ends,
    but: (Base, i8),
    p: (Base, i8),
    q: (Base, i8),
) -> Option<(i64, i64)> {
    let g = guard_of(3, g);
    let but = lin_of(but.0, but.1);
    let p = lin_of(p.0, p.1);
    let q = lin_of(q.0, q.1);
    first_apart_other(range, &g, but, p, q).map(|bad| (bad.n, bad.index))
}

/// The range of N, a guard, the index that is left out, two lins, and the first N and index at which these differ under the guard
/// elsewhere. Behind that stands why.
const ELSEWHERE: &str =
    "3 max 0 N-1 - N-1 i 0 3 1 the first rank, where index and 0 are one, and the next
3 max 0 N-1 - 1 i 0 3 2 all ranks but the next, up to N - 1
3 max 0 0 - 0 i N-1 - - the one rank that would do is left out
3 max 0 0 - N-1 i N-1 3 0 it isn't";

fn is_row_elsewhere(row: &str) -> bool {
    let range = range_of(row);
    let g = ends_at(row, 2);
    let but = end_at(row, 5);
    apart_other(range, g, but, end_at(row, 6), end_at(row, 7)) == pair(row, 8)
}

#[test]
fn all_but_one(rt: HostRuntime) {
    for row in ELSEWHERE.lines() {
        assert!(rt; is_row_elsewhere(row), "{row}");
    }
}
