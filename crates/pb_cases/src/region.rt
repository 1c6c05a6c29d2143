ghost use Rattle.std.specs.Prelude.{◌≡◌, ℕ, ◌<◌, ◌^◌, pos, ◌<ℤ◌, length, IfOk, MatchOption};
ghost use Rattle.std.specs.List.{All};
ghost use Rattle.pb_affine.specs.Values.{value, hold, IsNear, IsSmallGuard};
ghost use Rattle.pb_cases.specs.Bounds.{high_end, IsBounded};
ghost use Rattle.pb_cases.specs.Live.{IsTestOf};
ghost use Rattle.pb_cases.specs.Numbers.{IsNearList};
ghost use Rattle.pb_cases.specs.Regions.{is_wanted};
ghost use Rattle.pb_cases.specs.Search.{is_less, offered, with_both, best_of, best_at, IsFound, IsNotFound, IsOfRole};

use crate::bad::Bad;
use crate::cover::{Cover, cover_of, high_at, low_at};
use pb_affine::Guard;
use pb_text::NoMemory;
use std::alloc::Global;

/// Which ranks two lists of guards single out.
#[derive(Clone, Copy)]
pub(crate) enum Wanted {
    /// Those of which a guard of each list holds.
    Both,
    /// Those of which a guard of the first list holds, and none of the second.
    FirstAlone,
}

/// A role and an index.
#[derive(Clone, Copy)]
pub(crate) struct Rank {
    role: u32,
    index: i64,
}

/// True where the rank comes before the best so far, by role, then index.
fn is_less(role: u32, index: i64, best: Option<Rank>) -> bool
    ensures { result ≡ is_less role index best }
{
    match best {
        None => true,
        Some(best) => role < best.role || role == best.role && index < best.index,
    }
}

/// The first index past the guard's high end at N = n.
fn past_high(guard: &Guard, n: i64) -> i64
    requires small { IsSmallGuard guard.now }
    requires near { IsNear n }
    ensures is { result ≡ value (high_end guard.now) n (pos 0) }
    ensures near { result <ℤ pos (2 ^ 62) }
{
    high_at(guard, n) + 1
}

/// The ranks of one role that two lists of guards single out at one N.
#[derive(Drop)]
struct Region<'a> {
    wanted: Wanted,
    n: i64,
    role: u32,
    a: &'a [Guard],
    b: &'a [Guard],
    in_a: Cover,
    in_b: Cover,
}

impl Region<'_> {
    fn holds_a(&self, index: i64) -> bool
        requires a { IsTestOf self.now.a.now self.now.n self.now.role self.now.in_a }
        requires near { index <ℤ pos (2 ^ 62) }
        ensures { result ≡ hold self.now.a.now self.now.n (pos 0) self.now.role index }
    {
        self.in_a.has(index)
    }

    fn holds_b(&self, index: i64) -> bool
        requires b { IsTestOf self.now.b.now self.now.n self.now.role self.now.in_b }
        requires near { index <ℤ pos (2 ^ 62) }
        ensures { result ≡ hold self.now.b.now self.now.n (pos 0) self.now.role index }
    {
        self.in_b.has(index)
    }

    fn has(&self, index: i64) -> bool
        requires a { IsTestOf self.now.a.now self.now.n self.now.role self.now.in_a }
        requires b { IsTestOf self.now.b.now self.now.n self.now.role self.now.in_b }
        requires near { index <ℤ pos (2 ^ 62) }
        ensures { result ≡ is_wanted self.now.wanted self.now.a.now self.now.b.now self.now.n self.now.role index }
    {
        match self.wanted {
            Wanted::Both => self.holds_a(index) && self.holds_b(index),
            Wanted::FirstAlone => self.holds_a(index) && !self.holds_b(index),
        }
    }

    /// The index, where it is wanted and less than the best so far, else the best so far.
    fn offered(&self, index: i64, best: Option<Rank>) -> Option<Rank>
        requires a { IsTestOf self.now.a.now self.now.n self.now.role self.now.in_a }
        requires b { IsTestOf self.now.b.now self.now.n self.now.role self.now.in_b }
        requires near { index <ℤ pos (2 ^ 62) }
        ensures { result ≡ offered self.now.wanted self.now.a.now self.now.b.now self.now.n self.now.role index best }
    {
        if is_less(self.role, index, best) && self.has(index) {
            Some(Rank {
                role: self.role,
                index,
            })
        } else {
            best
        }
    }

    /// Both ends of the guard, offered.
    fn with_both(&self, guard: &Guard, best: Option<Rank>) -> Option<Rank>
        requires a { IsTestOf self.now.a.now self.now.n self.now.role self.now.in_a }
        requires b { IsTestOf self.now.b.now self.now.n self.now.role self.now.in_b }
        requires small { IsSmallGuard guard.now }
        requires own { guard.now.role ≡ self.now.role }
        requires near { IsNear self.now.n }
        ensures { result ≡ with_both self.now.wanted self.now.a.now self.now.b.now self.now.n guard.now best }
    {
        let low = self.offered(low_at(guard, self.n), best);
        self.offered(past_high(guard, self.n), low)
    }

    /// The ends of all the guards, offered in turn.
    fn best_of(&self, guards: &[Guard], first: Option<Rank>) -> Option<Rank>
        requires a { IsTestOf self.now.a.now self.now.n self.now.role self.now.in_a }
        requires b { IsTestOf self.now.b.now self.now.n self.now.role self.now.in_b }
        requires small { All IsSmallGuard guards.now }
        requires own { All (IsOfRole self.now.role) guards.now }
        requires near { IsNear self.now.n }
        ensures { result ≡ best_of self.now.wanted self.now.a.now self.now.b.now self.now.n guards.now first }
    {
        let mut best = first;
        for guard in guards {
            best = self.with_both(guard, best);
        }
        best
    }
}

/// The least rank that guards of one role single out at N = n, in time `g log g`.
fn best_at(
    alloc: Global,
    wanted: Wanted,
    a: &[Guard],
    b: &[Guard],
    n: i64,
    role: u32,
) -> Result<Option<Rank>, NoMemory>
    requires a_small { All IsSmallGuard a.now }
    requires b_small { All IsSmallGuard b.now }
    requires a_bounded { All IsBounded a.now }
    requires b_bounded { All IsBounded b.now }
    requires a_own { All (IsOfRole role) a.now }
    requires b_own { All (IsOfRole role) b.now }
    requires near { IsNear n }
    ensures { IfOk result (λ r. r ≡ best_at wanted a.now b.now n) }
{
    let in_a = cover_of(alloc, a, n, role)?;
    let in_b = cover_of(alloc, b, n, role)?;
    let region = Region {
        wanted,
        n,
        role,
        a,
        b,
        in_a,
        in_b,
    };
    let first = region.best_of(a, None);
    Ok(region.best_of(b, first))
}

/// The first of the numbers at which guards of one role single out a rank, with the least such rank.
pub(crate) fn first_of_role(
    alloc: Global,
    numbers: &[i64],
    wanted: Wanted,
    a: &[Guard],
    b: &[Guard],
    role: u32,
) -> Result<Option<Bad>, NoMemory>
    requires a_small { All IsSmallGuard a.now }
    requires b_small { All IsSmallGuard b.now }
    requires a_bounded { All IsBounded a.now }
    requires b_bounded { All IsBounded b.now }
    requires a_own { All (IsOfRole role) a.now }
    requires b_own { All (IsOfRole role) b.now }
    requires near { IsNearList numbers.now }
    ensures { IfOk result (λ r. MatchOption r (IsNotFound wanted a.now b.now numbers.now) (λ bad. IsFound wanted a.now b.now numbers.now bad)) }
{
    for (i, n) in numbers.iter().enumerate() {
        if let Some(rank) = best_at(alloc, wanted, a, b, *n, role)? {
            return Ok(Some(Bad {
                n: *n,
                role: rank.role,
                index: rank.index,
            }));
        }
    }
    Ok(None)
}
