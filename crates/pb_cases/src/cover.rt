ghost use Rattle.std.specs.Prelude.{◌≡◌, ◌↔◌, ◌<◌, ◌^◌, pos, ◌≤ℤ◌, ◌<ℤ◌, length, IfOk, IsTrue};
ghost use Rattle.std.specs.List.{All};
ghost use Rattle.pb_affine.specs.Values.{value, IsNear, IsSmallGuard};
ghost use Rattle.pb_cases.specs.Numbers.{nth};
ghost use Rattle.pb_cases.specs.Bounds.{low_end, or_zero, IsBounded};
ghost use Rattle.pb_cases.specs.Spans.{IsSpans, IsCovered, IsTops};
ghost use Rattle.pb_cases.specs.Live.{is_live, IsCoverOf};

use crate::ascending::place_of;
use crate::spans::{add_span, tops_of};
use pb_affine::Guard;
use pb_text::NoMemory;
use std::alloc::Global;

/// The guard is of the role, and n is one of its N.
fn is_live(guard: &Guard, n: i64, role: u32) -> bool
    requires near { IsNear n }
    ensures { result ≡ is_live guard.now n role }
{
    let without_ends = Guard {
        role: guard.role,
        low: None,
        high: None,
        from: guard.from,
        to: guard.to,
    };
    without_ends.holds(n, 0, role, 0)
}

/// The guard's low end at N = n, 0 where there is none.
pub(crate) fn low_at(guard: &Guard, n: i64) -> i64
    requires small { IsSmallGuard guard.now }
    requires near { IsNear n }
    ensures is { result ≡ value (low_end guard.now) n (pos 0) }
    ensures near { result <ℤ pos (2 ^ 61) }
{
    match guard.low {
        None => 0,
        Some(low) => low.value(n, 0),
    }
}

/// The guard's high end at N = n, 0 where there is none.
pub(crate) fn high_at(guard: &Guard, n: i64) -> i64
    requires small { IsSmallGuard guard.now }
    requires near { IsNear n }
    ensures is { result ≡ value (or_zero guard.now.high) n (pos 0) }
    ensures near { result <ℤ pos (2 ^ 61) }
{
    match guard.high {
        None => 0,
        Some(high) => high.value(n, 0),
    }
}

/// The indices of one role, at one N, for which some guard of a list holds.
#[derive(Drop)]
pub(crate) struct Cover {
    lows: Vec<i64>,
    highs: Vec<i64>,
    tops: Vec<i64>,
}

impl Cover {
    /// True where some guard holds for the index: by one binary search.
    pub(crate) fn has(&self, index: i64) -> bool
        requires spans { IsSpans self.now.lows.items self.now.highs.items }
        requires tops { IsTops self.now.highs.items self.now.tops.items (length self.now.lows.items) }
        requires near { index <ℤ pos (2 ^ 62) }
        ensures { IsTrue result ↔ IsCovered self.now.lows.items self.now.highs.items index }
    {
        let p = place_of(&self.lows, index + 1);
        if p == 0 {
            return false;
        }
        is_up_to_top(&self.tops, p - 1, index)
    }
}

fn is_up_to_top(tops: &[i64], k: usize, index: i64) -> bool
    requires { k < length tops.now }
    ensures { IsTrue result ↔ index ≤ℤ nth tops.now k }
{
    index <= tops[k]
}

/// What the guards cover of the role at N = n, in time `g log g`.
pub(crate) fn cover_of(
    alloc: Global,
    guards: &[Guard],
    n: i64,
    role: u32,
) -> Result<Cover, NoMemory>
    requires bounded { All IsBounded guards.now }
    requires small { All IsSmallGuard guards.now }
    requires near { IsNear n }
    ensures { IfOk result (λ s. IsCoverOf guards.now n role s.lows.items s.highs.items × IsTops s.highs.items s.tops.items (length s.lows.items)) }
{
    let mut lows = Vec::new(alloc);
    let mut highs = Vec::new(alloc);
    for guard in guards {
        if is_live(guard, n, role) {
            add_span(&mut lows, &mut highs, low_at(guard, n), high_at(guard, n))?;
        }
    }
    let tops = tops_of(alloc, &highs)?;
    Ok(Cover { lows, highs, tops })
}
