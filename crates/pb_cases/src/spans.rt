ghost use Rattle.std.specs.Prelude.{◌≡◌, ◌≤ℤ◌, ◌<◌, ◌-◌, ◌⊎◌, length, IfOk};
ghost use Rattle.pb_cases.specs.Numbers.{nth};
ghost use Rattle.pb_cases.specs.Spans.{IsSpans, IsWithSpan, IsTops};

use crate::ascending::{is_at, place_of};
use pb_text::NoMemory;
use std::alloc::Global;

/// Adds the span from `low` to `high` to spans in the order of their low ends.
pub(crate) fn add_span(
    lows: &mut Vec<i64>,
    highs: &mut Vec<i64>,
    low: i64,
    high: i64,
) -> Result<(), NoMemory>
    requires { IsSpans lows.old.items highs.old.items }
    ensures { IfOk result (λ _. IsWithSpan low high lows.old.items highs.old.items lows.new.items highs.new.items) }
{
    let i = place_of(lows, low);
    if is_at(lows, i, low) {
        let top = higher(highs[i], high);
        highs[i] = top;
        return Ok(());
    }
    lows.insert(i, low)?;
    highs.insert(i, high)?;
    Ok(())
}

fn higher(a: i64, b: i64) -> i64
    ensures a { a ≤ℤ result }
    ensures b { b ≤ℤ result }
    ensures either { (result ≡ a) ⊎ (result ≡ b) }
{
    if a < b { b } else { a }
}

/// The high end, or the last top where that is higher.
fn next_top(tops: &[i64], high: i64) -> i64
    ensures own { high ≤ℤ result }
    ensures over { 0 < length tops.now → nth tops.now (length tops.now - 1) ≤ℤ result }
    ensures among { (result ≡ high) ⊎ ((0 < length tops.now) × (result ≡ nth tops.now (length tops.now - 1))) }
{
    let done = tops.len();
    if done > 0 && high < tops[done - 1] {
        tops[done - 1]
    } else {
        high
    }
}

/// The greatest high end so far, at each place.
pub(crate) fn tops_of(alloc: Global, highs: &[i64]) -> Result<Vec<i64>, NoMemory>
    ensures { IfOk result (λ v. IsTops highs.now v.items (length highs.now)) }
{
    let mut tops = Vec::new(alloc);
    for high in highs {
        let top = next_top(&tops, *high);
        tops.push(top)?;
    }
    Ok(tops)
}
