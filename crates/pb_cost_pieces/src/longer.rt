ghost use Rattle.std.specs.Prelude.{◌≡◌, ◌≤ℤ◌, ◌<ℤ◌, ◌+ℤ◌, pos, negsuc, IfOk, MatchOption};
ghost use Rattle.pb_cost_pieces.specs.Lines.{along, value_at, IsStep};
ghost use Rattle.pb_cost_pieces.specs.Building.{Extends, Leaves, Follows};

use crate::stretch::Stretch;

/// The stretch with the next number, where it goes on with it.
pub(crate) fn with_number(latest: &Stretch, value: i64) -> Option<Stretch>
    requires room { latest.now.to <ℤ pos 900000000000 }
    requires step { IsStep (pos 4100000) (value_at latest.now latest.now.to) value }
    ensures { MatchOption result (Leaves (λ n. value) latest.now) (λ next. Extends (λ n. value) (latest.now.to +ℤ pos 1) latest.now next) }
{
    if latest.from == latest.to {
        return Some(second(latest, value));
    }
    if latest.value(latest.to + 1) != value {
        return None;
    }
    Some(longer(latest, latest.to + 1))
}

/// A number alone, and the next one.
fn second(latest: &Stretch, value: i64) -> Stretch
    requires room { latest.now.to <ℤ pos 900000000000 }
    requires step { IsStep (pos 4100000) (value_at latest.now latest.now.to) value }
    requires single { latest.now.from ≡ latest.now.to }
    ensures { Extends (λ n. value) (latest.now.to +ℤ pos 1) latest.now result }
{
    Stretch::new(
        latest.from,
        latest.to + 1,
        latest.start,
        value - latest.start,
    )
}

/// The same line, up to `to`.
fn longer(latest: &Stretch, to: i64) -> Stretch
    requires more { latest.now.to <ℤ to }
    requires room { to ≤ℤ pos 900000000000 }
    ensures from { result.from ≡ latest.now.from }
    ensures to { result.to ≡ to }
    ensures start { result.start ≡ latest.now.start }
    ensures slope { result.slope ≡ latest.now.slope }
{
    Stretch::new(latest.from, to, latest.start, latest.slope)
}

/// The stretch with the numbers up to `to` on the line with this slope through its last number, where it goes on with them.
pub(crate) fn with_slope(latest: &Stretch, to: i64, slope: i64) -> Option<Stretch>
    requires more { latest.now.to <ℤ to }
    requires room { to ≤ℤ pos 900000000000 }
    requires slope_low { negsuc 4099999 ≤ℤ slope }
    requires slope_high { slope ≤ℤ pos 4100000 }
    ensures { MatchOption result (Leaves (along (value_at latest.now latest.now.to) slope latest.now.to) latest.now) (λ next. Extends (along (value_at latest.now latest.now.to) slope latest.now.to) to latest.now next) }
{
    if latest.from == latest.to {
        return Some(first_line(latest, to, slope));
    }
    if latest.slope != slope {
        return None;
    }
    Some(longer(latest, to))
}

/// A number alone, and the next ones.
fn first_line(latest: &Stretch, to: i64, slope: i64) -> Stretch
    requires more { latest.now.to <ℤ to }
    requires room { to ≤ℤ pos 900000000000 }
    requires slope_low { negsuc 4099999 ≤ℤ slope }
    requires slope_high { slope ≤ℤ pos 4100000 }
    requires single { latest.now.from ≡ latest.now.to }
    ensures { Extends (along (value_at latest.now latest.now.to) slope latest.now.to) to latest.now result }
{
    Stretch::new(latest.from, to, latest.start, slope)
}

/// The next number alone, behind the stretch.
pub(crate) fn number_behind(latest: &Stretch, value: i64) -> Stretch
    requires room { latest.now.to <ℤ pos 900000000000 }
    requires low { pos 0 ≤ℤ value }
    requires high { value ≤ℤ pos 4000000000000000000 }
    ensures { Follows (λ n. value) latest.now (latest.now.to +ℤ pos 1) result }
{
    let next = latest.to + 1;
    Stretch::new(next, next, value, 0)
}

/// The next numbers, up to `to`, on the line with this slope through the stretch's last number.
pub(crate) fn line_behind(latest: &Stretch, to: i64, slope: i64) -> Stretch
    requires more { latest.now.to <ℤ to }
    requires room { to ≤ℤ pos 900000000000 }
    requires slope_low { negsuc 4099999 ≤ℤ slope }
    requires slope_high { slope ≤ℤ pos 4100000 }
    requires low { pos 0 ≤ℤ (value_at latest.now latest.now.to +ℤ slope) }
    requires high { (value_at latest.now latest.now.to +ℤ slope) ≤ℤ pos 4000000000000000000 }
    ensures { Follows (along (value_at latest.now latest.now.to) slope latest.now.to) latest.now to result }
{
    let start = next_value(latest, slope);
    Stretch::new(latest.to + 1, to, start, slope)
}

/// The value at the next number.
fn next_value(latest: &Stretch, slope: i64) -> i64
    requires slope_low { negsuc 4099999 ≤ℤ slope }
    requires slope_high { slope ≤ℤ pos 4100000 }
    requires low { pos 0 ≤ℤ (value_at latest.now latest.now.to +ℤ slope) }
    requires high { (value_at latest.now latest.now.to +ℤ slope) ≤ℤ pos 4000000000000000000 }
    ensures { result ≡ value_at latest.now latest.now.to +ℤ slope }
{
    latest.value(latest.to) + slope
}
