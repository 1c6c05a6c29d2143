ghost use Rattle.std.specs.Prelude.{◌≡◌, ◌≤◌, ◌<◌, ◌^◌, ℕ, ℤ, pos, ◌+ℤ◌, ◌-ℤ◌, ◌≤ℤ◌, ◌<ℤ◌, ◌⊎◌, true, false, int_le, int_lt, ◌&&◌, MatchOption};
ghost use Rattle.pb_affine.specs.Values.{is_up_to};
ghost use Rattle.pb_cases.specs.Breakpoints.{IsInRange};
ghost use Rattle.pb_cases.specs.Regions.{IsFirst, IsNowhere};
ghost use Rattle.pb_part_areas.specs.Areas.{has, have, at, is_before, is_param};
ghost use Rattle.pb_part_first.specs.First.{is_earlier_than, earlier, IsBest, IsEarliest};

use pb_affine::{Lin, NRange};
use pb_cases::Bad;
use pb_part_areas::{Area, is_param};

/// The value of a lin without a variable.
#[tactic(auto, using(pb_part_areas::proofs::Meets::at_still, pb_part_areas::proofs::Meets::at_grows))]
fn value(lin: Lin, n: i64) -> i64
    requires low { pos 0 ≤ℤ n }
    requires high { n <ℤ pos (2 ^ 34) }
    ensures { result ≡ at lin n }
{
    if is_param(lin.base) {
        i64::from(lin.off) + n
    } else {
        i64::from(lin.off)
    }
}

/// The least N of the range from which on the area speaks of any.
fn start_of(a: Area, range: NRange) -> i64
    ensures from { pos a.from ≤ℤ result }
    ensures low { pos range.low ≤ℤ result }
    ensures either { (result ≡ pos a.from) ⊎ (result ≡ pos range.low) }
    ensures high { result <ℤ pos (2 ^ 33) }
{
    let from = i64::from(a.from);
    let low = i64::from(range.low);
    if from < low { low } else { from }
}

/// The least N at which an end that grows is above a low end that doesn't.
fn gap_of(a: Area) -> i64
    ensures is { result ≡ (a.low.off -ℤ a.end.off) +ℤ pos 1 }
    ensures high { result <ℤ pos (2 ^ 33) }
{
    i64::from(a.low.off) - i64::from(a.end.off) + 1
}

/// The later of the area's start and the N at which it has an index.
fn grown_start(a: Area, range: NRange) -> i64
    requires still { is_param a.low.base ≡ false }
    requires grows { is_param a.end.base ≡ true }
    ensures is { IsEarliest a range result }
    ensures low { pos 0 ≤ℤ result }
    ensures high { result <ℤ pos (2 ^ 34) }
{
    let from = start_of(a, range);
    let gap = gap_of(a);
    if from < gap { gap } else { from }
}

/// The area has no index at an N of the range before this one.
fn earliest(a: Area, range: NRange) -> i64
    ensures is { IsEarliest a range result }
    ensures low { pos 0 ≤ℤ result }
    ensures high { result <ℤ pos (2 ^ 34) }
{
    if is_param(a.low.base) {
        start_of(a, range)
    } else if is_param(a.end.base) {
        grown_start(a, range)
    } else {
        start_of(a, range)
    }
}

fn is_before(n: i64, until: Option<u32>) -> bool
    ensures { result ≡ is_before n until }
{
    match until {
        None => true,
        Some(until) => n < i64::from(until),
    }
}

fn is_up_to(n: i64, high: Option<u32>) -> bool
    ensures { result ≡ is_up_to n high }
{
    match high {
        None => true,
        Some(high) => n <= i64::from(high),
    }
}

/// True where the area has an index at N = n, which is in the range.
fn is_there(a: Area, range: NRange, n: i64) -> bool
    requires low { pos 0 ≤ℤ n }
    requires high { n <ℤ pos (2 ^ 34) }
    ensures { result ≡ int_lt (at a.low n) (at a.end n) && is_before n a.until && is_up_to n range.high }
{
    value(a.low, n) < value(a.end, n) && is_before(n, a.until) && is_up_to(n, range.high)
}

/// Where the area first holds: at the least N of the range, of the least index.
fn first_of_one(a: Area, range: NRange) -> Option<Bad>
    ensures { IsBest range (has a) result }
{
    let n = earliest(a, range);
    if is_there(a, range, n) {
        Some(Bad {
            n,
            role: a.role,
            index: value(a.low, n),
        })
    } else {
        None
    }
}

fn is_earlier_than(bad: Bad, best: Option<Bad>) -> bool
    ensures { result ≡ is_earlier_than bad.n bad.role bad.index best }
{
    match best {
        None => true,
        Some(best) => {
            bad.n < best.n
                || bad.n == best.n
                    && (bad.role < best.role || bad.role == best.role && bad.index < best.index)
        }
    }
}

/// The earlier of two answers, where there is one.
fn earlier(best: Option<Bad>, found: Option<Bad>) -> Option<Bad>
    ensures { result ≡ earlier best found }
{
    match found {
        Some(bad) if is_earlier_than(bad, best) => Some(bad),
        _ => best,
    }
}

/// Where some area of the list first holds: the least N of the range, then the least role, then the least index. None
/// exactly where none holds of anything in the range. Takes no memory, and time in proportion to the list.
pub fn first_of(list: &[Area], range: NRange) -> Option<Bad>
    ensures { MatchOption result (IsNowhere range (have list.now)) (λ bad. IsFirst range (have list.now) bad.n bad.role bad.index) }
{
    let mut best = None;
    for a in list {
        best = earlier(best, first_of_one(*a, range));
    }
    best
}
