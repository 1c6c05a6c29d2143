ghost use Rattle.std.specs.Prelude.{◌≡◌, ℤ, pos, MatchOption};
ghost use Rattle.pb_affine.specs.Values.{is_up_to};
ghost use Rattle.pb_part_areas.specs.Areas.{at, is_before};
ghost use Rattle.pb_choice.specs.Empties.{IsFirstEmpty, IsNeverEmpty, IsShortN, Tried, TriedEnds, TriedIf, any_open, gap_of, is_open, is_within, sooner};

use pb_affine::{Base, Lin, NRange};
use pb_part_areas::Area;

/// A number that may be an N.
#[derive(Clone, Copy)]
struct Moment {
    n: i64,
}

/// The least N of the range at which no area holds of anybody. Takes time in proportion to the square of the areas.
pub fn first_empty(list: &[Area], range: NRange) -> Option<i64>
    ensures { MatchOption result (IsNeverEmpty range list.now) (λ n. IsFirstEmpty range list.now n) }
{
    let mut best = tried(list, range, number(range.low), None);
    for area in list {
        best = tried_ends(list, range, *area, best);
    }
    best
}

fn tried_ends(list: &[Area], range: NRange, area: Area, best: Option<i64>) -> Option<i64>
    ensures { TriedEnds range list.now area best result }
{
    let first = tried_until(list, range, area.until, best);
    tried(list, range, gap(area), first)
}

fn tried_until(list: &[Area], range: NRange, until: Option<u32>, best: Option<i64>) -> Option<i64>
    ensures { TriedIf range list.now until best result }
{
    match until {
        None => best,
        Some(n) => tried(list, range, number(n), best),
    }
}

fn number(n: u32) -> Moment
    ensures is { result.n ≡ pos n }
    ensures short { IsShortN result.n }
{
    Moment { n: i64::from(n) }
}

fn gap(area: Area) -> Moment
    ensures is { result.n ≡ gap_of area }
    ensures short { IsShortN result.n }
{
    Moment {
        n: i64::from(area.end.off) - i64::from(area.low.off),
    }
}

// The best so far, or the number, where that is smaller and nobody is held at it.
fn tried(list: &[Area], range: NRange, at: Moment, best: Option<i64>) -> Option<i64>
    requires { IsShortN at.n }
    ensures { Tried range list.now at.n best result }
{
    if is_empty_at(list, range, at) {
        sooner(best, at)
    } else {
        best
    }
}

ghost use Rattle.std.specs.Prelude.{◌&&◌, not};

fn is_empty_at(list: &[Area], range: NRange, at: Moment) -> bool
    requires { IsShortN at.n }
    ensures { result ≡ (is_within range at.n && not (any_open list.now at.n)) }
{
    is_within(range, at) && !any_open(list, at)
}

fn is_within(range: NRange, at: Moment) -> bool
    ensures { result ≡ is_within range at.n }
{
    i64::from(range.low) <= at.n && is_up_to(at, range.high)
}

fn is_up_to(at: Moment, high: Option<u32>) -> bool
    ensures { result ≡ is_up_to at.n high }
{
    match high {
        None => true,
        Some(high) => at.n <= i64::from(high),
    }
}

fn sooner(best: Option<i64>, at: Moment) -> Option<i64>
    ensures { result ≡ sooner best at.n }
{
    match best {
        None => Some(at.n),
        Some(best) => Some(if at.n < best { at.n } else { best }),
    }
}

fn any_open(list: &[Area], at: Moment) -> bool
    requires { IsShortN at.n }
    ensures { result ≡ any_open list.now at.n }
{
    for area in list {
        if is_open(*area, at) {
            return true;
        }
    }
    false
}

fn is_open(area: Area, at: Moment) -> bool
    requires { IsShortN at.n }
    ensures { result ≡ is_open at.n area }
{
    value(area.low, at) < value(area.end, at)
        && i64::from(area.from) <= at.n
        && is_before(at, area.until)
}

fn value(lin: Lin, at_n: Moment) -> i64
    requires { IsShortN at_n.n }
    ensures { result ≡ at lin at_n.n }
{
    match lin.base {
        Base::Fixed | Base::Var => i64::from(lin.off),
        Base::Param => i64::from(lin.off) + at_n.n,
    }
}

fn is_before(at: Moment, until: Option<u32>) -> bool
    ensures { result ≡ is_before at.n until }
{
    match until {
        None => true,
        Some(until) => at.n < i64::from(until),
    }
}
