ghost use Rattle.std.specs.Prelude.{◌≡◌, ◌↔◌, ◌≤◌, ◌-ℤ◌, pos, length, true, IsTrue, IfOk, MatchResult};
ghost use Rattle.std.specs.List.{All, Contains};
ghost use Rattle.pb_affine.specs.declared.lin.Base.TheVariants.{Fixed};
ghost use Rattle.pb_affine.specs.Values.{is_up_to, IsNear, IsSmall};
ghost use Rattle.pb_cases.specs.Numbers.{IsAscending};
ghost use Rattle.pb_cases.specs.Breakpoints.{IsInRange, IsCut, Explains};
ghost use Rattle.pb_cases.specs.Building.{IsAdded, IsAddedTwice, IsPartOfAll, HasMeetings, HasAllMeetings};

use crate::ascending::{is_at, place_of};
use crate::fault::CaseFault;
use crate::guesses::Guesses;
use pb_affine::{Base, Lin, NRange};
use pb_text::NoMemory;
use std::alloc::Global;

/// The most breakpoints.
const MOST: usize = 4_096;

fn is_in_range(range: NRange, m: i64) -> bool
    ensures { IsTrue result ↔ IsInRange range m }
{
    i64::from(range.low) <= m
        && match range.high {
            None => true,
            Some(high) => m <= i64::from(high),
        }
}

/// Adds the number to the ascending list, where it is in the range.
fn add(list: &mut Vec<i64>, guesses: &mut Guesses, range: NRange, m: i64) -> Result<(), NoMemory>
    requires { IsAscending list.old.items }
    ensures { IfOk result (λ _. IsAdded range m list.old.items list.new.items) }
{
    if !is_in_range(range, m) {
        return Ok(());
    }
    if is_at(list, guesses.of(m), m) {
        return Ok(());
    }
    let i = place_of(list, m);
    guesses.learn(m, i);
    if is_at(list, i, m) {
        return Ok(());
    }
    list.insert(i, m)?;
    Ok(())
}

/// Adds the number and the one after it.
fn add_both(
    list: &mut Vec<i64>,
    guesses: &mut Guesses,
    range: NRange,
    m: i64,
) -> Result<(), NoMemory>
    requires ascending { IsAscending list.old.items }
    requires near { IsNear m }
    ensures { IfOk result (λ _. IsAddedTwice range m list.old.items list.new.items) }
{
    add(list, guesses, range, m)?;
    add(list, guesses, range, m + 1)?;
    Ok(())
}

/// The N at which the fixed cut meets the moving one.
fn meeting(d: Lin, c: Lin) -> i64
    requires d { IsSmall d.off }
    requires c { IsSmall c.off }
    ensures is { result ≡ d.off -ℤ c.off }
    ensures near { IsNear result }
{
    i64::from(d.off) - i64::from(c.off)
}

/// Adds what the fixed cut gives with all moving ones.
fn add_meetings(
    list: &mut Vec<i64>,
    guesses: &mut Guesses,
    range: NRange,
    cuts: &[Lin],
    d: Lin,
) -> Result<(), CaseFault>
    requires part { IsPartOfAll range cuts.now list.old.items }
    requires cuts { All IsCut cuts.now }
    requires fixed { d.base ≡ Fixed }
    requires own { Contains cuts.now d }
    requires few { length list.old.items ≤ 4096 }
    ensures { MatchResult result (λ _. HasMeetings range cuts.now list.old.items list.new.items d (length cuts.now) × (length list.new.items ≤ 4096)) (λ e. Explains range cuts.now e) }
{
    for c in cuts {
        if let Base::Param = c.base {
            add_both(list, guesses, range, meeting(d, *c))?;
            if list.len() > MOST {
                return Err(CaseFault::TooManyCases);
            }
        }
    }
    Ok(())
}

/// The breakpoints of the range and the cuts, ascending. Each pair of a fixed and a moving cut takes a look at a guess, and a
/// search where that is out of date.
pub(crate) fn breakpoints_of(
    alloc: Global,
    range: NRange,
    cuts: &[Lin],
) -> Result<Vec<i64>, CaseFault>
    requires cuts { All IsCut cuts.now }
    requires some { is_up_to (pos range.low) range.high ≡ true }
    ensures { MatchResult result (λ v. HasAllMeetings range cuts.now v.items (length cuts.now)) (λ e. Explains range cuts.now e) }
{
    let mut list = Vec::new(alloc);
    if list.push(i64::from(range.low)).is_err() {
        return Err(CaseFault::NoMemory);
    }
    let mut guesses = Guesses::new(alloc)?;
    for d in cuts {
        if let Base::Fixed = d.base {
            add_meetings(&mut list, &mut guesses, range, cuts, *d)?;
        }
    }
    Ok(list)
}
