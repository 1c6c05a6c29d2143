//! Entries that may have a rank in common with others.

ghost use Rattle.std.specs.Prelude.{◌≡◌, ◌≤ℤ◌, ◌+ℤ◌, ◌||◌, ◌⊎◌, pos, ℕ, ℤ, true, List, IfOk, IfSome};
ghost use Rattle.pb_part_areas.specs.Areas.{at, has, is_before};
ghost use Rattle.pb_part_firsts.specs.declared.firsts.Entry.{Entry};
ghost use Rattle.pb_part_firsts.specs.Firsts.{are_small};
ghost use Rattle.pb_choice_entries.specs.declared.pair.Pairing.{Pairing};
ghost use Rattle.pb_choice_entries.specs.Clashes.{pairs};
ghost use Rattle.pb_choice_entries.specs.Close.{IsAround};

use pb_affine::{Base, Lin};
use pb_part_areas::{Area, is_apart, spanned};
use pb_part_firsts::Entry;
use pb_text::NoMemory;
use std::alloc::Global;

/// The constant, or the lin where the constant is too large.
fn constant_or(value: i64, lin: Lin) -> Lin
    ensures { (result ≡ lin) ⊎ ((result.base ≡ Base.Fixed) × (result.off ≡ value)) }
{
    match i32::try_from(value) {
        Ok(off) => Lin {
            base: Base::Fixed,
            off,
        },
        Err(_) => lin,
    }
}

/// The value at N = n of a lin that moves with N.
fn value_at(n: u32, lin: Lin) -> i64
    ensures { result ≡ pos n +ℤ lin.off }
{
    i64::from(n) + i64::from(lin.off)
}

/// A lin that isn't above the area's low end at its numbers N: a constant, as far as there is one.
fn steady_low(a: Area) -> Lin
    ensures { (n : ℤ) → pos a.from ≤ℤ n → at result n ≤ℤ at a.low n }
{
    match a.low.base {
        Base::Param => constant_or(value_at(a.from, a.low), a.low),
        Base::Fixed | Base::Var => a.low,
    }
}

/// A lin that isn't below the area's end at its numbers N: a constant, as far as there is one.
fn steady_end(a: Area) -> Lin
    ensures { (n : ℤ) → is_before n a.until ≡ true → at a.end n ≤ℤ at result n }
{
    match (a.end.base, a.until) {
        (Base::Param, Some(until)) => constant_or(value_at(until, a.end), a.end),
        _ => a.end,
    }
}

/// An area that holds of all that the area holds of, with ends that don't move, as far as there is one.
fn steady(a: Area) -> Area
    ensures { (n : ℤ) (role : ℕ) (x : ℤ) → has a n role x ≡ true → has result n role x ≡ true }
{
    Area {
        low: steady_low(a),
        end: steady_end(a),
        ..a
    }
}

/// An area that holds of all that two areas hold of.
pub(crate) fn widened(a: Area, b: Area) -> Option<Area>
    ensures { IfSome result (λ m. (n : ℤ) (role : ℕ) (x : ℤ) → has a n role x || has b n role x ≡ true → has m n role x ≡ true) }
{
    match spanned(a, b) {
        Some(both) => Some(both),
        None => spanned(steady(a), steady(b)),
    }
}

/// An area that holds of all that these entries' areas hold of.
fn around(here: &[Entry]) -> Option<Area>
    ensures { IfSome result (λ a. IsAround a here.now) }
{
    let mut all = here.first()?.area;
    for entry in here {
        all = widened(all, entry.area)?;
    }
    Some(all)
}

/// The entries that may have a rank in common with the area.
fn close_to(alloc: Global, others: &[Entry], area: Area) -> Result<Vec<Entry>, NoMemory>
    ensures is { IfOk result (λ v. (p : Pairing) (here : List Entry) → IsAround area here → (n : ℤ) (role : ℕ) (x : ℤ) → pairs p here v.items n role x ≡ pairs p here others.now n role x) }
    ensures small { IfOk result (λ v. are_small others.now ≡ true → are_small v.items ≡ true) }
{
    let mut out = Vec::new(alloc);
    for entry in others {
        if !is_apart(entry.area, area) {
            out.push(*entry)?;
        }
    }
    Ok(out)
}

/// The others that may have a rank in common with the entries, unless they are nearly all or no area is known around these.
pub(crate) fn few_close(
    alloc: Global,
    here: &[Entry],
    others: &[Entry],
) -> Result<Option<Vec<Entry>>, NoMemory>
    ensures is { IfOk result (λ o. IfSome o (λ v. (p : Pairing) (n : ℤ) (role : ℕ) (x : ℤ) → pairs p here.now v.items n role x ≡ pairs p here.now others.now n role x)) }
    ensures small { IfOk result (λ o. IfSome o (λ v. are_small others.now ≡ true → are_small v.items ≡ true)) }
{
    match around(here) {
        None => Ok(None),
        Some(area) => {
            let close = close_to(alloc, others, area)?;
            if close.len() > others.len() / 4 * 3 {
                return Ok(None);
            }
            Ok(Some(close))
        }
    }
}
