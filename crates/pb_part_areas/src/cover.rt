//! Whether one area holds of all that another holds of, or of nothing of it.

ghost use Rattle.std.specs.Prelude.{◌≡◌, ◌≤ℤ◌, ℕ, ℤ, pos, int_lt, ◌&&◌, not, true};
ghost use Rattle.pb_affine.specs.declared.lin.Lin.{Lin};
ghost use Rattle.pb_part_areas.specs.declared.area.Area.{Area};
ghost use Rattle.pb_part_areas.specs.Areas.{at, has, have, is_before, is_when};

use crate::area::Area;
use crate::empty::is_upright;
use crate::numbers::{is_param, later};
use pb_affine::Lin;

/// True only where the first end of numbers N isn't after the second.
fn is_no_later(until: Option<u32>, other: Option<u32>) -> bool
    ensures { result ≡ true → (n : ℤ) → is_before n until ≡ true → is_before n other ≡ true }
{
    match other {
        None => true,
        Some(other) => ends_by(until, other),
    }
}

fn ends_by(until: Option<u32>, other: u32) -> bool
    ensures { result ≡ true → (n : ℤ) → is_before n until ≡ true → int_lt n (pos other) ≡ true }
{
    match until {
        None => false,
        Some(until) => until <= other,
    }
}

/// The earlier of two ends of numbers N.
fn sooner_end(until: Option<u32>, other: Option<u32>) -> Option<u32>
    ensures { (n : ℤ) → is_before n until ≡ true → is_before n other ≡ true → is_before n result ≡ true }
{
    if is_no_later(until, other) {
        until
    } else {
        other
    }
}

/// True only where the first lin isn't above the second, for each N that both areas speak of.
#[tactic(auto, using(crate::proofs::Parts::below_same))]
pub(crate) fn is_below(low: Lin, high: Lin, a: Area, b: Area) -> bool
    ensures { result ≡ true → (n : ℤ) → is_when n a ≡ true → is_when n b ≡ true → at low n ≤ℤ at high n }
{
    if is_param(low.base) == is_param(high.base) {
        low.off <= high.off
    } else {
        is_below_during(low, high, a, b)
    }
}

/// The same, by the numbers N of both.
fn is_below_during(low: Lin, high: Lin, a: Area, b: Area) -> bool
    ensures { result ≡ true → (n : ℤ) → is_when n a ≡ true → is_when n b ≡ true → at low n ≤ℤ at high n }
{
    is_upright(Area {
        role: a.role,
        low,
        end: high,
        from: later(a.from, b.from),
        until: sooner_end(a.until, b.until),
    })
}

/// True only where `b` holds of all that `a` holds of.
#[tactic(auto, using(crate::proofs::Covers::cover))]
#[inline(always)]
pub(crate) fn covers(b: Area, a: Area) -> bool
    ensures { result ≡ true → (n : ℤ) (role : ℕ) (x : ℤ) → has a n role x ≡ true → has b n role x ≡ true }
{
    a.role == b.role
        && b.from <= a.from
        && is_no_later(a.until, b.until)
        && is_below(b.low, a.low, a, a)
        && is_below(a.end, b.end, a, a)
}

/// True only where nothing is of both areas. Takes no memory.
#[tactic(auto, using(crate::proofs::Covers::apart_roles, crate::proofs::Covers::apart_first, crate::proofs::Covers::apart_second))]
#[inline(always)]
pub fn is_apart(a: Area, b: Area) -> bool
    ensures { result ≡ true → (n : ℤ) (role : ℕ) (x : ℤ) → has a n role x && not (has b n role x) ≡ has a n role x }
{
    if ends_by(a.until, b.from) || ends_by(b.until, a.from) {
        return true;
    }
    if a.role == b.role {
        is_below(a.end, b.low, a, b) || is_below(b.end, a.low, a, b)
    } else {
        true
    }
}

/// True only where some area of the list holds of all that `a` holds of.
pub(crate) fn is_covered(list: &[Area], a: Area) -> bool
    ensures { result ≡ true → (n : ℤ) (role : ℕ) (x : ℤ) → has a n role x ≡ true → have list.now n role x ≡ true }
{
    for b in list {
        if covers(*b, a) {
            return true;
        }
    }
    false
}

/// True only where nothing is of an area of the list and of `b`.
pub(crate) fn are_apart(list: &[Area], b: Area) -> bool
    ensures { result ≡ true → (n : ℤ) (role : ℕ) (x : ℤ) → have list.now n role x && not (has b n role x) ≡ have list.now n role x }
{
    for a in list {
        if !is_apart(*a, b) {
            return false;
        }
    }
    true
}
