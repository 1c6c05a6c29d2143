//! An area, for the numbers N of a list of areas alone.

ghost use Rattle.std.specs.Prelude.{◌≡◌, ◌<◌, ℕ, ℤ, pos, ◌||◌, int_le, int_lt, true, List, length};
ghost use Rattle.std.specs.List.{All};
ghost use Rattle.pb_affine.specs.declared.lin.Lin.{Lin};
ghost use Rattle.pb_affine.specs.declared.range.NRange.{NRange};
ghost use Rattle.pb_part_areas.specs.Areas.{has, have, is_before};
ghost use Rattle.pb_part_areas.specs.Fits.{Fits, IsEdgeOf, IsEdgeOfIf};

use crate::area::{Area, ahead, since};

/// The lesser of two numbers N.
pub(crate) fn least(from: u32, other: u32) -> u32
    ensures is { (n : ℤ) → int_le (pos result) n ≡ int_le (pos from) n || int_le (pos other) n }
    ensures edge { (range : NRange) (cuts : List Lin) → IsEdgeOf range cuts (pos from) → IsEdgeOf range cuts (pos other) → IsEdgeOf range cuts (pos result) }
{
    if other < from { other } else { from }
}

/// The least N of the areas, where `from` isn't less.
fn least_from(list: &[Area], from: u32) -> u32
    ensures is { (n : ℤ) (role : ℕ) (x : ℤ) → have list.now n role x ≡ true → int_le (pos result) n ≡ true }
    ensures edge { (range : NRange) (cuts : List Lin) → IsEdgeOf range cuts (pos from) → All (Fits range cuts) list.now → IsEdgeOf range cuts (pos result) }
{
    let mut low = from;
    for a in list {
        low = least(low, a.from);
    }
    low
}

fn later(until: u32, t: u32) -> u32
    ensures is { (n : ℤ) → int_lt n (pos result) ≡ int_lt n (pos until) || int_lt n (pos t) }
    ensures edge { (range : NRange) (cuts : List Lin) → IsEdgeOf range cuts (pos until) → IsEdgeOf range cuts (pos t) → IsEdgeOf range cuts (pos result) }
{
    if until < t { t } else { until }
}

fn later_than(t: u32, until: Option<u32>) -> Option<u32>
    ensures is { (n : ℤ) → is_before n result ≡ int_lt n (pos t) || is_before n until }
    ensures edge { (range : NRange) (cuts : List Lin) → IsEdgeOf range cuts (pos t) → IsEdgeOfIf range cuts until → IsEdgeOfIf range cuts result }
{
    match until {
        None => None,
        Some(until) => Some(later(t, until)),
    }
}

/// The later of two ends of numbers N.
pub(crate) fn later_end(until: Option<u32>, other: Option<u32>) -> Option<u32>
    ensures is { (n : ℤ) → is_before n result ≡ is_before n until || is_before n other }
    ensures edge { (range : NRange) (cuts : List Lin) → IsEdgeOfIf range cuts until → IsEdgeOfIf range cuts other → IsEdgeOfIf range cuts result }
{
    match until {
        None => None,
        Some(t) => later_than(t, other),
    }
}

/// The last end of the numbers N of the areas, where `until` isn't later.
fn last_until(list: &[Area], until: Option<u32>) -> Option<u32>
    ensures is { (n : ℤ) (role : ℕ) (x : ℤ) → have list.now n role x ≡ true → is_before n result ≡ true }
    ensures edge { (range : NRange) (cuts : List Lin) → IsEdgeOfIf range cuts until → All (Fits range cuts) list.now → IsEdgeOfIf range cuts result }
{
    let mut end = until;
    for a in list {
        end = later_end(end, a.until);
    }
    end
}

/// The part of the area from the first number N of a list that isn't empty up to its last.
fn within(a: Area, list: &[Area]) -> Area
    requires { 0 < length list.now }
    ensures is { (n : ℤ) (role : ℕ) (x : ℤ) → have list.now n role x ≡ true → has result n role x ≡ has a n role x }
    ensures fits { (range : NRange) (cuts : List Lin) → All (Fits range cuts) list.now → Fits range cuts a → Fits range cuts result }
{
    let first = list[0];
    let from = least_from(list, first.from);
    let until = last_until(list, first.until);
    ahead(since(a, from), until)
}

/// The part of the area from the first number N of the list up to its last: of the ranks of the list it loses none. Takes no
/// memory.
pub fn clipped(a: Area, list: &[Area]) -> Area
    ensures is { (n : ℤ) (role : ℕ) (x : ℤ) → have list.now n role x ≡ true → has result n role x ≡ has a n role x }
    ensures fits { (range : NRange) (cuts : List Lin) → All (Fits range cuts) list.now → Fits range cuts a → Fits range cuts result }
{
    if list.is_empty() { a } else { within(a, list) }
}
