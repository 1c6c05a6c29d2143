//! Long lists of areas, put in order and joined.

ghost use Rattle.std.specs.Prelude.{◌≡◌, ℕ, ℤ, true, ◌||◌, List, OnOk, IfOk, IfSome};
ghost use Rattle.std.specs.List.{All};
ghost use Rattle.pb_affine.specs.declared.lin.Lin.{Lin};
ghost use Rattle.pb_affine.specs.declared.range.NRange.{NRange};
ghost use Rattle.pb_part_areas.specs.Areas.{has, have, have_two, IsSomewhere, AreSomewhere};
ghost use Rattle.pb_part_areas.specs.Fits.{Fits, FitTwo};
ghost use Rattle.pb_part_areas.specs.Joins.{IsUnion};

use crate::area::Area;
use crate::cover::{covers, is_below, is_covered};
use crate::cut::Two;
use crate::empty::{is_empty, tightened};
use crate::join::{joined, push};
use crate::long::cloned;
use crate::numbers::is_param;
use crate::pair::keep;
use crate::sets::{absorb, add_new};
use pb_text::NoMemory;
use std::alloc::Global;

/// How long a list is at most in which an area is put together with any other; in a longer one it is put together with the last.
pub(crate) const SHORT: usize = 64;

/// One area, where the second begins within the first or at its end, and doesn't end before it.
fn linked(a: Area, b: Area) -> Option<Area>
    ensures { IfSome result (λ m. IsUnion a b m) }
{
    if a.role == b.role
        && a.from == b.from
        && a.until == b.until
        && is_below(a.low, b.low, a, a)
        && is_below(b.low, a.end, a, a)
        && is_below(a.end, b.end, a, a)
    {
        Some(Area { end: b.end, ..a })
    } else {
        None
    }
}

/// Both areas as one, where one holds of all that the other holds of, or the second begins within the first or at its end.
fn as_one(a: Area, b: Area) -> Option<Area>
    ensures { IfSome result (λ m. IsUnion a b m) }
{
    if covers(a, b) {
        Some(a)
    } else if covers(b, a) {
        Some(b)
    } else {
        linked(a, b).or(joined(a, b))
    }
}

fn add_behind(out: &mut Vec<Area>, last: Area, a: Area) -> Result<(), NoMemory>
    ensures is { OnOk result ((n : ℤ) (role : ℕ) (x : ℤ) → have out.new.items n role x ≡ have out.old.items n role x || (has last n role x || has a n role x)) }
    ensures fits { OnOk result ((range : NRange) (cuts : List Lin) → All (Fits range cuts) out.old.items → Fits range cuts last → Fits range cuts a → All (Fits range cuts) out.new.items) }
    ensures some { OnOk result (AreSomewhere out.old.items → IsSomewhere last → IsSomewhere a → AreSomewhere out.new.items) }
{
    match as_one(last, a) {
        Some(both) => keep(out, both),
        None => {
            keep(out, last)?;
            keep(out, a)
        }
    }
}

/// Adds the area, put together with the last of the list where that makes one area of them.
fn add_next(out: &mut Vec<Area>, a: Area) -> Result<(), NoMemory>
    ensures is { OnOk result ((n : ℤ) (role : ℕ) (x : ℤ) → have out.new.items n role x ≡ have out.old.items n role x || has a n role x) }
    ensures fits { OnOk result ((range : NRange) (cuts : List Lin) → All (Fits range cuts) out.old.items → Fits range cuts a → All (Fits range cuts) out.new.items) }
    ensures some { OnOk result (AreSomewhere out.old.items → IsSomewhere a → AreSomewhere out.new.items) }
{
    match out.pop() {
        None => keep(out, a),
        Some(last) => add_behind(out, last, a),
    }
}

/// Adds the area, unless it holds of nothing: put together with neighbours in a short list, in a long one with its last area.
pub fn attach(out: &mut Vec<Area>, a: Area) -> Result<(), NoMemory>
    ensures is { OnOk result ((n : ℤ) (role : ℕ) (x : ℤ) → have out.new.items n role x ≡ have out.old.items n role x || has a n role x) }
    ensures fits { OnOk result ((range : NRange) (cuts : List Lin) → All (Fits range cuts) out.old.items → Fits range cuts a → All (Fits range cuts) out.new.items) }
    ensures some { OnOk result (AreSomewhere out.old.items → AreSomewhere out.new.items) }
{
    if out.len() < SHORT {
        return push(out, a);
    }
    let part = tightened(a);
    if is_empty(part) {
        Ok(())
    } else {
        add_next(out, part)
    }
}

/// Adds both areas, as `attach` does.
pub(crate) fn attach_two(out: &mut Vec<Area>, two: Two) -> Result<(), NoMemory>
    ensures is { OnOk result ((n : ℤ) (role : ℕ) (x : ℤ) → have out.new.items n role x ≡ have out.old.items n role x || have_two two n role x) }
    ensures fits { OnOk result ((range : NRange) (cuts : List Lin) → All (Fits range cuts) out.old.items → FitTwo range cuts two → All (Fits range cuts) out.new.items) }
    ensures some { OnOk result (AreSomewhere out.old.items → AreSomewhere out.new.items) }
{
    attach(out, two.first)?;
    attach(out, two.second)?;
    Ok(())
}

/// Adds all areas of the list, as `attach` does.
pub fn attach_all(out: &mut Vec<Area>, more: &[Area]) -> Result<(), NoMemory>
    ensures is { OnOk result ((n : ℤ) (role : ℕ) (x : ℤ) → have out.new.items n role x ≡ have out.old.items n role x || have more.now n role x) }
    ensures fits { OnOk result ((range : NRange) (cuts : List Lin) → All (Fits range cuts) out.old.items → All (Fits range cuts) more.now → All (Fits range cuts) out.new.items) }
    ensures some { OnOk result (AreSomewhere out.old.items → AreSomewhere out.new.items) }
{
    for a in more {
        attach(out, *a)?;
    }
    Ok(())
}

/// The same ranks, with each area put together with the one before it where that makes one area of them.
fn chained(alloc: Global, list: &[Area]) -> Result<Vec<Area>, NoMemory>
    ensures is { IfOk result (λ v. (n : ℤ) (role : ℕ) (x : ℤ) → have v.items n role x ≡ have list.now n role x) }
    ensures fits { IfOk result (λ v. (range : NRange) (cuts : List Lin) → All (Fits range cuts) list.now → All (Fits range cuts) v.items) }
{
    let mut out = Vec::new(alloc);
    for a in list {
        add_next(&mut out, *a)?;
    }
    Ok(out)
}

/// True where one end of the area moves with N, and the other doesn't.
fn is_wide(a: Area) -> bool {
    is_param(a.low.base) != is_param(a.end.base)
}

/// Adds what the area holds of, where one of its ends alone moves with N.
fn add_wide(alloc: Global, out: &mut Vec<Area>, a: Area) -> Result<(), NoMemory>
    ensures within { OnOk result ((n : ℤ) (role : ℕ) (x : ℤ) → have out.new.items n role x ≡ true → have out.old.items n role x || has a n role x ≡ true) }
    ensures fits { OnOk result ((range : NRange) (cuts : List Lin) → All (Fits range cuts) out.old.items → Fits range cuts a → All (Fits range cuts) out.new.items) }
{
    if is_wide(a) {
        add_new(alloc, out, a)
    } else {
        Ok(())
    }
}

/// The ranks of those areas of the list of which one end alone moves with N.
fn wide_of(alloc: Global, list: &[Area]) -> Result<Vec<Area>, NoMemory>
    ensures within { IfOk result (λ v. (n : ℤ) (role : ℕ) (x : ℤ) → have v.items n role x ≡ true → have list.now n role x ≡ true) }
    ensures fits { IfOk result (λ v. (range : NRange) (cuts : List Lin) → All (Fits range cuts) list.now → All (Fits range cuts) v.items) }
{
    let mut out = Vec::new(alloc);
    for a in list {
        add_wide(alloc, &mut out, *a)?;
    }
    Ok(out)
}

/// Adds the area, unless an area of `wide`, which is in the list, holds of all that it holds of.
fn add_beside(out: &mut Vec<Area>, wide: &[Area], a: Area) -> Result<(), NoMemory>
    ensures is { OnOk result ((n : ℤ) (role : ℕ) (x : ℤ) → have out.new.items n role x || have wide.now n role x ≡ (have out.old.items n role x || has a n role x) || have wide.now n role x) }
    ensures fits { OnOk result ((range : NRange) (cuts : List Lin) → All (Fits range cuts) out.old.items → Fits range cuts a → All (Fits range cuts) out.new.items) }
    ensures kept { OnOk result ((n : ℤ) (role : ℕ) (x : ℤ) → have out.old.items n role x ≡ true → have out.new.items n role x ≡ true) }
{
    if is_covered(wide, a) {
        Ok(())
    } else {
        keep(out, a)
    }
}

/// The same ranks: the areas of which one end alone moves with N, and those of the others that none of these holds of.
fn spread(alloc: Global, list: &[Area]) -> Result<Vec<Area>, NoMemory>
    ensures is { IfOk result (λ v. (n : ℤ) (role : ℕ) (x : ℤ) → have v.items n role x ≡ have list.now n role x) }
    ensures fits { IfOk result (λ v. (range : NRange) (cuts : List Lin) → All (Fits range cuts) list.now → All (Fits range cuts) v.items) }
{
    let wide = wide_of(alloc, list)?;
    let mut out = cloned(alloc, &wide)?;
    for a in list {
        add_beside(&mut out, &wide, *a)?;
    }
    Ok(out)
}

/// What areas are sorted by: those whose ends move alike by their low ends.
fn place_of(a: &Area) -> (u32, u32, Option<u32>, bool, bool, i32) {
    let low = is_param(a.low.base);
    let end = is_param(a.end.base);
    (a.role, a.from, a.until, low, end, a.low.off)
}

fn ends_of(a: &Area) -> (u32, bool, bool, i32, u32) {
    let low = is_param(a.low.base);
    let end = is_param(a.end.base);
    (a.role, low, end, a.low.off, a.from)
}

/// The same areas in the order of role, numbers N and index.
fn sorted(list: Vec<Area>) -> Vec<Area>
    ensures is { (n : ℤ) (role : ℕ) (x : ℤ) → have result.items n role x ≡ have list.items n role x }
    ensures fits { (range : NRange) (cuts : List Lin) → All (Fits range cuts) list.items → All (Fits range cuts) result.items }
{
    let mut areas = list;
    areas.sort_unstable_by_key(|a| place_of(a));
    areas
}

/// The same areas in the order of role, index and numbers N.
fn sorted_by_ends(list: Vec<Area>) -> Vec<Area>
    ensures is { (n : ℤ) (role : ℕ) (x : ℤ) → have result.items n role x ≡ have list.items n role x }
    ensures fits { (range : NRange) (cuts : List Lin) → All (Fits range cuts) list.items → All (Fits range cuts) result.items }
{
    let mut areas = list;
    areas.sort_unstable_by_key(|a| ends_of(a));
    areas
}

/// The same ranks, sorted. Areas go out that hold of the same indices as another, at fewer numbers N.
pub fn ordered(alloc: Global, list: Vec<Area>) -> Result<Vec<Area>, NoMemory>
    ensures is { IfOk result (λ v. (n : ℤ) (role : ℕ) (x : ℤ) → have v.items n role x ≡ have list.items n role x) }
    ensures fits { IfOk result (λ v. (range : NRange) (cuts : List Lin) → All (Fits range cuts) list.items → All (Fits range cuts) v.items) }
{
    let by_ends = sorted_by_ends(list);
    let few = chained(alloc, &by_ends)?;
    let areas = sorted(few);
    Ok(areas)
}

/// The same ranks in fewer areas. Those of a short list are apart as far as that takes few more; a long one is sorted by role,
/// numbers N and index, and areas that touch are one where their ends move alike.
pub fn tidied(alloc: Global, list: Vec<Area>) -> Result<Vec<Area>, NoMemory>
    ensures is { IfOk result (λ v. (n : ℤ) (role : ℕ) (x : ℤ) → have v.items n role x ≡ have list.items n role x) }
    ensures fits { IfOk result (λ v. (range : NRange) (cuts : List Lin) → All (Fits range cuts) list.items → All (Fits range cuts) v.items) }
{
    let mut out = Vec::new(alloc);
    if list.len() <= SHORT {
        absorb(alloc, &mut out, &list)?;
        return Ok(out);
    }
    let areas = ordered(alloc, list)?;
    let chain = chained(alloc, &areas)?;
    if chain.len() <= SHORT {
        absorb(alloc, &mut out, &chain)?;
        Ok(out)
    } else {
        spread(alloc, &chain)
    }
}

/// True only where the area at this place of the list holds of all that `a` holds of.
fn is_within(list: &[Area], place: usize, a: Area) -> bool
    ensures { result ≡ true → (n : ℤ) (role : ℕ) (x : ℤ) → has a n role x ≡ true → have list.now n role x ≡ true }
{
    place < list.len() && covers(list[place], a)
}

/// True only where each area holds of no more than the one at its place in the other list.
fn are_within(list: &[Area], others: &[Area]) -> bool
    ensures { result ≡ true → (n : ℤ) (role : ℕ) (x : ℤ) → have list.now n role x ≡ true → have others.now n role x ≡ true }
{
    for (i, a) in list.iter().enumerate() {
        if !is_within(others, i, *a) {
            return false;
        }
    }
    true
}

/// The ranks of both lists, tidied, or the first list as it is, where the areas of the second are within its areas.
pub fn merged(alloc: Global, list: Vec<Area>, more: &[Area]) -> Result<Vec<Area>, NoMemory>
    ensures is { IfOk result (λ v. (n : ℤ) (role : ℕ) (x : ℤ) → have v.items n role x ≡ have list.items n role x || have more.now n role x) }
    ensures fits { IfOk result (λ v. (range : NRange) (cuts : List Lin) → All (Fits range cuts) list.items → All (Fits range cuts) more.now → All (Fits range cuts) v.items) }
{
    if are_within(more, &list) {
        return Ok(list);
    }
    let mut all = list;
    for a in more {
        keep(&mut all, *a)?;
    }
    let areas = tidied(alloc, all)?;
    Ok(areas)
}
