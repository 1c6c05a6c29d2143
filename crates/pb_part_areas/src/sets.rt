ghost use Rattle.std.specs.Prelude.{◌≡◌, ◌≤◌, ◌+◌, ℕ, ℤ, ◌&&◌, ◌||◌, not, List, length, OnOk, IfOk};
ghost use Rattle.std.specs.List.{All};
ghost use Rattle.pb_affine.specs.declared.lin.Lin.{Lin};
ghost use Rattle.pb_affine.specs.declared.range.NRange.{NRange};
ghost use Rattle.pb_part_areas.specs.Areas.{has, have, IsSomewhere, AreSomewhere};
ghost use Rattle.pb_part_areas.specs.Fits.{Fits};
ghost use Rattle.pb_part_areas.specs.Joins.{IsJoinedFrom, tried};

use crate::area::Area;
use crate::cover::{are_apart, covers, is_covered};
use crate::join::push;
use crate::pair::{keep, minus, overlap};
use crate::tidy::{SHORT, attach_all};
use pb_text::NoMemory;
use std::alloc::Global;

/// What some area of the list holds of and `b` doesn't.
fn less(alloc: Global, list: &[Area], b: Area) -> Result<Vec<Area>, NoMemory>
    ensures is { IfOk result (λ v. (n : ℤ) (role : ℕ) (x : ℤ) → have v.items n role x ≡ have list.now n role x && not (has b n role x)) }
    ensures fits { IfOk result (λ v. (range : NRange) (cuts : List Lin) → All (Fits range cuts) list.now → Fits range cuts b → All (Fits range cuts) v.items) }
    ensures some { IfOk result (λ v. AreSomewhere list.now → AreSomewhere v.items) }
{
    let mut out = Vec::new(alloc);
    for a in list {
        minus(&mut out, *a, b)?;
    }
    Ok(out)
}

/// The same of a list that can be used up.
fn lessened(alloc: Global, list: Vec<Area>, b: Area) -> Result<Vec<Area>, NoMemory>
    ensures is { IfOk result (λ v. (n : ℤ) (role : ℕ) (x : ℤ) → have v.items n role x ≡ have list.items n role x && not (has b n role x)) }
    ensures fits { IfOk result (λ v. (range : NRange) (cuts : List Lin) → All (Fits range cuts) list.items → Fits range cuts b → All (Fits range cuts) v.items) }
    ensures some { IfOk result (λ v. AreSomewhere list.items → AreSomewhere v.items) }
{
    if are_apart(&list, b) {
        Ok(list)
    } else {
        less(alloc, &list, b)
    }
}

/// What some area of `list` holds of and none of `others`.
pub fn without(alloc: Global, list: Vec<Area>, others: &[Area]) -> Result<Vec<Area>, NoMemory>
    ensures is { IfOk result (λ v. (n : ℤ) (role : ℕ) (x : ℤ) → have v.items n role x ≡ have list.items n role x && not (have others.now n role x)) }
    ensures fits { IfOk result (λ v. (range : NRange) (cuts : List Lin) → All (Fits range cuts) list.items → All (Fits range cuts) others.now → All (Fits range cuts) v.items) }
    ensures some { IfOk result (λ v. AreSomewhere list.items → AreSomewhere v.items) }
{
    let mut left = list;
    for b in others {
        left = lessened(alloc, left, *b)?;
    }
    Ok(left)
}

/// Adds what both the area and some area of the list hold of.
fn overlap_all(out: &mut Vec<Area>, a: Area, list: &[Area]) -> Result<(), NoMemory>
    ensures is { OnOk result ((n : ℤ) (role : ℕ) (x : ℤ) → have out.new.items n role x ≡ have out.old.items n role x || (has a n role x && have list.now n role x)) }
    ensures fits { OnOk result ((range : NRange) (cuts : List Lin) → All (Fits range cuts) out.old.items → Fits range cuts a → All (Fits range cuts) list.now → All (Fits range cuts) out.new.items) }
    ensures some { OnOk result (AreSomewhere out.old.items → AreSomewhere out.new.items) }
{
    for b in list {
        overlap(out, a, *b)?;
    }
    Ok(())
}

/// What some area of each list holds of.
pub fn common(alloc: Global, list: &[Area], others: &[Area]) -> Result<Vec<Area>, NoMemory>
    ensures is { IfOk result (λ v. (n : ℤ) (role : ℕ) (x : ℤ) → have v.items n role x ≡ have list.now n role x && have others.now n role x) }
    ensures fits { IfOk result (λ v. (range : NRange) (cuts : List Lin) → All (Fits range cuts) list.now → All (Fits range cuts) others.now → All (Fits range cuts) v.items) }
    ensures some { IfOk result (λ v. AreSomewhere v.items) }
{
    let mut out = Vec::new(alloc);
    for a in list {
        overlap_all(&mut out, *a, others)?;
    }
    Ok(out)
}

/// Adds all areas of the list. Where both lists have up to 64 areas together, no two neighbours are added.
pub fn add_all(out: &mut Vec<Area>, more: &[Area]) -> Result<(), NoMemory>
    ensures is { OnOk result ((n : ℤ) (role : ℕ) (x : ℤ) → have out.new.items n role x ≡ have out.old.items n role x || have more.now n role x) }
    ensures fits { OnOk result ((range : NRange) (cuts : List Lin) → All (Fits range cuts) out.old.items → All (Fits range cuts) more.now → All (Fits range cuts) out.new.items) }
    ensures some { OnOk result (AreSomewhere out.old.items → AreSomewhere out.new.items) }
    ensures joined { OnOk result ((from : ℕ) → length out.old.items + length more.now ≤ from + tried → IsJoinedFrom from out.old.items → IsJoinedFrom from out.new.items) }
{
    for a in more {
        push(out, *a)?;
    }
    Ok(())
}

/// One area as a list.
pub fn one(alloc: Global, a: Area) -> Result<Vec<Area>, NoMemory>
    ensures is { IfOk result (λ v. (n : ℤ) (role : ℕ) (x : ℤ) → have v.items n role x ≡ has a n role x) }
    ensures fits { IfOk result (λ v. (range : NRange) (cuts : List Lin) → Fits range cuts a → All (Fits range cuts) v.items) }
    ensures some { IfOk result (λ v. AreSomewhere v.items) }
{
    let mut list = Vec::new(alloc);
    push(&mut list, a)?;
    Ok(list)
}

/// Adds `b`, unless `a` holds of all that it holds of.
#[tactic(auto, using(crate::proofs::Covers::beside))]
fn keep_beside(out: &mut Vec<Area>, b: Area, a: Area) -> Result<(), NoMemory>
    ensures is { OnOk result ((n : ℤ) (role : ℕ) (x : ℤ) → have out.new.items n role x || has a n role x ≡ (have out.old.items n role x || has b n role x) || has a n role x) }
    ensures fits { OnOk result ((range : NRange) (cuts : List Lin) → All (Fits range cuts) out.old.items → Fits range cuts b → All (Fits range cuts) out.new.items) }
    ensures some { OnOk result (AreSomewhere out.old.items → IsSomewhere b → AreSomewhere out.new.items) }
{
    if covers(a, b) { Ok(()) } else { keep(out, b) }
}

/// The areas of the list that hold of more than the area does.
fn beside(alloc: Global, list: &[Area], a: Area) -> Result<Vec<Area>, NoMemory>
    ensures is { IfOk result (λ v. (n : ℤ) (role : ℕ) (x : ℤ) → have v.items n role x || has a n role x ≡ have list.now n role x || has a n role x) }
    ensures fits { IfOk result (λ v. (range : NRange) (cuts : List Lin) → All (Fits range cuts) list.now → All (Fits range cuts) v.items) }
    ensures some { IfOk result (λ v. AreSomewhere list.now → AreSomewhere v.items) }
{
    let mut out = Vec::new(alloc);
    for b in list {
        keep_beside(&mut out, *b, a)?;
    }
    Ok(out)
}

/// In how many pieces an area may be cut that is added to a list. Where there would be more, it is added whole.
const PIECES: usize = 8;

/// What the area holds of and none of the list, or the whole area, where that would be many pieces.
fn missing(alloc: Global, a: Area, list: &[Area]) -> Result<Vec<Area>, NoMemory>
    ensures is { IfOk result (λ v. (n : ℤ) (role : ℕ) (x : ℤ) → have v.items n role x || have list.now n role x ≡ has a n role x || have list.now n role x) }
    ensures fits { IfOk result (λ v. (range : NRange) (cuts : List Lin) → Fits range cuts a → All (Fits range cuts) list.now → All (Fits range cuts) v.items) }
    ensures some { IfOk result (λ v. AreSomewhere v.items) }
{
    let all = one(alloc, a)?;
    let mut left = all;
    for b in list {
        left = lessened(alloc, left, *b)?;
        if left.len() > PIECES {
            let uncut = one(alloc, a)?;
            return Ok(uncut);
        }
    }
    Ok(left)
}

/// The same ranks as those of the list and of the area, where no area of the list holds of all that the area holds of.
fn with_area(alloc: Global, list: &[Area], a: Area) -> Result<Vec<Area>, NoMemory>
    ensures is { IfOk result (λ v. (n : ℤ) (role : ℕ) (x : ℤ) → have v.items n role x ≡ have list.now n role x || has a n role x) }
    ensures fits { IfOk result (λ v. (range : NRange) (cuts : List Lin) → All (Fits range cuts) list.now → Fits range cuts a → All (Fits range cuts) v.items) }
    ensures some { IfOk result (λ v. AreSomewhere list.now → AreSomewhere v.items) }
{
    let mut out = beside(alloc, list, a)?;
    let new = missing(alloc, a, &out)?;
    add_all(&mut out, &new)?;
    Ok(out)
}

/// Adds what the area holds of, as far as it isn't there, or whole where that is many pieces. What it holds of whole goes out.
#[tactic(auto, using(crate::proofs::Covers::covered))]
pub fn add_new(alloc: Global, out: &mut Vec<Area>, a: Area) -> Result<(), NoMemory>
    ensures is { OnOk result ((n : ℤ) (role : ℕ) (x : ℤ) → have out.new.items n role x ≡ have out.old.items n role x || has a n role x) }
    ensures fits { OnOk result ((range : NRange) (cuts : List Lin) → All (Fits range cuts) out.old.items → Fits range cuts a → All (Fits range cuts) out.new.items) }
    ensures some { OnOk result (AreSomewhere out.old.items → AreSomewhere out.new.items) }
{
    if is_covered(out, a) {
        return Ok(());
    }
    if are_apart(out, a) {
        push(out, a)?;
        return Ok(());
    }
    let list = with_area(alloc, out, a)?;
    *out = list;
    Ok(())
}

/// Adds what the list holds of, as far as it isn't there.
pub fn absorb(alloc: Global, out: &mut Vec<Area>, more: &[Area]) -> Result<(), NoMemory>
    ensures is { OnOk result ((n : ℤ) (role : ℕ) (x : ℤ) → have out.new.items n role x ≡ have out.old.items n role x || have more.now n role x) }
    ensures fits { OnOk result ((range : NRange) (cuts : List Lin) → All (Fits range cuts) out.old.items → All (Fits range cuts) more.now → All (Fits range cuts) out.new.items) }
    ensures some { OnOk result (AreSomewhere out.old.items → AreSomewhere out.new.items) }
{
    for a in more {
        add_new(alloc, out, *a)?;
    }
    Ok(())
}

/// The same ranks once more. No two areas are neighbours, where the list has up to 64. The areas of a longer one are added as
/// `attach` does.
pub fn copied(alloc: Global, list: &[Area]) -> Result<Vec<Area>, NoMemory>
    ensures is { IfOk result (λ v. (n : ℤ) (role : ℕ) (x : ℤ) → have v.items n role x ≡ have list.now n role x) }
    ensures fits { IfOk result (λ v. (range : NRange) (cuts : List Lin) → All (Fits range cuts) list.now → All (Fits range cuts) v.items) }
    ensures some { IfOk result (λ v. AreSomewhere v.items) }
    ensures joined { IfOk result (λ v. length list.now ≤ tried → IsJoinedFrom 0 v.items) }
{
    let mut copy = Vec::new(alloc);
    if list.len() <= SHORT {
        add_all(&mut copy, list)?;
    } else {
        attach_all(&mut copy, list)?;
    }
    Ok(copy)
}
