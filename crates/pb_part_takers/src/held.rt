ghost use Rattle.std.specs.Prelude.{◌≡◌, ◌<◌, ◌≤ℤ◌, ℕ, ℤ, true, ◌||◌, List, length, OnOk, IfOk};
ghost use Rattle.std.specs.List.{All};
ghost use Rattle.pb_affine.specs.declared.lin.Lin.{Lin};
ghost use Rattle.pb_affine.specs.declared.range.NRange.{NRange};
ghost use Rattle.pb_part_areas.specs.Areas.{at, has, have, is_before};
ghost use Rattle.pb_part_areas.specs.Fits.{Fits};
ghost use Rattle.pb_core_language.specs.Lists.{nth};
ghost use Rattle.pb_core_language.specs.FlatOf.{between};
ghost use Rattle.pb_part_takers.specs.Loops.{ids_of, held_of, HeldFit, IsInside};

use pb_affine::Lin;
use pb_part_areas::{Area, cloned, tidied};
use pb_text::NoMemory;
use std::alloc::Global;
use std::rc::Rc;

/// A loop, with the areas of the ranks that take part in its body for a reason other than its continue. All lists of loops that have
/// the loop share them.
#[derive(Drop)]
pub struct Held {
    pub id: u32,
    pub areas: Rc<Vec<Area>>,
}

/// How long a list is at most that holds some ranks more than once.
const MOST: usize = 4096;

/// True only where the first end of numbers N isn't after the second.
fn is_no_later(until: Option<u32>, other: Option<u32>) -> bool
    ensures { result ≡ true → (n : ℤ) → is_before n until ≡ true → is_before n other ≡ true }
{
    match (until, other) {
        (_, None) => true,
        (None, Some(_)) => false,
        (Some(until), Some(other)) => until <= other,
    }
}

/// True only where the first lin isn't above the second, whatever N is. Lins over two bases are not compared.
fn is_no_higher(low: Lin, high: Lin) -> bool
    ensures { result ≡ true → (n : ℤ) → at low n ≤ℤ at high n }
{
    low.base == high.base && low.off <= high.off
}

/// True only where the second area holds of all that the first holds of.
#[tactic(auto, using(pb_part_areas::proofs::Covers::cover))]
fn is_part(a: Area, b: Area) -> bool
    ensures { result ≡ true → (n : ℤ) (role : ℕ) (x : ℤ) → has a n role x ≡ true → has b n role x ≡ true }
{
    a.role == b.role
        && b.from <= a.from
        && is_no_later(a.until, b.until)
        && is_no_higher(b.low, a.low)
        && is_no_higher(a.end, b.end)
}

/// The place of the first area, from a place of the list on, that holds of all that `a` holds of, or the list's length.
fn place_around(list: &[Area], from: usize, a: Area) -> usize
    ensures { result < length list.now → (n : ℤ) (role : ℕ) (x : ℤ) → has a n role x ≡ true → have list.now n role x ≡ true }
{
    for i in from..list.len() {
        if is_part(a, list[i]) {
            return i;
        }
    }
    list.len()
}

/// True only where the list holds of all that the areas hold of. Goes through both once, so areas in another order than in the
/// list are not found there.
fn are_there(list: &[Area], areas: &[Area]) -> bool
    ensures { result ≡ true → (n : ℤ) (role : ℕ) (x : ℤ) → have areas.now n role x ≡ true → have list.now n role x ≡ true }
{
    let mut place = 0;
    for a in areas {
        place = place_around(list, place, *a);
        if place >= list.len() {
            return false;
        }
    }
    true
}

/// Adds the areas as they are, unless they are there. What is long then is made shorter, since many continues may add the same areas.
fn gather_held(alloc: Global, out: &mut Vec<Area>, areas: &[Area]) -> Result<(), NoMemory>
    ensures is { OnOk result ((n : ℤ) (role : ℕ) (x : ℤ) → have out.new.items n role x ≡ have out.old.items n role x || have areas.now n role x) }
    ensures fits { OnOk result ((range : NRange) (cuts : List Lin) → All (Fits range cuts) out.old.items → All (Fits range cuts) areas.now → All (Fits range cuts) out.new.items) }
{
    if are_there(out, areas) {
        return Ok(());
    }
    for a in areas {
        out.push(*a)?;
    }
    if out.len() > MOST {
        let list = cloned(alloc, out)?;
        *out = tidied(alloc, list)?;
    }
    Ok(())
}

/// Adds the ranks that the innermost loop with this id holds. None where there is no such loop.
pub fn add_held(alloc: Global, out: &mut Vec<Area>, id: u32, held: &[Held]) -> Result<(), NoMemory>
    ensures is { OnOk result ((n : ℤ) (role : ℕ) (x : ℤ) → have out.new.items n role x ≡ have out.old.items n role x || nth (held_of held.now n role x) (between id (ids_of held.now))) }
    ensures fits { OnOk result ((range : NRange) (cuts : List Lin) → All (Fits range cuts) out.old.items → HeldFit range cuts held.now → All (Fits range cuts) out.new.items) }
{
    for h in held {
        if id == h.id {
            return gather_held(alloc, out, &h.areas);
        }
    }
    Ok(())
}

/// The loops with one more, which stands inside them.
pub fn with_loop(
    alloc: Global,
    held: &[Held],
    id: u32,
    areas: Vec<Area>,
) -> Result<Vec<Held>, NoMemory>
    ensures { IfOk result (λ v. IsInside held.now id areas.items v.items) }
{
    let mut list = Vec::new(alloc);
    let areas = Rc::new(alloc, areas)?;
    list.push(Held { id, areas })?;
    for h in held {
        let areas = h.areas.clone()?;
        list.push(Held { id: h.id, areas })?;
    }
    Ok(list)
}
