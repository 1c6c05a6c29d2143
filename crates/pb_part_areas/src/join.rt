ghost use Rattle.std.specs.Prelude.{◌≡◌, ◌<◌, ◌≤◌, ◌+◌, ℕ, ℤ, ◌||◌, List, length, OnOk, MatchOption};
ghost use Rattle.std.specs.List.{All};
ghost use Rattle.pb_affine.specs.declared.lin.Lin.{Lin};
ghost use Rattle.pb_affine.specs.declared.range.NRange.{NRange};
ghost use Rattle.pb_part_areas.specs.declared.area.Area.{Area};
ghost use Rattle.pb_part_areas.specs.Areas.{has, have, AreSomewhere};
ghost use Rattle.pb_part_areas.specs.Fits.{Fits};
ghost use Rattle.pb_part_areas.specs.Joins.{IsUnion, IsBeside, IsFollowed, AreInOrder, AreNeighbours, HasNoNeighbour, IsJoinedFrom, IsJoinedLast, IsJoin, tried};

use crate::area::Area;
use crate::empty::{is_empty, is_open, is_upright, tightened};
use pb_text::NoMemory;

/// An area of a list, put together with one more.
#[derive(Clone, Copy)]
struct Join {
    place: usize,
    area: Area,
}

/// How many areas of a list, from its end, a new one is tried with.
const TRIED: usize = 64;

/// One area, where the first ends at the index where the second begins.
fn side_by_side(a: Area, b: Area) -> Option<Area>
    ensures { MatchOption result (IsBeside a b → ⊥) (λ m. IsUnion a b m) }
{
    if a.role == b.role
        && a.end == b.low
        && a.from == b.from
        && a.until == b.until
        && is_upright(a)
        && is_upright(b)
    {
        Some(Area { end: b.end, ..a })
    } else {
        None
    }
}

/// One area, where the first ends at the N where the second begins.
fn one_after_other(a: Area, b: Area) -> Option<Area>
    ensures { MatchOption result (IsFollowed a b → ⊥) (λ m. IsUnion a b m) }
{
    if a.role == b.role
        && a.low == b.low
        && a.end == b.end
        && a.until == Some(b.from)
        && is_open(a.from, a.until)
        && is_open(b.from, b.until)
    {
        Some(Area {
            until: b.until,
            ..a
        })
    } else {
        None
    }
}

fn in_order(a: Area, b: Area) -> Option<Area>
    ensures { MatchOption result (AreInOrder a b → ⊥) (λ m. IsUnion a b m) }
{
    match side_by_side(a, b) {
        None => one_after_other(a, b),
        Some(area) => Some(area),
    }
}

/// One area, where two are neighbours.
#[tactic(auto, using(crate::proofs::Joins::exchanged))]
pub fn joined(a: Area, b: Area) -> Option<Area>
    ensures { MatchOption result (AreNeighbours a b → ⊥) (λ m. IsUnion a b m) }
{
    match in_order(a, b) {
        None => in_order(b, a),
        Some(area) => Some(area),
    }
}

/// A neighbour of the area among the last of the list.
fn neighbour(list: &[Area], a: Area) -> Option<Join>
    ensures { MatchOption result (HasNoNeighbour list.now a) (λ j. IsJoin list.now a j.place j.area) }
{
    let first = list.len().saturating_sub(TRIED);
    for i in first..list.len() {
        if let Some(area) = joined(list[i], a) {
            return Some(Join { place: i, area });
        }
    }
    None
}

/// Adds the area, unless it holds of nothing. It is put together with neighbours among the last 64 areas of the list, until it
/// has none there. So no two areas of a list of up to 65 that was made so are neighbours, and no two of the last 64 become ones.
pub fn push(out: &mut Vec<Area>, a: Area) -> Result<(), NoMemory>
    ensures is { OnOk result ((n : ℤ) (role : ℕ) (x : ℤ) → have out.new.items n role x ≡ have out.old.items n role x || has a n role x) }
    ensures fits { OnOk result ((range : NRange) (cuts : List Lin) → All (Fits range cuts) out.old.items → Fits range cuts a → All (Fits range cuts) out.new.items) }
    ensures some { OnOk result (AreSomewhere out.old.items → AreSomewhere out.new.items) }
    ensures grows { OnOk result (length out.new.items ≤ length out.old.items + 1) }
    ensures joined { OnOk result ((from : ℕ) → length out.old.items ≤ from + tried → IsJoinedFrom from out.old.items → IsJoinedFrom from out.new.items) }
    ensures last { OnOk result (IsJoinedLast out.old.items → IsJoinedLast out.new.items) }
{
    let mut last = tightened(a);
    if is_empty(last) {
        return Ok(());
    }
    while let Some(join) = neighbour(out, last) {
        out.remove(join.place);
        last = join.area;
    }
    out.push(last)?;
    Ok(())
}
