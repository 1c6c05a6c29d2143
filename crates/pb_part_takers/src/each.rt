ghost use Rattle.std.specs.Prelude.{◌≡◌, ℕ, ℤ, pos, ◌&&◌, int_le, true, false, List, OnOk};
ghost use Rattle.pb_affine.specs.declared.lin.Lin.{Lin};
ghost use Rattle.pb_affine.specs.declared.range.NRange.{NRange};
ghost use Rattle.pb_affine.specs.Values.{shifted};
ghost use Rattle.pb_part_areas.specs.declared.area.Area.{Area};
ghost use Rattle.pb_part_areas.specs.Areas.{has, at};
ghost use Rattle.pb_part_areas.specs.Fits.{Fits, IsCutOf};
ghost use Rattle.pb_core_language.specs.Plain.{plain_block, plain_stmt};
ghost use Rattle.pb_core_language.specs.Sound.{is_small};
ghost use Rattle.pb_core_language.specs.Tree.{message};
ghost use Rattle.pb_core_flat.specs.Meets.{is_var};
ghost use Rattle.pb_part_takers.specs.declared.held.Held.{Held};
ghost use Rattle.pb_part_takers.specs.Ends.{IsMetArea};
ghost use Rattle.pb_part_takers.specs.Pieces.{IsAdded, met_piece, item_piece, items_piece};

use crate::ends::{end_area, moved_by, next_to};
use pb_affine::Base;
use pb_core_language::{Bounds, CoreBlock, CoreEnd, CoreKind, CoreStmt};
use pb_part_areas::{Area, clipped, is_param, meet, nowhere, since, until};
use pb_text::NoMemory;

fn is_var(base: Base) -> bool
    ensures { result ≡ is_var base }
{
    match base {
        Base::Fixed => false,
        Base::Param => false,
        Base::Var => true,
    }
}

/// The area, for the N at which there is a value from `low` to `high`.
fn nonempty(a: Area, over: Bounds) -> Area
    ensures is { (n : ℤ) (role : ℕ) (x : ℤ) → is_small over.high.off ≡ true → has result n role x ≡ has a n role x && int_le (at over.low n) (at over.high n) }
    ensures fits { (range : NRange) (cuts : List Lin) → is_small over.high.off ≡ true → Fits range cuts a → IsCutOf cuts over.low → IsCutOf cuts (shifted over.high (pos 1)) → Fits range cuts result }
{
    let end = next_to(over.high);
    if is_param(over.low.base) == is_param(end.base) {
        if over.low.off <= over.high.off {
            a
        } else {
            nowhere(a)
        }
    } else if is_param(over.low.base) {
        let t = meet(end, over.low);
        until(a, t)
    } else {
        let t = meet(over.low, over.high);
        since(a, t)
    }
}

/// The ranks that an end with the variable has at some value.
fn moving_area(end: CoreEnd, over: Bounds) -> Area
    requires { is_var end.at.base ≡ true }
    ensures { IsMetArea over end result }
{
    let low = moved_by(over.low, end.at);
    let high = moved_by(over.high, end.at);
    Area {
        role: end.role,
        low,
        end: next_to(high),
        from: 0,
        until: None,
    }
}

/// The ranks that an end without the variable has where there is some value.
fn still_area(end: CoreEnd, over: Bounds) -> Area
    requires { is_var end.at.base ≡ false }
    ensures { IsMetArea over end result }
{
    let area = end_area(end);
    nonempty(area, over)
}

/// The ranks that an end has at some value of a foreach's variable. Takes no memory.
pub fn met_area(end: CoreEnd, over: Bounds) -> Area
    ensures { IsMetArea over end result }
{
    if is_var(end.at.base) {
        moving_area(end, over)
    } else {
        still_area(end, over)
    }
}

fn add_met(whole: &[Area], out: &mut Vec<Area>, end: CoreEnd, over: Bounds) -> Result<(), NoMemory>
    ensures { OnOk result ((held : List Held) → IsAdded whole.now held (met_piece over end) out.old.items out.new.items) }
{
    let area = clipped(met_area(end, over), whole);
    out.push(area)?;
    Ok(())
}

fn add_two_met(
    whole: &[Area],
    out: &mut Vec<Area>,
    from: CoreEnd,
    to: CoreEnd,
    over: Bounds,
) -> Result<(), NoMemory>
    ensures { OnOk result ((held : List Held) (label : ℕ) (ids : List ℕ) → IsAdded whole.now held (item_piece over ids (message label from to)) out.old.items out.new.items) }
{
    add_met(whole, out, from, over)?;
    add_met(whole, out, to, over)?;
    Ok(())
}

/// Adds the ranks at the ends of an item.
fn takers_of_item(
    stmt: &CoreStmt,
    whole: &[Area],
    over: Bounds,
    out: &mut Vec<Area>,
) -> Result<(), NoMemory>
    ensures { OnOk result ((held : List Held) (ids : List ℕ) → IsAdded whole.now held (item_piece over ids (plain_stmt stmt.now).stmt) out.old.items out.new.items) }
{
    match &stmt.what {
        CoreKind::Message { from, to, .. } => add_two_met(whole, out, *from, *to, over),
        CoreKind::Run { at, .. } => add_met(whole, out, *at, over),
        CoreKind::Foreach { .. }
        | CoreKind::Loop { .. }
        | CoreKind::Again { .. }
        | CoreKind::Choice { .. }
        | CoreKind::Barrier
        | CoreKind::Broadcast { .. }
        | CoreKind::Reduce { .. }
        | CoreKind::Allreduce { .. } => Ok(()),
    }
}

/// Adds the ranks that take part in some item at some value of the variable.
pub fn takers_each(
    items: &CoreBlock,
    whole: &[Area],
    over: Bounds,
    out: &mut Vec<Area>,
) -> Result<(), NoMemory>
    ensures { OnOk result ((held : List Held) (ids : List ℕ) → IsAdded whole.now held (items_piece over ids (plain_block items.now).block) out.old.items out.new.items) }
{
    for stmt in &items.list {
        takers_of_item(stmt, whole, over, out)?;
    }
    Ok(())
}
