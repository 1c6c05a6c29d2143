ghost use Rattle.std.specs.Prelude.{◌≡◌, ℕ, ◌<◌, length, ℤ, pos, ◌-ℤ◌, true, IfOk, OnOk};
ghost use Rattle.pb_affine.specs.Values.{holds};
ghost use Rattle.pb_affine.specs.declared.lin.Base.TheVariants.{Var};
ghost use Rattle.pb_core_language.specs.Plain.{plain_block, plain_stmt};
ghost use Rattle.pb_core_language.specs.Sound.{is_small};
ghost use Rattle.pb_core_language.specs.Tree as T;
ghost use Rattle.pb_local.specs.Tree as L;
ghost use Rattle.pb_local.specs.Tree.{plain, plain_all, Program};
ghost use Rattle.pb_local.specs.WellMade.{IsGuard};
ghost use Rattle.pb_shape.specs.Segments.{is_at_offset, put, segment_code, in_segment};
ghost use Rattle.pb_part_takers.specs.Sums.{IsSum};
ghost use Rattle.pb_project_piece.specs.Adding.{Added};
ghost use Rattle.pb_project_piece.specs.Comers.{AreBounds};
ghost use Rattle.pb_project_piece.specs.Weights.{IsSimple};
ghost use Rattle.pb_project_piece.specs.Segments.{IsCodes, AreOthers, IsSomeOther, IsLeft, IsCodesOf, IsSegmentOf, IsSegment, IsRoleSegments, AreSegments};

use crate::ends::{is_moving, peer_of};
use crate::offsets::{Off, offsets};
use crate::put::{only, when};
use crate::seen::{is_seen, some_left};
use crate::setting::Setting;
use crate::somebody::is_somebody;
use pb_affine::{Base, Guard, Lin};
use pb_core_language::{Bounds, CoreBlock, CoreEnd, CoreKind, CoreStmt, Place};
use pb_local::Stmt;
use pb_part_areas::{Area, clipped, one, without};
use pb_part_takers::met_area;
use pb_text::NoMemory;
use std::alloc::Global;

/// Which ends a segment is of: those of a role that are the variable plus an offset.
#[derive(Clone, Copy)]
struct Segment {
    role: u32,
    off: i32,
}

fn segment_at(role: u32, off: Off) -> Segment
    ensures { (result.role ≡ role) × (result.off ≡ off.off) }
{
    Segment { role, off: off.off }
}

/// Whether the end is one of the segment.
fn is_of(segment: Segment, end: CoreEnd) -> bool
    ensures { result ≡ is_at_offset segment.role segment.off end }
{
    segment.role == end.role && (segment.off == end.at.off && is_moving(end))
}

fn put_if(out: &mut Vec<Stmt>, segment: Segment, end: CoreEnd, stmt: Stmt) -> Result<(), NoMemory>
    ensures { OnOk result (Added out.old.items out.new.items (IsCodes (put (is_at_offset segment.role segment.off end) (plain stmt)))) }
{
    if is_of(segment, end) {
        out.push(stmt)?;
    }
    Ok(())
}

fn put_message(
    out: &mut Vec<Stmt>,
    segment: Segment,
    label: u32,
    from: CoreEnd,
    to: CoreEnd,
) -> Result<(), NoMemory>
    ensures { OnOk result (Added out.old.items out.new.items (IsCodes (segment_code segment.role segment.off (T.message label from to)))) }
{
    let send = Stmt::Send {
        label,
        to: peer_of(to),
    };
    put_if(out, segment, from, send)?;
    let recv = Stmt::Recv {
        label,
        from: peer_of(from),
    };
    put_if(out, segment, to, recv)?;
    Ok(())
}

fn put_run(out: &mut Vec<Stmt>, segment: Segment, kernel: u32, at: CoreEnd) -> Result<(), NoMemory>
    ensures { OnOk result (Added out.old.items out.new.items (IsCodes (segment_code segment.role segment.off (T.run kernel at)))) }
{
    let run = Stmt::Run { kernel };
    put_if(out, segment, at, run)?;
    Ok(())
}

/// Adds what an item is to the ranks of a segment.
fn put_item(stmt: &CoreStmt, segment: Segment, out: &mut Vec<Stmt>) -> Result<(), NoMemory>
    ensures { OnOk result (Added out.old.items out.new.items (IsCodes (segment_code segment.role segment.off (plain_stmt stmt.now).stmt))) }
{
    match &stmt.what {
        CoreKind::Message { label, from, to } => put_message(out, segment, *label, *from, *to),
        CoreKind::Run { kernel, at } => put_run(out, segment, *kernel, *at),
        CoreKind::Foreach { .. }
        | CoreKind::Loop { .. }
        | CoreKind::Again { .. }
        | CoreKind::Choice { .. }
        | CoreKind::Barrier
        | CoreKind::Broadcast { .. }
        | CoreKind::Reduce { .. }
        | CoreKind::Allreduce { .. } => Ok(()),
    }
}

/// `Own`, by which the variable becomes the value at which a rank of the segment is its end.
fn own(segment: Segment) -> Stmt
    ensures exact { is_small segment.off ≡ true → plain result ≡ L.own (pos 0 -ℤ segment.off) }
    ensures simple { IsSimple (plain result) }
{
    Stmt::Own {
        off: 0i32.saturating_sub(segment.off),
    }
}

/// What the ranks of a segment do.
fn codes(items: &CoreBlock, alloc: Global, segment: Segment) -> Result<Vec<Stmt>, NoMemory>
    ensures { IfOk result (λ v. IsCodesOf segment.role segment.off (plain_block items.now).block (plain_all v.items)) }
{
    let mut list = Vec::new(alloc);
    list.push(own(segment))?;
    for stmt in &items.list {
        put_item(stmt, segment, &mut list)?;
    }
    Ok(list)
}

/// The lin with the segment's offset added, which is exact as long as it is in bounds.
fn moved(lin: Lin, segment: Segment) -> Lin
    ensures { IsSum lin segment.off result }
{
    Lin {
        base: lin.base,
        off: lin.off.saturating_add(segment.off),
    }
}

/// The guard of the ranks of a segment.
fn guard_of(segment: Segment, over: Bounds) -> Guard
    ensures made { (l : Program) → segment.role < length l.roles → AreBounds over → is_small segment.off ≡ true → IsGuard l result }
    ensures holds { (n i : ℤ) (role : ℕ) (x : ℤ) → AreBounds over → is_small segment.off ≡ true → holds result n i role x ≡ in_segment over segment.role segment.off n i role x }
{
    Guard {
        role: segment.role,
        low: Some(moved(over.low, segment)),
        high: Some(moved(over.high, segment)),
        from: None,
        to: None,
    }
}

/// An end that the ranks of a segment are.
fn end_of(segment: Segment) -> CoreEnd
    ensures role { result.role ≡ segment.role }
    ensures base { result.at.base ≡ Var }
    ensures off { result.at.off ≡ segment.off }
{
    CoreEnd {
        role: segment.role,
        at: Lin {
            base: Base::Var,
            off: segment.off,
        },
        place: Place { line: 0, col: 0 },
    }
}

/// The areas of the ranks of a segment that aren't among others.
fn others(
    alloc: Global,
    segment: Segment,
    over: Bounds,
    less: &[Area],
) -> Result<Vec<Area>, NoMemory>
    ensures { IfOk result (λ v. AreOthers over segment.role segment.off less.now v.items) }
{
    let all = one(alloc, met_area(end_of(segment), over))?;
    let left = without(alloc, all, less)?;
    Ok(left)
}

/// Some of them, as far as they are ranks of `whole`.
fn some_other(
    alloc: Global,
    whole: &[Area],
    segment: Segment,
    over: Bounds,
    less: &[Area],
) -> Result<Option<Area>, NoMemory>
    ensures { IfOk result (λ o. IsSomeOther whole.now over segment.role segment.off less.now o) }
{
    let end = end_of(segment);
    let met = met_area(end, over);
    let near = clipped(met, whole);
    let some = some_left(alloc, near, less)?;
    Ok(some)
}

/// True only where some rank of a segment isn't among others: a part of those is tried.
fn is_soon_left(
    alloc: Global,
    setting: &Setting,
    segment: Segment,
    over: Bounds,
    less: &[Area],
) -> Result<bool, NoMemory>
    ensures { IfOk result (λ t. t ≡ true → IsLeft setting.now.range setting.now.whole.now over segment.role segment.off less.now true) }
{
    let some = some_other(alloc, setting.whole, segment, over, less)?;
    let seen = is_seen(alloc, setting, some)?;
    Ok(seen)
}

fn is_ever_left(
    alloc: Global,
    setting: &Setting,
    segment: Segment,
    over: Bounds,
    less: &[Area],
) -> Result<bool, NoMemory>
    ensures { IfOk result (λ t. IsLeft setting.now.range setting.now.whole.now over segment.role segment.off less.now t) }
{
    let areas = others(alloc, segment, over, less)?;
    let there = is_somebody(alloc, setting, &areas)?;
    Ok(there)
}

/// Whether some rank of a segment isn't among others, for some N of the range. A part is tried first: the whole may be long.
fn is_left(
    alloc: Global,
    setting: &Setting,
    segment: Segment,
    over: Bounds,
    less: &[Area],
) -> Result<bool, NoMemory>
    ensures { IfOk result (λ t. IsLeft setting.now.range setting.now.whole.now over segment.role segment.off less.now t) }
{
    let soon = is_soon_left(alloc, setting, segment, over, less)?;
    if soon {
        return Ok(true);
    }
    is_ever_left(alloc, setting, segment, over, less)
}

/// The segment, as a statement.
fn segment_of(
    items: &CoreBlock,
    alloc: Global,
    over: Bounds,
    segment: Segment,
) -> Result<Stmt, NoMemory>
    ensures { IfOk result (λ s. IsSegmentOf over (plain_block items.now).block segment.role segment.off (plain s)) }
{
    let guards = only(alloc, guard_of(segment, over))?;
    let first = codes(items, alloc, segment)?;
    Ok(when(alloc, guards, first))
}

/// Adds a segment, unless all its ranks are among those others.
fn put_segment(
    items: &CoreBlock,
    alloc: Global,
    setting: &Setting,
    over: Bounds,
    less: &[Area],
    segment: Segment,
    out: &mut Vec<Stmt>,
) -> Result<(), NoMemory>
    ensures { OnOk result (Added out.old.items out.new.items (IsSegment setting.now.range setting.now.roles setting.now.whole.now over less.now (plain_block items.now).block segment.role segment.off)) }
{
    let there = is_left(alloc, setting, segment, over, less)?;
    if !there {
        return Ok(());
    }
    let one = segment_of(items, alloc, over, segment)?;
    out.push(one)?;
    Ok(())
}

/// Adds the segments of a role.
fn put_role(
    items: &CoreBlock,
    alloc: Global,
    setting: &Setting,
    over: Bounds,
    less: &[Area],
    role: u32,
    out: &mut Vec<Stmt>,
) -> Result<(), NoMemory>
    ensures { OnOk result (Added out.old.items out.new.items (IsRoleSegments setting.now.range setting.now.roles setting.now.whole.now over less.now (plain_block items.now).block role)) }
{
    let offs = offsets(items, alloc, role)?;
    for one in &offs {
        let segment = segment_at(role, *one);
        put_segment(items, alloc, setting, over, less, segment, out)?;
    }
    Ok(())
}

/// Adds the segments of a foreach, for the ranks that aren't among those others.
pub fn put_segments(
    items: &CoreBlock,
    alloc: Global,
    setting: &Setting,
    over: Bounds,
    less: &[Area],
    out: &mut Vec<Stmt>,
) -> Result<(), NoMemory>
    ensures { OnOk result (Added out.old.items out.new.items (AreSegments setting.now.range setting.now.roles setting.now.whole.now over less.now (plain_block items.now).block)) }
{
    for role in 0..setting.roles {
        put_role(items, alloc, setting, over, less, role, out)?;
    }
    Ok(())
}
