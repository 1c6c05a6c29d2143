ghost use Rattle.std.specs.Prelude.{◌≡◌, ◌++◌, ◌∷◌, List, map, IfOk, OnOk, true};
ghost use Rattle.pb_core_language.specs.Plain.{plain_block, plain_stmt};
ghost use Rattle.pb_shape.specs.Segments.{put_end, offsets_at, offsets};
ghost use Rattle.pb_project_piece.specs.Offsets.{off_of, put_off, rest_of};

use crate::ends::is_moving;
use pb_core_language::{CoreBlock, CoreEnd, CoreKind, CoreStmt};
use pb_text::NoMemory;
use std::alloc::Global;

/// An offset.
#[derive(Clone, Copy)]
pub struct Off {
    pub off: i32,
}

/// Adds the next offset of a descending list, and before it another one if it goes there. Whether the other one is still to
/// be put in.
fn put_next(out: &mut Vec<Off>, one: Off, next: Off, left: bool) -> Result<bool, NoMemory>
    ensures { IfOk result (λ t. (tail : List Off) → out.old.items ++ rest_of left one (next ∷ tail) ≡ out.new.items ++ rest_of t one tail) }
{
    if left && next.off < one.off {
        out.push(one)?;
        out.push(next)?;
        Ok(false)
    } else {
        out.push(next)?;
        Ok(left && one.off < next.off)
    }
}

/// The descending list with an offset put in, once.
fn with_off(alloc: Global, list: &[Off], one: Off) -> Result<Vec<Off>, NoMemory>
    ensures { IfOk result (λ v. v.items ≡ put_off one list.now) }
{
    let mut out = Vec::new(alloc);
    let mut left = true;
    for next in list {
        left = put_next(&mut out, one, *next, left)?;
    }
    if left {
        out.push(one)?;
    }
    Ok(out)
}

fn own_off(end: CoreEnd) -> Off
    ensures { result.off ≡ end.at.off }
{
    Off { off: end.at.off }
}

/// The list with the offset of an end, if it is of this role and moves.
fn with_end(alloc: Global, list: Vec<Off>, role: u32, end: CoreEnd) -> Result<Vec<Off>, NoMemory>
    ensures { IfOk result (λ v. map off_of v.items ≡ put_end role end (map off_of list.items)) }
{
    if role == end.role && is_moving(end) {
        let all = with_off(alloc, &list, own_off(end))?;
        Ok(all)
    } else {
        Ok(list)
    }
}

fn with_two(
    alloc: Global,
    list: Vec<Off>,
    role: u32,
    from: CoreEnd,
    to: CoreEnd,
) -> Result<Vec<Off>, NoMemory>
    ensures { IfOk result (λ v. map off_of v.items ≡ put_end role from (put_end role to (map off_of list.items))) }
{
    let later = with_end(alloc, list, role, to)?;
    let all = with_end(alloc, later, role, from)?;
    Ok(all)
}

/// The list with the offsets of a statement.
fn with_stmt(
    stmt: &CoreStmt,
    alloc: Global,
    list: Vec<Off>,
    role: u32,
) -> Result<Vec<Off>, NoMemory>
    ensures { IfOk result (λ v. map off_of v.items ≡ offsets_at role (plain_stmt stmt.now).stmt (map off_of list.items)) }
{
    match &stmt.what {
        CoreKind::Message { from, to, .. } => with_two(alloc, list, role, *from, *to),
        CoreKind::Run { at, .. } => with_end(alloc, list, role, *at),
        CoreKind::Foreach { .. }
        | CoreKind::Loop { .. }
        | CoreKind::Again { .. }
        | CoreKind::Choice { .. }
        | CoreKind::Barrier
        | CoreKind::Broadcast { .. }
        | CoreKind::Reduce { .. }
        | CoreKind::Allreduce { .. } => Ok(list),
    }
}

/// The offsets of the ends of a role that move, descending, each once.
pub fn offsets(items: &CoreBlock, alloc: Global, role: u32) -> Result<Vec<Off>, NoMemory>
    ensures { IfOk result (λ v. map off_of v.items ≡ offsets role (plain_block items.now).block) }
{
    let mut list = Vec::new(alloc);
    let mut left = items.list.len();
    while left > 0 {
        left -= 1;
        list = with_stmt(&items.list[left], alloc, list, role)?;
    }
    Ok(list)
}
