ghost use Rattle.std.specs.Prelude.{◌≡◌, [], ◌∷◌, Some, IfOk, OnOk};
ghost use Rattle.pb_core_language.specs.Plain.{plain_block, plain_stmt};
ghost use Rattle.pb_core_language.specs.Tree as T;
ghost use Rattle.pb_local.specs.Tree.{plain, plain_all};
ghost use Rattle.pb_shape.specs.Guards.{alone};
ghost use Rattle.pb_project_piece.specs.Adding.{Added};
ghost use Rattle.pb_project_piece.specs.Ones.{end_guard, only_when, IsAt, IsItemOf, AreItemsOf};

use crate::ends::{guard_at, peer_of};
use crate::put::{only, put_one, when};
use crate::reach::is_coming;
use crate::setting::Setting;
use pb_core_language::{Bounds, CoreBlock, CoreEnd, CoreKind, CoreStmt};
use pb_local::Stmt;
use pb_part_areas::Area;
use pb_text::NoMemory;
use std::alloc::Global;

/// An `If` of the rank at an end.
fn at_end(alloc: Global, end: CoreEnd, stmt: Stmt) -> Result<Stmt, NoMemory>
    ensures { IfOk result (λ s. plain s ≡ only_when (end_guard end ∷ []) (alone (plain stmt))) }
{
    let guards = only(alloc, guard_at(end))?;
    let first = put_one(alloc, stmt)?;
    Ok(when(alloc, guards, first))
}

/// Adds an `If` of the rank at an end with a statement, unless no such rank comes there.
fn put_at(
    alloc: Global,
    setting: &Setting,
    over: Option<Bounds>,
    fixed: &[Area],
    end: CoreEnd,
    stmt: Stmt,
    out: &mut Vec<Stmt>,
) -> Result<(), NoMemory>
    ensures { OnOk result (Added out.old.items out.new.items (IsAt setting.now.range setting.now.roles setting.now.whole.now over fixed.now end (plain stmt))) }
{
    let there = is_coming(alloc, setting, over, fixed, end)?;
    if there {
        let one = at_end(alloc, end, stmt)?;
        out.push(one)?;
    }
    Ok(())
}

/// Adds the sender's part and the receiver's part of a message.
fn put_message(
    alloc: Global,
    setting: &Setting,
    over: Option<Bounds>,
    fixed: &[Area],
    label: u32,
    from: CoreEnd,
    to: CoreEnd,
    out: &mut Vec<Stmt>,
) -> Result<(), NoMemory>
    ensures { OnOk result (Added out.old.items out.new.items (IsItemOf setting.now.range setting.now.roles setting.now.whole.now over fixed.now (T.message label from to))) }
{
    let send = Stmt::Send {
        label,
        to: peer_of(to),
    };
    put_at(alloc, setting, over, fixed, from, send, out)?;
    let recv = Stmt::Recv {
        label,
        from: peer_of(from),
    };
    put_at(alloc, setting, over, fixed, to, recv, out)?;
    Ok(())
}

/// Adds a compute.
fn put_run(
    alloc: Global,
    setting: &Setting,
    over: Option<Bounds>,
    fixed: &[Area],
    kernel: u32,
    at: CoreEnd,
    out: &mut Vec<Stmt>,
) -> Result<(), NoMemory>
    ensures { OnOk result (Added out.old.items out.new.items (IsItemOf setting.now.range setting.now.roles setting.now.whole.now over fixed.now (T.run kernel at))) }
{
    let run = Stmt::Run { kernel };
    put_at(alloc, setting, over, fixed, at, run, out)?;
    Ok(())
}

/// Adds what the ranks at the ends of a message or a compute do.
pub fn put_item(
    stmt: &CoreStmt,
    alloc: Global,
    setting: &Setting,
    over: Option<Bounds>,
    fixed: &[Area],
    out: &mut Vec<Stmt>,
) -> Result<(), NoMemory>
    ensures { OnOk result (Added out.old.items out.new.items (IsItemOf setting.now.range setting.now.roles setting.now.whole.now over fixed.now (plain_stmt stmt.now).stmt)) }
{
    match &stmt.what {
        CoreKind::Message { label, from, to } => {
            put_message(alloc, setting, over, fixed, *label, *from, *to, out)
        }
        CoreKind::Run { kernel, at } => { put_run(alloc, setting, over, fixed, *kernel, *at, out) }
        CoreKind::Foreach { .. }
        | CoreKind::Loop { .. }
        | CoreKind::Again { .. }
        | CoreKind::Choice { .. }
        | CoreKind::Barrier
        | CoreKind::Broadcast { .. }
        | CoreKind::Reduce { .. }
        | CoreKind::Allreduce { .. } => Ok(()),
    }
}

/// What the items are in one iteration.
pub fn items_of(
    items: &CoreBlock,
    alloc: Global,
    setting: &Setting,
    over: Bounds,
    fixed: &[Area],
) -> Result<Vec<Stmt>, NoMemory>
    ensures { IfOk result (λ v. AreItemsOf setting.now.range setting.now.roles setting.now.whole.now over fixed.now (plain_block items.now).block (plain_all v.items)) }
{
    let mut list = Vec::new(alloc);
    for stmt in &items.list {
        put_item(stmt, alloc, setting, Some(over), fixed, &mut list)?;
    }
    Ok(list)
}
