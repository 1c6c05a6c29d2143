ghost use Rattle.std.specs.Prelude.{◌≡◌, true, OnOk};
ghost use Rattle.pb_core_language.specs.Plain.{plain_block, plain_stmt};
ghost use Rattle.pb_core_language.specs.Tree.{Mark, foreach};
ghost use Rattle.pb_core_language.specs.Sound.{is_item};
ghost use Rattle.pb_project_piece.specs.Adding.{Added};
ghost use Rattle.pb_project_piece.specs.Pieces.{IsPieceOf, is_collective};

use crate::collective::put_collective;
use crate::foreach::put_foreach;
use crate::item::put_item;
use crate::setting::Setting;
use pb_affine::Lin;
use pb_core_language::{Bounds, CoreBlock, CoreKind, CoreStmt};
use pb_local::Stmt;
use pb_text::NoMemory;
use std::alloc::Global;

fn put_each(
    items: &CoreBlock,
    alloc: Global,
    setting: &Setting,
    low: Lin,
    high: Lin,
    out: &mut Vec<Stmt>,
) -> Result<(), NoMemory>
    ensures { OnOk result ((m : Mark) → Added out.old.items out.new.items (IsPieceOf setting.now.range setting.now.roles setting.now.whole.now (foreach (record { low = low; high = high }) m (plain_block items.now).block))) }
{
    let over = Bounds { low, high };
    put_foreach(items, alloc, setting, over, out)?;
    Ok(())
}

fn put_alone(
    stmt: &CoreStmt,
    alloc: Global,
    setting: &Setting,
    out: &mut Vec<Stmt>,
) -> Result<(), NoMemory>
    ensures { OnOk result (is_item (plain_stmt stmt.now).stmt ≡ true → Added out.old.items out.new.items (IsPieceOf setting.now.range setting.now.roles setting.now.whole.now (plain_stmt stmt.now).stmt)) }
{
    put_item(stmt, alloc, setting, None, &[], out)?;
    Ok(())
}

fn put_joint(stmt: &CoreStmt, setting: &Setting, out: &mut Vec<Stmt>) -> Result<(), NoMemory>
    ensures { OnOk result (is_collective (plain_stmt stmt.now).stmt ≡ true → Added out.old.items out.new.items (IsPieceOf setting.now.range setting.now.roles setting.now.whole.now (plain_stmt stmt.now).stmt)) }
{
    let _range = setting.range;
    put_collective(stmt, out)?;
    Ok(())
}

/// Adds a statement that is no loop, no continue and no choice. Of these it adds nothing.
pub fn put_piece(
    stmt: &CoreStmt,
    alloc: Global,
    setting: &Setting,
    out: &mut Vec<Stmt>,
) -> Result<(), NoMemory>
    ensures { OnOk result (Added out.old.items out.new.items (IsPieceOf setting.now.range setting.now.roles setting.now.whole.now (plain_stmt stmt.now).stmt)) }
{
    match &stmt.what {
        CoreKind::Message { .. } => put_alone(stmt, alloc, setting, out),
        CoreKind::Run { .. } => put_alone(stmt, alloc, setting, out),
        CoreKind::Foreach { low, high, items } => {
            put_each(items, alloc, setting, *low, *high, out)
        }
        CoreKind::Barrier => put_joint(stmt, setting, out),
        CoreKind::Broadcast { .. } => put_joint(stmt, setting, out),
        CoreKind::Reduce { .. } => put_joint(stmt, setting, out),
        CoreKind::Allreduce { .. } => put_joint(stmt, setting, out),
        CoreKind::Loop { .. } | CoreKind::Again { .. } | CoreKind::Choice { .. } => Ok(()),
    }
}
