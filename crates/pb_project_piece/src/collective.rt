ghost use Rattle.std.specs.Prelude.{OnOk};
ghost use Rattle.pb_core_language.specs.Plain.{plain_stmt};
ghost use Rattle.pb_core_language.specs.Tree as T;
ghost use Rattle.pb_core_language.specs.Tree.{StmtTree};
ghost use Rattle.pb_local.specs.Tree.{plain};
ghost use Rattle.pb_project_piece.specs.Adding.{Added};
ghost use Rattle.pb_project_piece.specs.Pieces.{IsCodeOf, IsCollective};

use crate::ends::peer_of;
use pb_core_language::{CoreEnd, CoreKind, CoreStmt, Op};
use pb_local::Stmt;
use pb_text::NoMemory;

fn broadcast(label: u32, root: CoreEnd) -> Stmt
    ensures { IsCodeOf (T.broadcast label root) (plain result) }
{
    Stmt::Broadcast {
        label,
        root: peer_of(root),
    }
}

fn reduce(label: u32, op: Op, root: CoreEnd) -> Stmt
    ensures { IsCodeOf (T.reduce label op root) (plain result) }
{
    Stmt::Reduce {
        label,
        op,
        root: peer_of(root),
    }
}

fn allreduce(label: u32, op: Op) -> Stmt
    ensures { IsCodeOf (T.allreduce label op) (plain result) }
{
    Stmt::Allreduce { label, op }
}

fn barrier() -> Stmt
    ensures { IsCodeOf T.barrier (plain result) }
{
    Stmt::Barrier
}

/// Adds a statement that is a collective.
fn put(out: &mut Vec<Stmt>, one: Stmt) -> Result<(), NoMemory>
    ensures { OnOk result ((s : StmtTree) → IsCodeOf s (plain one) → Added out.old.items out.new.items (IsCollective s)) }
{
    out.push(one)?;
    Ok(())
}

/// Adds a collective, which all ranks take part in. Of other statements it adds nothing.
pub fn put_collective(stmt: &CoreStmt, out: &mut Vec<Stmt>) -> Result<(), NoMemory>
    ensures { OnOk result (Added out.old.items out.new.items (IsCollective (plain_stmt stmt.now).stmt)) }
{
    match &stmt.what {
        CoreKind::Barrier => put(out, barrier()),
        CoreKind::Broadcast { label, root } => put(out, broadcast(*label, *root)),
        CoreKind::Reduce { label, op, root } => put(out, reduce(*label, *op, *root)),
        CoreKind::Allreduce { label, op } => put(out, allreduce(*label, *op)),
        CoreKind::Message { .. }
        | CoreKind::Foreach { .. }
        | CoreKind::Loop { .. }
        | CoreKind::Again { .. }
        | CoreKind::Choice { .. }
        | CoreKind::Run { .. } => Ok(()),
    }
}
