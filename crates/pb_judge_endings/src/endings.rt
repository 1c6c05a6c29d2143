//! What can end.

ghost use Rattle.std.specs.Prelude.{◌≡◌, map};
ghost use Rattle.pb_core_language.specs.Plain.{plain_block, plain_stmt, branches_of};
ghost use Rattle.pb_judge_endings.specs.Endings.{ends, all_end, some_ends, first_ending};

use pb_core_language::{CoreBlock, CoreKind, CoreStmt};

/// Whether all statements of the block can end.
#[cycle(endings)]
#[tactic(auto, using(crate::proofs::Steps::more_statements, crate::proofs::Steps::all_statements))]
fn can_end(block: &CoreBlock) -> bool
    ensures { result ≡ all_end (plain_block block.now).block }
{
    let mut all = true;
    for stmt in &block.list {
        let one = stmt_can_end(stmt);
        all = all && one;
    }
    all
}

#[cycle(endings)]
#[tactic(auto, using(crate::proofs::Steps::more_branches))]
fn some_can_end(branches: &[CoreBlock]) -> bool
    ensures { result ≡ some_ends (branches_of (map plain_block branches.now)) }
{
    let mut some = false;
    for branch in branches {
        let one = can_end(branch);
        some = some || one;
    }
    some
}

#[cycle(endings)]
fn stmt_can_end(stmt: &CoreStmt) -> bool
    ensures { result ≡ ends (plain_stmt stmt.now).stmt }
{
    match &stmt.what {
        CoreKind::Message { .. }
        | CoreKind::Foreach { .. }
        | CoreKind::Run { .. }
        | CoreKind::Barrier
        | CoreKind::Broadcast { .. }
        | CoreKind::Reduce { .. }
        | CoreKind::Allreduce { .. } => true,
        CoreKind::Loop { body, .. } => can_end(body),
        CoreKind::Again { .. } => false,
        CoreKind::Choice { branches, .. } => some_can_end(branches),
    }
}

/// The first branch that can end, or branch 0 where none can. It takes time linear in the branches before it.
#[tactic(auto, using(crate::proofs::Steps::branch_found, crate::proofs::Steps::branch_passed, crate::proofs::Steps::branch_counted, crate::proofs::Steps::none_found))]
pub fn first_ending(branches: &[CoreBlock]) -> usize
    ensures { result ≡ first_ending (branches_of (map plain_block branches.now)) }
{
    for (number, branch) in branches.iter().enumerate() {
        if can_end(branch) {
            return number;
        }
    }
    0
}
