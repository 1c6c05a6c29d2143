ghost use Rattle.std.specs.Prelude.{◌≡◌, nat_eq, ◌||◌, map};
ghost use Rattle.pb_core_language.specs.Plain.{plain_block, plain_stmt, branches_of};
ghost use Rattle.pb_part_takers.specs.Numbered.{is_below, is_within, is_across};

use pb_core_language::{CoreBlock, CoreKind, CoreStmt};

/// True where a statement of the block, or one inside it, has the number. Items of a foreach don't count.
#[cycle(scanning)]
pub(crate) fn is_within(block: &CoreBlock, number: u32) -> bool
    ensures { result ≡ is_within number (plain_block block.now).block }
{
    for stmt in &block.list {
        if is_it(stmt, number) {
            return true;
        }
    }
    false
}

#[cycle(scanning)]
fn is_across(branches: &[CoreBlock], number: u32) -> bool
    ensures { result ≡ is_across number (branches_of (map plain_block branches.now)) }
{
    for branch in branches {
        if is_within(branch, number) {
            return true;
        }
    }
    false
}

/// True where the statement, or one inside it, has the number.
#[cycle(scanning)]
fn is_it(stmt: &CoreStmt, number: u32) -> bool
    ensures { result ≡ nat_eq number (plain_stmt stmt.now).mark.number || is_below number (plain_stmt stmt.now).stmt }
{
    if has_number(stmt, number) {
        true
    } else {
        is_below(stmt, number)
    }
}

fn has_number(stmt: &CoreStmt, number: u32) -> bool
    ensures { result ≡ nat_eq number (plain_stmt stmt.now).mark.number }
{
    number == stmt.number
}

#[cycle(scanning)]
fn is_below(stmt: &CoreStmt, number: u32) -> bool
    ensures { result ≡ is_below number (plain_stmt stmt.now).stmt }
{
    match &stmt.what {
        CoreKind::Loop { body, .. } => is_within(body, number),
        CoreKind::Choice { branches, .. } => is_across(branches, number),
        CoreKind::Message { .. }
        | CoreKind::Foreach { .. }
        | CoreKind::Again { .. }
        | CoreKind::Run { .. }
        | CoreKind::Barrier
        | CoreKind::Broadcast { .. }
        | CoreKind::Reduce { .. }
        | CoreKind::Allreduce { .. } => false,
    }
}
