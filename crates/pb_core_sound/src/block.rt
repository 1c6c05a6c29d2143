ghost use Rattle.std.specs.Prelude.{◌≡◌, ◌||◌, not, nat_lt, map};
ghost use Rattle.pb_core_language.specs.Plain.{plain_block, plain_stmt, branches_of};
ghost use Rattle.pb_core_language.specs.Sound.{is_end, is_item, has_branch, is_stmt, is_block, are_branches};
ghost use Rattle.pb_core_sound.specs.View.{ids_of, rows_of};

use crate::lins::{is_bound, is_over_n, is_small};
use crate::opens::Opens;
use crate::rows::Rows;
use pb_core_language::{CoreBlock, CoreEnd, CoreKind, CoreStmt};

/// The most loops that a statement stands in.
const MOST_LOOPS: u32 = 64;

/// Whether the block is sound, in a foreach or not (`varies`), and inside these loops.
#[cycle(block)]
pub fn is_block(block: &CoreBlock, rows: &Rows, varies: bool, opens: &Opens) -> bool
    ensures { result ≡ is_block (rows_of rows.now) varies (ids_of opens.now) (plain_block block.now).block }
{
    for stmt in &block.list {
        if !(is_placed(stmt, varies) && is_stmt(stmt, rows, varies, opens)) {
            return false;
        }
    }
    true
}

/// Whether each branch is.
#[cycle(block)]
fn are_branches(branches: &[CoreBlock], rows: &Rows, opens: &Opens) -> bool
    ensures { result ≡ are_branches (rows_of rows.now) (ids_of opens.now) (branches_of (map plain_block branches.now)) }
{
    for branch in branches {
        if !is_block(branch, rows, false, opens) {
            return false;
        }
    }
    true
}

/// Whether the statement is.
#[cycle(block)]
#[tactic(auto, using(pb_core_language::proofs::Plains::plain_choice))]
fn is_stmt(stmt: &CoreStmt, rows: &Rows, varies: bool, opens: &Opens) -> bool
    ensures { result ≡ is_stmt (rows_of rows.now) varies (ids_of opens.now) (plain_stmt stmt.now).stmt }
{
    match &stmt.what {
        CoreKind::Message { label, from, to } => {
            is_row(*label, rows.labels) && is_end(from, rows, varies) && is_end(to, rows, varies)
        }
        CoreKind::Foreach { low, high, items } => {
            is_bound(*low) && is_bound(*high) && is_block(items, rows, true, opens)
        }
        CoreKind::Loop { id, body } => {
            opens.are_fewer(MOST_LOOPS) && is_block(body, rows, false, &Opens::Loop(*id, &*opens))
        }
        CoreKind::Again { id } => opens.has(*id),
        CoreKind::Choice {
            kernel,
            at,
            branches,
        } => {
            is_row(*kernel, rows.kernels)
                && is_end(at, rows, false)
                && has_branch(branches)
                && are_branches(branches, rows, opens)
        }
        CoreKind::Run { kernel, at } => is_row(*kernel, rows.kernels) && is_end(at, rows, varies),
        CoreKind::Barrier => true,
        CoreKind::Broadcast { label, root } => {
            is_row(*label, rows.labels) && is_end(root, rows, false)
        }
        CoreKind::Reduce { label, root, .. } => {
            is_row(*label, rows.labels) && is_end(root, rows, false)
        }
        CoreKind::Allreduce { label, .. } => is_row(*label, rows.labels),
    }
}

/// Whether a choice with these branches has one.
#[tactic(auto, using(crate::proofs::Choices::some_branch))]
fn has_branch(branches: &[CoreBlock]) -> bool
    ensures { result ≡ has_branch (branches_of (map plain_block branches.now)) }
{
    !branches.is_empty()
}

/// Whether the statement may stand there: in a foreach only a message or a compute.
fn is_placed(stmt: &CoreStmt, varies: bool) -> bool
    ensures { result ≡ (not varies || is_item (plain_stmt stmt.now).stmt) }
{
    !varies || is_item(stmt)
}

fn is_item(stmt: &CoreStmt) -> bool
    ensures { result ≡ is_item (plain_stmt stmt.now).stmt }
{
    match &stmt.what {
        CoreKind::Message { .. } | CoreKind::Run { .. } => true,
        CoreKind::Foreach { .. }
        | CoreKind::Loop { .. }
        | CoreKind::Again { .. }
        | CoreKind::Choice { .. }
        | CoreKind::Barrier
        | CoreKind::Broadcast { .. }
        | CoreKind::Reduce { .. }
        | CoreKind::Allreduce { .. } => false,
    }
}

/// Whether a table of this length has the row.
fn is_row(number: u32, length: u64) -> bool
    ensures { result ≡ nat_lt number length }
{
    u64::from(number) < length
}

/// Whether the end names a role, and has a variable only in a foreach and a small offset.
fn is_end(end: &CoreEnd, rows: &Rows, varies: bool) -> bool
    ensures { result ≡ is_end (rows_of rows.now) varies end.now }
{
    is_row(end.role, rows.roles) && (varies || is_over_n(end.at.base)) && is_small(end.at.off)
}
