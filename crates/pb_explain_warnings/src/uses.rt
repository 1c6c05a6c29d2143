//! Whether something in a block uses a loop, a variable or a role.

use pb_explain_tree::is_same;
use pb_syntax::{Block, End, IndexText, LinText, Statement};
use pb_text::Name;

fn has_name(lin: &LinText, name: &Name) -> bool {
    match &lin.base {
        Some(base) => is_same(&base.name, name),
        None => false,
    }
}

/// Whether the end's index has the variable.
fn end_has(end: &End, name: &Name) -> bool {
    match &end.index {
        IndexText::At(lin) => has_name(lin, name),
        IndexText::Zero | IndexText::Bind(_, _) => false,
    }
}

/// Whether an item of a `foreach` uses its variable.
fn item_uses(item: &Statement, name: &Name) -> bool {
    match item {
        Statement::Message { from, to, .. } => end_has(from, name) || end_has(to, name),
        Statement::Compute { at, .. } => end_has(at, name),
        Statement::Foreach { .. }
        | Statement::Rec { .. }
        | Statement::Continue { .. }
        | Statement::Choice { .. }
        | Statement::Barrier { .. }
        | Statement::Broadcast { .. }
        | Statement::Reduce { .. }
        | Statement::Allreduce { .. } => false,
    }
}

/// Whether an item of a `foreach` uses its variable, or there is none.
pub fn items_use(items: &Block, name: &Name) -> bool {
    for item in &items.list {
        if item_uses(item, name) {
            return true;
        }
    }
    items.list.is_empty()
}

/// Whether the block has a `continue` of the loop.
#[cycle(again)]
pub fn continues_in(block: &Block, name: &Name) -> bool {
    for statement in &block.list {
        if continues_at(statement, name) {
            return true;
        }
    }
    false
}

#[cycle(again)]
fn continues_among(branches: &[Block], name: &Name) -> bool {
    for branch in branches {
        if continues_in(branch, name) {
            return true;
        }
    }
    false
}

#[cycle(again)]
fn continues_at(statement: &Statement, name: &Name) -> bool {
    match statement {
        Statement::Continue { name: target, .. } => is_same(&target.name, name),
        Statement::Rec { body, .. } => continues_in(body, name),
        Statement::Choice { branches, .. } => continues_among(branches, name),
        Statement::Foreach { .. }
        | Statement::Message { .. }
        | Statement::Compute { .. }
        | Statement::Barrier { .. }
        | Statement::Broadcast { .. }
        | Statement::Reduce { .. }
        | Statement::Allreduce { .. } => false,
    }
}

/// Whether the block names the role at an end, or has a collective.
#[cycle(seats)]
pub fn seats_in(block: &Block, name: &Name) -> bool {
    for statement in &block.list {
        if seats_at(statement, name) {
            return true;
        }
    }
    false
}

#[cycle(seats)]
fn seats_among(branches: &[Block], name: &Name) -> bool {
    for branch in branches {
        if seats_in(branch, name) {
            return true;
        }
    }
    false
}

#[cycle(seats)]
fn seats_at(statement: &Statement, name: &Name) -> bool {
    match statement {
        Statement::Message { from, to, .. } => {
            is_same(&from.role.name, name) || is_same(&to.role.name, name)
        }
        Statement::Compute { at, .. } => is_same(&at.role.name, name),
        Statement::Choice { at, branches, .. } => {
            is_same(&at.role.name, name) || seats_among(branches, name)
        }
        Statement::Foreach { items, .. } => seats_in(items, name),
        Statement::Rec { body, .. } => seats_in(body, name),
        Statement::Continue { .. } => false,
        Statement::Barrier { .. }
        | Statement::Broadcast { .. }
        | Statement::Reduce { .. }
        | Statement::Allreduce { .. } => true,
    }
}
