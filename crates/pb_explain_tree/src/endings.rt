use pb_syntax::{Block, Statement};

#[cycle(endings)]
fn all_can_end(block: &Block) -> bool {
    for statement in &block.list {
        if !can_end(statement) {
            return false;
        }
    }
    true
}

#[cycle(endings)]
fn some_can_end(branches: &[Block]) -> bool {
    for branch in branches {
        if all_can_end(branch) {
            return true;
        }
    }
    false
}

/// Whether the statement can come to its end. A `continue` can't.
#[cycle(endings)]
pub fn can_end(statement: &Statement) -> bool {
    match statement {
        Statement::Continue { .. } => false,
        Statement::Rec { body, .. } => all_can_end(body),
        Statement::Choice { branches, .. } => some_can_end(branches),
        Statement::Foreach { .. }
        | Statement::Message { .. }
        | Statement::Compute { .. }
        | Statement::Barrier { .. }
        | Statement::Broadcast { .. }
        | Statement::Reduce { .. }
        | Statement::Allreduce { .. } => true,
    }
}
