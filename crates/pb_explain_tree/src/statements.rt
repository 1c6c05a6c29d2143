use pb_syntax::Statement;
use pb_text::{Name, Place, Spot};

/// Whether both names have the same bytes. Takes no memory.
pub fn is_same(a: &Name, b: &Name) -> bool {
    a.bytes() == b.bytes()
}

/// Where the statement begins. Takes no memory.
pub fn place_of(statement: &Statement) -> Place {
    match statement {
        Statement::Message { label, .. } => label.place,
        Statement::Foreach { place, .. }
        | Statement::Rec { place, .. }
        | Statement::Continue { place, .. }
        | Statement::Choice { place, .. }
        | Statement::Compute { place, .. }
        | Statement::Barrier { place }
        | Statement::Broadcast { place, .. }
        | Statement::Reduce { place, .. }
        | Statement::Allreduce { place, .. } => *place,
    }
}

/// The label of a message or a collective.
pub fn label_of(statement: &Statement) -> Option<Spot> {
    match statement {
        Statement::Message { label, .. }
        | Statement::Broadcast { label, .. }
        | Statement::Reduce { label, .. }
        | Statement::Allreduce { label, .. } => Some(*label),
        Statement::Foreach { .. }
        | Statement::Rec { .. }
        | Statement::Continue { .. }
        | Statement::Choice { .. }
        | Statement::Compute { .. }
        | Statement::Barrier { .. } => None,
    }
}
