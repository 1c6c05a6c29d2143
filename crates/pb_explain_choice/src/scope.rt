//! Who takes part in loops.

use crate::iterations::{in_foreach, in_plain};
use crate::seat::Seat;
use pb_explain_tree::{Step, is_same};
use pb_syntax::{Block, Statement};
use pb_text::{Name, NoMemory};
use std::alloc::Global;

/// A loop around, and whether the rank takes part in it.
#[derive(Clone, Copy)]
pub struct Open {
    pub name: Name,
    pub takes: bool,
}

/// Whether the rank takes part in the loop of this name among those around.
pub fn takes_loop(loops: &[Open], name: &Name) -> bool {
    for open in loops {
        if is_same(&open.name, name) {
            return open.takes;
        }
    }
    false
}

/// Whether the rank does something in the block: a `continue` of a loop that it takes part in counts.
#[cycle(takes)]
pub fn takes_in(block: &Block, seat: &Seat, loops: &[Open]) -> bool {
    for statement in &block.list {
        if takes_at(statement, seat, loops) {
            return true;
        }
    }
    false
}

#[cycle(takes)]
fn takes_among(branches: &[Block], seat: &Seat, loops: &[Open]) -> bool {
    for branch in branches {
        if takes_in(branch, seat, loops) {
            return true;
        }
    }
    false
}

#[cycle(takes)]
fn takes_at(statement: &Statement, seat: &Seat, loops: &[Open]) -> bool {
    match statement {
        Statement::Message {
            label,
            from,
            to,
            ..
        } => in_plain(seat, label, from, to).is_some(),
        Statement::Foreach {
            var,
            range,
            items,
            ..
        } => in_foreach(seat, var, range, items).is_some(),
        Statement::Rec { body, .. } => takes_in(body, seat, loops),
        Statement::Continue { name, .. } => takes_loop(loops, &name.name),
        Statement::Choice { at, branches, .. } => {
            seat.is(at, None) || takes_among(branches, seat, loops)
        }
        Statement::Compute { at, .. } => seat.is(at, None),
        Statement::Barrier { .. }
        | Statement::Broadcast { .. }
        | Statement::Reduce { .. }
        | Statement::Allreduce { .. } => true,
    }
}

/// The loops on the way, from the outermost.
pub fn loops_on(alloc: Global, path: &[Step], seat: &Seat) -> Result<Vec<Open>, NoMemory> {
    let mut loops = Vec::new(alloc);
    for step in path {
        if let Statement::Rec { name, body, .. } = step.statement {
            let takes = takes_in(body, seat, loops.as_slice());
            loops.push(Open {
                name: name.name,
                takes,
            })?;
        }
    }
    Ok(loops)
}
