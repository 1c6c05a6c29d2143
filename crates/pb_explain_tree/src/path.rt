//! The way from the protocol's block to a place.

use crate::statements::{label_of, place_of};
use pb_syntax::{Block, End, Statement};
use pb_text::{NoMemory, Place};
use std::alloc::Global;

/// A statement on the way, and the one behind it in its block.
#[derive(Clone, Copy)]
pub struct Step<'a> {
    pub statement: &'a Statement,
    pub next: Option<&'a Statement>,
}

fn is_at(end: &End, place: Place) -> bool {
    end.role.place == place
}

/// Whether the braces of one of the branches open at the place.
fn opens(branches: &[Block], place: Place) -> bool {
    for branch in branches {
        if branch.place == place {
            return true;
        }
    }
    false
}

/// Whether the statement's own words stand at the place: its keyword, its label, an end, the brace of a branch.
fn has_place(statement: &Statement, place: Place) -> bool {
    if place_of(statement) == place {
        return true;
    }
    if let Some(label) = label_of(statement)
        && label.place == place
    {
        return true;
    }
    match statement {
        Statement::Message { from, to, .. } => is_at(from, place) || is_at(to, place),
        Statement::Choice { at, branches, .. } => is_at(at, place) || opens(branches, place),
        Statement::Compute { at, .. } => is_at(at, place),
        Statement::Broadcast { from, .. } => is_at(from, place),
        Statement::Reduce { to, .. } => is_at(to, place),
        Statement::Foreach { .. }
        | Statement::Rec { .. }
        | Statement::Continue { .. }
        | Statement::Barrier { .. }
        | Statement::Allreduce { .. } => false,
    }
}

#[cycle(path)]
fn find_in<'a>(block: &'a Block, place: Place, path: &mut Vec<Step<'a>>) -> Result<bool, NoMemory> {
    for (i, statement) in block.list.iter().enumerate() {
        let next = block.list.get(i.saturating_add(1));
        path.push(Step { statement, next })?;
        if find_at(statement, place, path)? {
            return Ok(true);
        }
        path.pop();
    }
    Ok(false)
}

#[cycle(path)]
fn find_among<'a>(
    branches: &'a [Block],
    place: Place,
    path: &mut Vec<Step<'a>>,
) -> Result<bool, NoMemory> {
    for branch in branches {
        if find_in(branch, place, path)? {
            return Ok(true);
        }
    }
    Ok(false)
}

#[cycle(path)]
fn find_at<'a>(
    statement: &'a Statement,
    place: Place,
    path: &mut Vec<Step<'a>>,
) -> Result<bool, NoMemory> {
    if has_place(statement, place) {
        return Ok(true);
    }
    match statement {
        Statement::Foreach { items, .. } => find_in(items, place, path),
        Statement::Rec { body, .. } => find_in(body, place, path),
        Statement::Choice { branches, .. } => find_among(branches, place, path),
        Statement::Message { .. }
        | Statement::Continue { .. }
        | Statement::Compute { .. }
        | Statement::Barrier { .. }
        | Statement::Broadcast { .. }
        | Statement::Reduce { .. }
        | Statement::Allreduce { .. } => Ok(false),
    }
}

/// The statements around the place, from the outermost to the one whose own words stand there. Empty where there is none.
pub fn path_to(alloc: Global, block: &Block, place: Place) -> Result<Vec<Step<'_>>, NoMemory> {
    let mut path = Vec::new(alloc);
    let _found = find_in(block, place, &mut path)?;
    Ok(path)
}
