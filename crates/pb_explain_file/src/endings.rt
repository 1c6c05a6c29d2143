//! Rule 4: what another statement follows can end.

use pb_explain_source::{Page, Part};
use pb_explain_tree::{can_end, path_to, place_of};
use pb_syntax::{Block, FileTree, Statement};
use pb_text::{NoMemory, Place};
use std::alloc::Global;

#[cycle(endless)]
fn endless_in(block: &Block) -> Option<&Statement> {
    for statement in &block.list {
        if let Some(found) = endless_at(statement) {
            return Some(found);
        }
    }
    None
}

#[cycle(endless)]
fn endless_among(branches: &[Block]) -> Option<&Statement> {
    for branch in branches {
        if let Some(found) = endless_in(branch) {
            return Some(found);
        }
    }
    None
}

/// The first loop in the statement that can't end, the statement itself counted too.
#[cycle(endless)]
fn endless_at(statement: &Statement) -> Option<&Statement> {
    match statement {
        Statement::Rec { body, .. } => {
            if can_end(statement) {
                endless_in(body)
            } else {
                Some(statement)
            }
        }
        Statement::Choice { branches, .. } => endless_among(branches),
        Statement::Foreach { .. }
        | Statement::Continue { .. }
        | Statement::Message { .. }
        | Statement::Compute { .. }
        | Statement::Barrier { .. }
        | Statement::Broadcast { .. }
        | Statement::Reduce { .. }
        | Statement::Allreduce { .. } => None,
    }
}

/// What the statement is called.
fn called(statement: &Statement) -> &'static str {
    match statement {
        Statement::Rec { .. } => "this loop",
        Statement::Choice { .. } => "this choice",
        Statement::Continue { .. } => "this `continue`",
        Statement::Foreach { .. }
        | Statement::Message { .. }
        | Statement::Compute { .. }
        | Statement::Barrier { .. }
        | Statement::Broadcast { .. }
        | Statement::Reduce { .. }
        | Statement::Allreduce { .. } => "this statement",
    }
}

/// Says which loop inside never ends, where it isn't the statement itself.
fn note_endless(page: &mut Page, statement: &Statement, place: Place) -> Result<(), NoMemory> {
    let Some(endless) = endless_at(statement) else {
        return Ok(());
    };
    let at = place_of(endless);
    if at == place {
        return Ok(());
    }
    page.note(at, &[Part::Text("this loop in it never ends")])
}

/// Writes why the statement at the place breaks rule 4.
pub fn tell_ending(
    alloc: Global,
    page: &mut Page,
    file: &FileTree,
    place: Place,
) -> Result<(), NoMemory> {
    let path = path_to(alloc, &file.body, place)?;
    let Some(step) = path.last() else {
        return Ok(());
    };
    let statement = step.statement;
    page.point(
        place,
        &[
            Part::Text("rule 4: "),
            Part::Text(called(statement)),
            Part::Text(
                " never comes to its end, since each way through it ends in a `continue`; and another statement follows",
            ),
        ],
    )?;
    note_endless(page, statement, place)?;
    if let Some(next) = step.next {
        page.note(
            place_of(next),
            &[Part::Text("this one would never be reached")],
        )?;
    }
    page.help(&[Part::Text(
        "let the loop end by a choice: `choice K at ROLE[0] { .. continue X; } or { .. }`; or move what follows into the loop",
    )])
}
