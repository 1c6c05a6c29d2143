use crate::chains::warn_chain;
use crate::ranges::warn_range;
use crate::unused::{warn_loop, warn_role, warn_variable};
use pb_explain_source::Page;
use pb_syntax::{Block, End, FileTree, IndexText, Statement};
use pb_text::NoMemory;

/// How many bytes of warnings are enough, without the lines of the file.
const MOST_BYTES: usize = 4096;

/// Whether there are warnings enough: each looks for its line from the file's first one.
fn is_full(page: &Page) -> bool {
    page.words().len() > MOST_BYTES
}

fn warn_end(page: &mut Page, file: &FileTree, end: &End) -> Result<(), NoMemory> {
    match &end.index {
        IndexText::Bind(_, range) => warn_range(page, file, range),
        IndexText::Zero | IndexText::At(_) => Ok(()),
    }
}

#[cycle(warn)]
fn warn_in(block: &Block, page: &mut Page, file: &FileTree) -> Result<(), NoMemory> {
    for (i, statement) in block.list.iter().enumerate() {
        if is_full(page) {
            break;
        }
        warn_chain(page, statement, block.list.get(i.saturating_add(1)))?;
        warn_at(statement, page, file)?;
    }
    Ok(())
}

#[cycle(warn)]
fn warn_among(branches: &[Block], page: &mut Page, file: &FileTree) -> Result<(), NoMemory> {
    for branch in branches {
        warn_in(branch, page, file)?;
    }
    Ok(())
}

#[cycle(warn)]
fn warn_at(statement: &Statement, page: &mut Page, file: &FileTree) -> Result<(), NoMemory> {
    match statement {
        Statement::Message { from, to, .. } => {
            warn_end(page, file, from)?;
            warn_end(page, file, to)
        }
        Statement::Foreach {
            var,
            range,
            items,
            ..
        } => {
            warn_range(page, file, range)?;
            warn_variable(page, var, items)
        }
        Statement::Rec { name, body, .. } => {
            warn_loop(page, name, body)?;
            warn_in(body, page, file)
        }
        Statement::Choice { branches, .. } => warn_among(branches, page, file),
        Statement::Continue { .. }
        | Statement::Compute { .. }
        | Statement::Barrier { .. }
        | Statement::Broadcast { .. }
        | Statement::Reduce { .. }
        | Statement::Allreduce { .. } => Ok(()),
    }
}

/// Writes a warning for each thing in the file that is lawful and mostly a mistake.
pub fn tell_warnings(page: &mut Page, file: &FileTree) -> Result<(), NoMemory> {
    for role in &file.roles {
        warn_role(page, file, role)?;
    }
    warn_in(&file.body, page, file)
}
