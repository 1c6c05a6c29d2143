//! The ranges in a block that are empty at one N.

use crate::setting::Setting;
use pb_syntax::{Block, End, IndexText, RangeText, Statement};
use pb_text::NoMemory;

fn add_range<'a>(
    range: &'a RangeText,
    setting: &Setting,
    out: &mut Vec<&'a RangeText>,
) -> Result<(), NoMemory> {
    match setting.span(range) {
        Some(span) if span.count() == 0 => {
            out.push(range)?;
            Ok(())
        }
        _ => Ok(()),
    }
}

fn add_end<'a>(
    end: &'a End,
    setting: &Setting,
    out: &mut Vec<&'a RangeText>,
) -> Result<(), NoMemory> {
    match &end.index {
        IndexText::Bind(_, range) => add_range(range, setting, out),
        IndexText::Zero | IndexText::At(_) => Ok(()),
    }
}

/// Adds the ranges in the block that are empty at N, in their order.
#[cycle(empty)]
pub fn add_empty_in<'a>(
    block: &'a Block,
    setting: &Setting,
    out: &mut Vec<&'a RangeText>,
) -> Result<(), NoMemory> {
    for statement in &block.list {
        add_empty_at(statement, setting, out)?;
    }
    Ok(())
}

#[cycle(empty)]
fn add_empty_among<'a>(
    branches: &'a [Block],
    setting: &Setting,
    out: &mut Vec<&'a RangeText>,
) -> Result<(), NoMemory> {
    for branch in branches {
        add_empty_in(branch, setting, out)?;
    }
    Ok(())
}

#[cycle(empty)]
fn add_empty_at<'a>(
    statement: &'a Statement,
    setting: &Setting,
    out: &mut Vec<&'a RangeText>,
) -> Result<(), NoMemory> {
    match statement {
        Statement::Message { from, to, .. } => {
            add_end(from, setting, out)?;
            add_end(to, setting, out)
        }
        Statement::Foreach { range, .. } => add_range(range, setting, out),
        Statement::Rec { body, .. } => add_empty_in(body, setting, out),
        Statement::Choice { branches, .. } => add_empty_among(branches, setting, out),
        Statement::Continue { .. }
        | Statement::Compute { .. }
        | Statement::Barrier { .. }
        | Statement::Broadcast { .. }
        | Statement::Reduce { .. }
        | Statement::Allreduce { .. } => Ok(()),
    }
}
