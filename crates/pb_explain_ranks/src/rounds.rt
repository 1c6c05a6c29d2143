//! Rule 9: a loop that comes round has somebody in it.

use crate::empty::add_empty_in;
use crate::setting::{Setting, Span};
use pb_explain_source::{Page, Part};
use pb_explain_tree::path_to;
use pb_syntax::{Block, RangeText, Statement};
use pb_text::{NoMemory, Place};
use std::alloc::Global;

/// How many places are shown at most.
const MOST_NOTES: usize = 3;

fn note_range(page: &mut Page, setting: &Setting, range: &RangeText) -> Result<(), NoMemory> {
    let span = setting.span(range).unwrap_or(Span { low: 0, high: 0 });
    page.note(
        range.low.place,
        &[
            Part::Text("this range is empty at N = "),
            Part::Number(setting.n),
            Part::Text(": it is "),
            Part::Number(span.low),
            Part::Text(".."),
            Part::Number(span.high),
        ],
    )
}

/// Points at the first few ranges.
fn note_ranges(page: &mut Page, setting: &Setting, ranges: &[&RangeText]) -> Result<(), NoMemory> {
    for (i, range) in ranges.iter().enumerate() {
        if i >= MOST_NOTES {
            break;
        }
        note_range(page, setting, range)?;
    }
    Ok(())
}

/// Points at what would have ranks at another N.
fn note_body(
    alloc: Global,
    page: &mut Page,
    setting: &Setting,
    body: &Block,
) -> Result<(), NoMemory> {
    let mut ranges = Vec::new(alloc);
    add_empty_in(body, setting, &mut ranges)?;
    note_ranges(page, setting, ranges.as_slice())?;
    if ranges.is_empty() {
        return page.help(&[Part::Text(
            "the loop has no message, no compute and no collective: put into it what is to be repeated",
        )]);
    }
    page.help(&[
        Part::Text("let `"),
        Part::Name(&setting.file.constant.name),
        Part::Text("` begin at "),
        Part::Number(setting.n.saturating_add(1)),
        Part::Text(" or higher, or put a message into the loop that is there at every N"),
    ])
}

/// Writes why the loop at the place breaks rule 9.
pub fn tell_round(
    alloc: Global,
    page: &mut Page,
    setting: &Setting,
    place: Place,
) -> Result<(), NoMemory> {
    let path = path_to(alloc, &setting.file.body, place)?;
    let Some(step) = path.last() else {
        return Ok(());
    };
    let Statement::Rec { name, body, .. } = step.statement else {
        return Ok(());
    };
    page.point(
        place,
        &[
            Part::Text("rule 9: at N = "),
            Part::Number(setting.n),
            Part::Text(" nobody takes part in the loop `"),
            Part::Name(&name.name),
            Part::Text("`, and it would go round for ever"),
        ],
    )?;
    note_body(alloc, page, setting, body)
}
