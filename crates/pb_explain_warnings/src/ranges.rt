//! Ranges that are empty.

use pb_explain_source::{Page, Part};
use pb_explain_tree::is_same;
use pb_syntax::{FileTree, High, LinText, RangeText};
use pb_text::NoMemory;

/// From which N on a range is empty.
#[derive(Clone, Copy)]
enum Empty {
    Never,
    /// At every N of the file.
    Always,
    /// From this N on.
    From(i64),
}

/// Whether the lin moves with the constant.
fn moves(file: &FileTree, lin: &LinText) -> bool {
    match &lin.base {
        Some(base) => is_same(&base.name, &file.constant.name),
        None => false,
    }
}

/// Whether N can be as large.
fn reaches(file: &FileTree, n: i64) -> bool {
    match file.high {
        High::Max => true,
        High::Upto(high) => n <= i64::from(high),
    }
}

/// When a range whose lower end moves with N, and whose upper end doesn't, is empty.
fn falling(file: &FileTree, low: i64, high: i64) -> Empty {
    let from = high.saturating_sub(low).saturating_add(1);
    if from <= i64::from(file.low) {
        Empty::Always
    } else if reaches(file, from) {
        Empty::From(from)
    } else {
        Empty::Never
    }
}

fn emptiness(file: &FileTree, range: &RangeText) -> Empty {
    let low = i64::from(range.low.off);
    let high = i64::from(range.high.off);
    match (moves(file, &range.low), moves(file, &range.high)) {
        (true, false) => falling(file, low, high),
        (false, true) => {
            // It is empty below this N.
            let below = low.saturating_sub(high);
            if reaches(file, below) {
                Empty::Never
            } else {
                Empty::Always
            }
        }
        (true, true) | (false, false) => {
            if low > high {
                Empty::Always
            } else {
                Empty::Never
            }
        }
    }
}

/// Writes a warning on a range that is empty.
pub fn warn_range(page: &mut Page, file: &FileTree, range: &RangeText) -> Result<(), NoMemory> {
    let place = range.low.place;
    match emptiness(file, range) {
        Empty::Never => return Ok(()),
        Empty::Always => page.warn(
            place,
            &[
                Part::Text("the range "),
                Part::Range(range),
                Part::Text(" is empty for every N"),
            ],
        )?,
        Empty::From(n) => page.warn(
            place,
            &[
                Part::Text("the range "),
                Part::Range(range),
                Part::Text(" is empty for every N from "),
                Part::Number(n),
                Part::Text(" on"),
            ],
        )?,
    }
    page.help(&[
        Part::Text("ranges ascend: perhaps `"),
        Part::Lin(&range.high),
        Part::Text(".."),
        Part::Lin(&range.low),
        Part::Text(
            "` is meant; what goes down the ranks is written with the ranks numbered the other way",
        ),
    ])
}
