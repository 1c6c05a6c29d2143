//! Which N there are.

use crate::counts::{Count, note_counts};
use pb_explain_source::{Page, Part};
use pb_syntax::{FileTree, High};
use pb_text::{NoMemory, Place};

/// The numbers N that a file is for.
#[derive(Clone, Copy)]
pub struct Values {
    pub low: i64,
    /// None where there is no upper end.
    pub high: Option<i64>,
}

impl Values {
    /// Those of a protocol.
    pub fn of(file: &FileTree) -> Values {
        Values {
            low: i64::from(file.low),
            high: match file.high {
                High::Upto(high) => Some(i64::from(high)),
                High::Max => None,
            },
        }
    }

    /// The one that is nearest to a number.
    pub fn nearest(self, n: i64) -> i64 {
        match self.high {
            Some(high) if n > high => high,
            _ => n.max(self.low),
        }
    }
}

/// Appends what N may be.
fn help_values(page: &mut Page, values: Values, n: i64) -> Result<(), NoMemory> {
    if n < values.low {
        page.help(&[
            Part::Text("take `--n "),
            Part::Number(values.low),
            Part::Text("` or more"),
        ])
    } else {
        page.help(&[
            Part::Text("take `--n "),
            Part::Number(values.nearest(n)),
            Part::Text("` or less"),
        ])
    }
}

/// Appends the range, with a `max` where there is no upper end.
fn say_values(page: &mut Page, values: Values) -> Result<(), NoMemory> {
    page.say(&[Part::Number(values.low), Part::Text("..")])?;
    match values.high {
        Some(high) => page.say(&[Part::Number(high)]),
        None => page.say(&[Part::Text("max")]),
    }
}

/// Writes that the protocol isn't for this N, and how many ranks there are at the nearest one that it is for.
pub fn tell_outside(
    page: &mut Page,
    file: &FileTree,
    n: i64,
    counts: &[Count],
) -> Result<(), NoMemory> {
    let values = Values::of(file);
    let place = if n < values.low {
        file.low_place
    } else {
        file.high_place
    };
    page.open(place)?;
    page.say(&[
        Part::Text("`--n "),
        Part::Number(n),
        Part::Text("` is out of range: the constant `"),
        Part::Name(&file.constant.name),
        Part::Text("` is one of "),
    ])?;
    say_values(page, values)?;
    page.close(place)?;
    note_counts(page, values.nearest(n), counts)?;
    help_values(page, values, n)
}

/// The same for a C text, whose third line has the range.
pub fn tell_outside_text(
    page: &mut Page,
    values: Values,
    n: i64,
    counts: &[Count],
) -> Result<(), NoMemory> {
    let place = Place { line: 3, col: 1 };
    page.open(place)?;
    page.say(&[
        Part::Text("`--n "),
        Part::Number(n),
        Part::Text("` is out of range: the text is for N of "),
    ])?;
    say_values(page, values)?;
    page.close(place)?;
    note_counts(page, values.nearest(n), counts)?;
    help_values(page, values, n)
}
