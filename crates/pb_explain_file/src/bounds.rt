//! Rule 5: there are enough numbers, and each N has its own number of ranks.

use pb_explain_source::{Page, Part};
use pb_syntax::{FileTree, High};
use pb_text::{NoMemory, Place};

fn tell_low(page: &mut Page, place: Place) -> Result<(), NoMemory> {
    page.point(
        place,
        &[Part::Text("rule 5: the constant begins at 0, and its least value is 1")],
    )?;
    page.help(&[Part::Text("begin at 1 or higher")])
}

fn tell_high(page: &mut Page, file: &FileTree, place: Place) -> Result<(), NoMemory> {
    let high = match file.high {
        High::Upto(high) => i64::from(high),
        High::Max => i64::from(file.low),
    };
    page.point(
        place,
        &[
            Part::Text("rule 5: the constant has no value: from "),
            Part::Number(i64::from(file.low)),
            Part::Text(" to "),
            Part::Number(high),
            Part::Text(" there is no number"),
        ],
    )?;
    page.help(&[Part::Text("write the lesser number first, or `max` where there is no upper end")])
}

fn tell_total(page: &mut Page, file: &FileTree, place: Place) -> Result<(), NoMemory> {
    let constant = Part::Name(&file.constant.name);
    page.point(
        place,
        &[
            Part::Text("rule 5: the number of ranks doesn't grow with `"),
            constant,
            Part::Text("`, so no MPI program can tell `"),
            constant,
            Part::Text("` from the number of its ranks"),
        ],
    )?;
    page.help(&[
        Part::Text("give a role a range that grows, as `[0.."),
        constant,
        Part::Text("-1]`, or the constant one value, as `const "),
        constant,
        Part::Text(" = 4..4;`"),
    ])
}

/// Writes why the file breaks rule 5 at the place.
pub fn tell_bounds(page: &mut Page, file: &FileTree, place: Place) -> Result<(), NoMemory> {
    if place == file.low_place {
        tell_low(page, place)
    } else if place == file.high_place {
        tell_high(page, file, place)
    } else {
        tell_total(page, file, place)
    }
}
