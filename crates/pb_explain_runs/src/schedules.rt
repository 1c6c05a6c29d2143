//! The lines of a schedule.

use pb_explain_source::{Page, Part, Source};
use pb_text::{NoMemory, Place};

/// What the line of this number has in a schedule.
fn wanted(source: &Source, line: u32) -> &'static str {
    match line {
        1 => "the first line of a schedule is `pabble schedule 2`, or `pabble schedule 1`",
        2 => "the second line is `seed B`, with a number B of at most 18446744073709551615",
        _ => {
            if source.line(1) == b"pabble schedule 1".as_slice() {
                "each line behind the seed is the number of a rank"
            } else {
                "each line behind the seed is the number of a rank, a space, and `e` for eager or `w` for waiting"
            }
        }
    }
}

/// Whether the line with this number is the last, and has no line feed.
pub fn is_open(source: &Source, line: u32) -> bool {
    let mut feeds = 0u32;
    for byte in source.bytes {
        if *byte == b'\n' {
            feeds = feeds.saturating_add(1);
        }
    }
    feeds < line && !source.line(line).is_empty()
}

/// Writes that this line of the schedule is malformed.
pub fn tell_schedule_line(page: &mut Page, source: &Source, line: u32) -> Result<(), NoMemory> {
    let place = Place { line, col: 1 };
    page.point(place, &[Part::Text(wanted(source, line))])?;
    if is_open(source, line) {
        return page.help(&[Part::Text("each line ends with a line feed, the last too")]);
    }
    page.help(&[Part::Text("a schedule is what `pabble sim TEXT --n A --schedule` writes")])
}

/// Writes that there is no rank of this line's event, where there are so many ranks at this N.
pub fn tell_no_rank(
    page: &mut Page,
    line: u32,
    rank: u32,
    n: i64,
    ranks: i64,
) -> Result<(), NoMemory> {
    page.point(
        Place { line, col: 1 },
        &[
            Part::Text("there is no rank "),
            Part::Number(i64::from(rank)),
            Part::Text(": at N = "),
            Part::Number(n),
            Part::Text(" there are "),
            Part::Number(ranks),
            Part::Text(", from 0 on"),
        ],
    )
}

/// Writes that the rank of this line's event has no step.
pub fn tell_no_step(page: &mut Page, line: u32, rank: u32) -> Result<(), NoMemory> {
    page.point(
        Place { line, col: 1 },
        &[
            Part::Text("rank "),
            Part::Number(i64::from(rank)),
            Part::Text(" has no step here"),
        ],
    )
}

/// Writes what helps where an event has no step.
pub fn help_no_step(page: &mut Page) -> Result<(), NoMemory> {
    page.help(&[Part::Text(
        "a schedule fits the text and the N that it was made of; make one anew by `pabble sim TEXT --n A --schedule`",
    )])
}
