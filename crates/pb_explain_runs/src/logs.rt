//! The lines of a log that is judged.

use crate::schedules::is_open;
use pb_explain_source::{Page, Part, Source};
use pb_text::{NoMemory, Place};

/// Writes that this line is no line of a log of the protocol.
pub fn tell_log_line(page: &mut Page, source: &Source, line: u32) -> Result<(), NoMemory> {
    page.point(
        Place { line, col: 1 },
        &[Part::Text("this is no line of a log of the protocol at this N")],
    )?;
    if is_open(source, line) {
        return page.help(&[Part::Text("each line ends with a line feed, the last too")]);
    }
    page.help(&[Part::Text(
        "a line is as `0 send 1 A 5 7`, `1 recv 0 A 5 7`, `0 run K`, `0 choose K 1`, `0 enter L 5` or `0 leave L 9`, with labels, kernels and ranks that the protocol has; behind them all may stand `ended`",
    )])
}

/// Writes that the protocol has another action for the rank in the place of that in this line.
pub fn tell_differs(page: &mut Page, line: u32, rank: u32) -> Result<(), NoMemory> {
    page.point(
        Place { line, col: 1 },
        &[
            Part::Text("where rank "),
            Part::Number(i64::from(rank)),
            Part::Text(" does this, the protocol has another action for it"),
        ],
    )?;
    page.help(&[Part::Text(
        "the rank's lines before this one are as in the protocol; `pabble run FILE --n A` writes a log that keeps it",
    )])
}

/// Writes that the protocol has no more actions for the rank, from this line on.
pub fn tell_beyond(page: &mut Page, line: u32, rank: u32) -> Result<(), NoMemory> {
    page.point(
        Place { line, col: 1 },
        &[
            Part::Text("rank "),
            Part::Number(i64::from(rank)),
            Part::Text(" does this when the protocol has no more actions for it"),
        ],
    )?;
    page.help(&[Part::Text(
        "the rank's lines before this one are all that the protocol has for it, with the answers that the log shows",
    )])
}
