//! Simulations in which nobody can go on.

use pb_explain_source::{Page, Part};
use pb_text::{Name, NoMemory};

/// Why a rank can't go on.
#[derive(Clone, Copy)]
pub enum Wait<'a> {
    /// It waits for a message with this label from this rank.
    Message { label: &'a [u8], from: u32 },
    /// It waits for the first message from this rank.
    First { from: u32 },
    /// It waits until this rank takes its message with this label.
    Taken { label: &'a [u8], by: u32 },
    /// It waits in a collective, which this rank hasn't entered, where that is known of one.
    Collective { absent: Option<u32> },
    /// It goes round without an action.
    Lost,
    /// What it would do next means nothing.
    Undefined,
    /// It has come to its end.
    Ended,
}

/// Writes that nobody can go on in a simulation of a text. Who waits for whom follows, what the ranks did last, and then
/// `help_stuck`.
pub fn tell_stuck(page: &mut Page, file: &str) -> Result<(), NoMemory> {
    page.say(&[
        Part::Text(file),
        Part::Text(": no rank can go on, and not all is at its end\n"),
    ])
}

/// Writes that a message is left where all ranks have come to their ends.
pub fn tell_left<'x>(
    page: &mut Page,
    file: &'x str,
    rank: u32,
    from: u32,
    label: &'x [u8],
) -> Result<(), NoMemory> {
    page.say(&[Part::Text(file)])?;
    page.say(&[
        Part::Text(": all ranks have come to their ends, and rank "),
        Part::Number(i64::from(rank)),
        Part::Text(" hasn't taken `"),
    ])?;
    page.say(&[
        Part::Bytes(label),
        Part::Text("` from rank "),
        Part::Number(i64::from(from)),
        Part::Text("\n"),
    ])
}

/// Writes what comes before what each rank waits for.
pub fn note_waits(page: &mut Page) -> Result<(), NoMemory> {
    page.say(&[Part::Text("note: who waits for whom\n")])
}

/// Appends a rank that is told of.
fn say_rank(page: &mut Page, rank: u32, role: &Name, index: i64) -> Result<(), NoMemory> {
    page.say(&[
        Part::Text("rank "),
        Part::Number(i64::from(rank)),
        Part::Text(", `"),
        Part::Rank(role, index),
        Part::Text("`"),
    ])
}

/// Appends that a rank waits in a collective.
fn say_collective(page: &mut Page, absent: Option<u32>) -> Result<(), NoMemory> {
    match absent {
        None => page.say(&[Part::Text(", waits in a collective")]),
        Some(other) => page.say(&[
            Part::Text(", waits in a collective, which rank "),
            Part::Number(i64::from(other)),
            Part::Text(" hasn't entered"),
        ]),
    }
}

/// Appends what a rank waits for.
fn say_wait(page: &mut Page, wait: Wait) -> Result<(), NoMemory> {
    match wait {
        Wait::Message { label, from } => {
            page.say(&[Part::Text(", waits for `"), Part::Bytes(label)])?;
            page.say(&[Part::Text("` from rank "), Part::Number(i64::from(from))])
        }
        Wait::First { from } => page.say(&[
            Part::Text(", waits for the first message from rank "),
            Part::Number(i64::from(from)),
        ]),
        Wait::Taken { label, by } => {
            page.say(&[
                Part::Text(", waits until rank "),
                Part::Number(i64::from(by)),
                Part::Text(" takes its `"),
            ])?;
            page.say(&[Part::Bytes(label), Part::Text("`")])
        }
        Wait::Collective { absent } => say_collective(page, absent),
        Wait::Lost => page.say(&[Part::Text(", goes round without an action")]),
        Wait::Undefined => page.say(&[Part::Text(
            ", can't do what is next: no test holds of the message there, it is at another collective than the others, or its peer is no rank",
        )]),
        Wait::Ended => page.say(&[Part::Text(", has come to its end")]),
    }
}

/// Writes what the rank with this number waits for, in a line below `note_waits`.
pub fn tell_wait(
    page: &mut Page,
    rank: u32,
    role: &Name,
    index: i64,
    wait: Wait,
) -> Result<(), NoMemory> {
    page.say(&[Part::Text("  ")])?;
    say_rank(page, rank, role, index)?;
    say_wait(page, wait)?;
    page.say(&[Part::Text("\n")])
}

/// Writes the same in a note of its own.
pub fn note_wait(
    page: &mut Page,
    rank: u32,
    role: &Name,
    index: i64,
    wait: Wait,
) -> Result<(), NoMemory> {
    page.say(&[Part::Text("note: ")])?;
    say_rank(page, rank, role, index)?;
    say_wait(page, wait)?;
    page.say(&[Part::Text("\n")])
}

/// Writes that ranks wait for each other: those from this one on, or all that were told of.
pub fn note_ring(page: &mut Page, first: Option<u32>) -> Result<(), NoMemory> {
    match first {
        None => page.say(&[Part::Text("note: that is a ring: each of them waits for another\n")]),
        Some(rank) => page.say(&[
            Part::Text("note: from rank "),
            Part::Number(i64::from(rank)),
            Part::Text(" on that is a ring: each of them waits for another\n"),
        ]),
    }
}

/// Writes that more ranks wait than were told of.
pub fn note_more(page: &mut Page) -> Result<(), NoMemory> {
    page.say(&[Part::Text("  ..\n")])
}

/// Writes what comes before what each rank did last.
pub fn note_deeds(page: &mut Page) -> Result<(), NoMemory> {
    page.say(&[Part::Text("note: the last that each rank did\n")])
}

/// Writes what the rank with this number did last, as a log has it, without the rank; no words where it did nothing.
pub fn note_deed(
    page: &mut Page,
    rank: u32,
    role: &Name,
    index: i64,
    words: &[u8],
) -> Result<(), NoMemory> {
    page.say(&[Part::Text("  ")])?;
    say_rank(page, rank, role, index)?;
    if words.is_empty() {
        page.say(&[Part::Text(": nothing\n")])
    } else {
        page.say(&[Part::Text(": "), Part::Bytes(words), Part::Text("\n")])
    }
}

/// Writes what helps where nobody can go on.
pub fn help_stuck(page: &mut Page) -> Result<(), NoMemory> {
    page.help(&[Part::Text(
        "a text as `gen` prints it never comes to this; it was edited outside of its markers: print it anew by `pabble gen FILE`",
    )])
}
