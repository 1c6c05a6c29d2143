//! Simulations that don't come to their end.

use pb_explain_source::{Page, Part};
use pb_text::NoMemory;

/// The most events that may be asked for.
const MOST_TURNS: u64 = 1_000_000;

/// Writes that all events were made that the options ask for.
pub fn tell_turns(page: &mut Page, file: &str, turns: u64) -> Result<(), NoMemory> {
    page.say(&[
        Part::Text(file),
        Part::Text(": after "),
        Part::Number(i64::try_from(turns).unwrap_or(i64::MAX)),
        Part::Text(if turns == 1 {
            " event some rank can still go on\n"
        } else {
            " events some rank can still go on\n"
        }),
    ])?;
    if turns < MOST_TURNS {
        return page.help(&[Part::Text("more events are made with `--turns C`, up to 1000000")]);
    }
    page.help(&[Part::Text(
        "another `--seed B` lets the kernels choose otherwise; a loop that no choice leaves goes on for ever",
    )])
}

/// Writes that all events of a schedule were made.
pub fn tell_events(page: &mut Page, file: &str) -> Result<(), NoMemory> {
    page.say(&[
        Part::Text(file),
        Part::Text(": all its events are made, and some rank can still go on\n"),
    ])?;
    page.help(&[Part::Text(
        "a schedule of a whole run is what `pabble sim TEXT --n A --schedule` writes where it ends with status 0",
    )])
}

/// Writes that too many words would be under way.
pub fn tell_flight(page: &mut Page, file: &str) -> Result<(), NoMemory> {
    page.say(&[
        Part::Text(file),
        Part::Text(": with the next send more than 16777216 words would be under way\n"),
    ])?;
    page.help(&[Part::Text(
        "with `--mode waiting` each send waits until it is taken; or take a smaller N",
    )])
}
