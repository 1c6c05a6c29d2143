//! What is told of a line.

use crate::frame::{Framed, line_behind};
use crate::lines::{before_line, indent};
use crate::sections::wanted_at;
use crate::statements::{Stated, statement_behind};
use pb_explain_source::{Page, Part, Source};
use pb_text::{NoMemory, Place};
use std::alloc::Global;

/// How many bytes of a line are shown.
const MOST_SHOWN: usize = 120;

/// Whether the bytes begin as a protocol does: with no line of a text.
fn is_protocol(bytes: &[u8]) -> bool {
    !bytes.starts_with(b"/* pabble 1 */\n")
}

/// Appends a line behind so many spaces, as far as it is shown.
fn say_line(page: &mut Page, spaces: usize, line: &[u8]) -> Result<(), NoMemory> {
    page.say(&[Part::Text("here stands `")])?;
    for _ in 0..spaces {
        page.say(&[Part::Text(" ")])?;
    }
    let shown = line.get(..MOST_SHOWN).unwrap_or(line);
    page.say(&[Part::Bytes(shown)])?;
    page.say(&[Part::Text(if shown.len() < line.len() {
        "...`"
    } else {
        "`"
    })])
}

/// Appends what is known of a line of main.
fn say_stated(
    page: &mut Page,
    source: &Source,
    place: Place,
    stated: Stated,
) -> Result<(), NoMemory> {
    match stated {
        Stated::Settled(words, spaces) => say_line(page, spaces, words.as_slice()),
        Stated::Indented(spaces) => page.say(&[
            Part::Text("here it stands behind "),
            Part::Number(i64::try_from(spaces).unwrap_or(i64::MAX)),
            Part::Text(" spaces, two for each open brace"),
        ]),
        Stated::Ended => page.say(&[Part::Text("the text is at its end before it")]),
        Stated::Open => page.say(&[
            Part::Text("here stands "),
            Part::Text(wanted_at(source.bytes, place.line)),
        ]),
    }
}

/// Appends what stands in the line at this place.
fn say_wanted(
    alloc: Global,
    page: &mut Page,
    source: &Source,
    place: Place,
) -> Result<(), NoMemory> {
    let front = before_line(source.bytes, place.line);
    match line_behind(alloc, front)? {
        Framed::Settled(line) => {
            say_line(page, 0, line.strip_suffix(b"\n").unwrap_or(line.as_slice()))
        }
        Framed::Open => page.say(&[
            Part::Text("here stands "),
            Part::Text(wanted_at(source.bytes, place.line)),
        ]),
        Framed::Behind(labels) => {
            let line = source.line(place.line);
            let words = line.get(indent(line)..).unwrap_or_default();
            let stated = statement_behind(alloc, front, place.line, labels.as_slice(), words)?;
            say_stated(page, source, place, stated)
        }
    }
}

/// Writes that the line at this place is none that `gen` prints there, and what stands there.
pub fn tell_text_line(
    alloc: Global,
    page: &mut Page,
    source: &Source,
    place: Place,
) -> Result<(), NoMemory> {
    page.open(place)?;
    page.say(&[Part::Text("`gen` doesn't print this line here; ")])?;
    say_wanted(alloc, page, source, place)?;
    page.close(place)?;
    if place.line == 1 && is_protocol(source.bytes) {
        return page.help(&[Part::Text(
            "a text is what `pabble gen FILE` writes; a protocol is simulated by `pabble run FILE --n A`",
        )]);
    }
    page.help(&[Part::Text(
        "a text may be edited between its markers `/*@ kernel NAME */` and `/*@ end */` alone; `pabble gen FILE KERNELS` puts bodies into a new one",
    )])
}
