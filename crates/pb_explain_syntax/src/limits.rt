//! The messages on limits that are passed.

use pb_explain_source::{Page, Part, Source};
use pb_text::{NoMemory, Place, Quantity};

/// What is too much, and how much there may be.
fn reason(limit: Quantity) -> &'static str {
    match limit {
        Quantity::FileBytes => {
            "the file has too many bytes: a protocol and a kernel file have at most 1,048,576, a C text, a schedule and a log 67,108,864"
        }
        Quantity::NumberSize => "this number is too large: numbers go up to 2,000,000,000",
        Quantity::NameLength => "this name is too long: names have at most 64 bytes",
        Quantity::Nesting => "this would be the 65th open brace: there are at most 64",
        Quantity::Statements => {
            "this would be statement 4,001: a protocol has at most 4,000, the items of its foreachs counted too"
        }
        Quantity::Roles => "this would be the 65th role: there are at most 64",
        Quantity::Branches => "this would be the 65th branch: a choice has at most 64",
        Quantity::Constant => {
            "this number is too large: in an index, a range or the constant's low end it is at most 100,000"
        }
        Quantity::PayloadCount => "this payload is too large: a message has at most 1,024 numbers",
        Quantity::Breakpoints =>
            "the ends of the ranges change their order at too many N: at most at 4,096",
        Quantity::Ranks => "there would be too many ranks: a simulation has at most 1,024",
        Quantity::WordsInFlight => "too many words are under way: at most 16,777,216",
        Quantity::TextNesting => "more than 256 braces of `main` would be open here",
        Quantity::TextStatements =>
            "this would be statement 50,001 of the text: there are at most 50,000",
        Quantity::Events => "the schedule has too many events: at most 1,000,000",
        Quantity::Pieces =>
            "a count of what is sent has too many pieces, each a line in N: at most 4,096",
    }
}

/// What helps.
fn remedy(limit: Quantity) -> Option<&'static str> {
    match limit {
        Quantity::PayloadCount => Some("send it in several messages"),
        Quantity::Statements => {
            Some(
                "let a `foreach` or a binding end stand for statements that differ by their ranks alone",
            )
        }
        Quantity::Roles => {
            Some("let a role with a range, as `W[0..N-1]`, stand for roles that do the same")
        }
        Quantity::Breakpoints => Some("use fewer different offsets beside N and in the ranges"),
        Quantity::Ranks => Some("take a smaller N"),
        Quantity::Branches => Some("choose in two steps: a choice may stand in a branch"),
        Quantity::Pieces => Some("use fewer different offsets beside N in ranges and choices"),
        Quantity::Nesting => Some("end a loop or a choice before the next begins"),
        Quantity::FileBytes
        | Quantity::NumberSize
        | Quantity::NameLength
        | Quantity::Constant
        | Quantity::WordsInFlight
        | Quantity::TextNesting
        | Quantity::TextStatements
        | Quantity::Events => None,
    }
}

/// Writes which limit is passed, without a remedy; at a place where it is counted on tokens or lines.
pub fn tell_excess(
    page: &mut Page,
    source: &Source,
    limit: Quantity,
    place: Option<Place>,
) -> Result<(), NoMemory> {
    let why = Part::Text(reason(limit));
    match place {
        Some(place) => page.point(place, &[why]),
        None => page.say(&[
            Part::Text(source.file),
            Part::Text(": "),
            why,
            Part::Text("\n"),
        ]),
    }
}

/// Writes which limit is passed, and a remedy where there is one.
pub fn tell_limit(
    page: &mut Page,
    source: &Source,
    limit: Quantity,
    place: Option<Place>,
) -> Result<(), NoMemory> {
    tell_excess(page, source, limit, place)?;
    match remedy(limit) {
        Some(text) => page.help(&[Part::Text(text)]),
        None => Ok(()),
    }
}
