//! Files with strips that aren't flattened.

ghost use Rattle.std.specs.Prelude.{IfOk};
ghost use Rattle.pb_explain_source.specs.Pages.{IsPageOf};
ghost use Rattle.pb_explain_again.specs.Told.{IsTold};

use crate::named::{Sentence, point_at_word};
use pb_cli_status::{Quantity, Refusal, Status, StripWrong};
use pb_cli_strips::refusal_in;
use pb_explain_again::{Again, MOST_FILE_BYTES, read_again, text_of_loss};
use pb_explain_source::{NoMemory, Page, Part, Source};
use pb_explain_syntax::{tell_excess, tell_limit};
use pb_io::Folder;
use pb_text::{MOST_TEXT_BYTES, Place};
use std::alloc::Global;

/// How many bytes a name has at most.
const MOST_NAME_BYTES: usize = 64;

/// What is wrong with a strip, an end, or a name, around the name at the place.
fn reason(wrong: StripWrong) -> Sentence<'static> {
    match wrong {
        StripWrong::Width => Sentence {
            front: "the columns of `",
            behind: "` don't ascend, or go beyond 63",
        },
        StripWrong::Plain => Sentence {
            front: "where `",
            behind: "` is a strip, an end of it has a row and a column, as `G[i][1]`, and else no column",
        },
        StripWrong::Variable => Sentence {
            front: "`",
            behind: "` isn't the variable of a `columns` around",
        },
        StripWrong::Column => Sentence {
            front: "`",
            behind: "` has no such column, or not at each value of the variable",
        },
        StripWrong::Clash => Sentence {
            front: "`",
            behind: "` is the name of a column's role",
        },
    }
}

/// What to do about it.
fn remedy(wrong: StripWrong) -> &'static str {
    match wrong {
        StripWrong::Width => "write the first column and then the last, as in `[0..2]`",
        StripWrong::Plain => "give each end of a strip its column, and take it from the others",
        StripWrong::Variable => {
            "name a column by a number, or by the variable of `columns (j:0..2) { .. }` around the statement"
        }
        StripWrong::Column => {
            "name one that the strip has; let a variable run over fewer values, or change what is added to it"
        }
        StripWrong::Clash => "column 1 of a strip `G` is the role `G_1`: give this another name",
    }
}

/// Writes that a file with strips doesn't go on so.
fn tell_stop(page: &mut Page, place: Place) -> Result<(), NoMemory> {
    page.point(place, &[Part::Text("no file with strips goes on so")])?;
    page.help(&[Part::Text(
        "docs/LANGUAGE.md has the grammar: `role G[0..N-1][0..2]`, ends as `G[i][1]`, and `columns (j:0..1) { .. }`, which doesn't stand in itself",
    )])
}

/// Writes that there are too many roles.
fn tell_roles(page: &mut Page, source: &Source, place: Place) -> Result<(), NoMemory> {
    tell_excess(page, source, Quantity::Roles, Some(place))?;
    page.help(&[Part::Text(
        "each column of a strip is a role, and a file may have 64: declare fewer columns",
    )])
}

/// Writes that a name is too long: a strip's, or any.
fn tell_name(page: &mut Page, source: &Source, place: Place) -> Result<(), NoMemory> {
    if source.word(place).len() > MOST_NAME_BYTES {
        return tell_limit(page, source, Quantity::NameLength, Some(place));
    }
    page.point(
        place,
        &[Part::Text("this name is too long: names of strips have at most 60 bytes")],
    )?;
    page.help(&[Part::Text("column 1 of a strip `G` is the role `G_1`, whose name is longer")])
}

/// Writes which limit is passed.
fn tell_limits(
    page: &mut Page,
    source: &Source,
    limit: Quantity,
    place: Place,
) -> Result<(), NoMemory> {
    match limit {
        Quantity::Roles => tell_roles(page, source, place),
        Quantity::NameLength => tell_name(page, source, place),
        _ => tell_limit(page, source, limit, Some(place)),
    }
}

/// Writes why these bytes aren't flattened.
fn tell_refusal(page: &mut Page, source: &Source, why: &Refusal) -> Result<(), NoMemory> {
    match why {
        Refusal::Strip(wrong, place) => {
            point_at_word(page, source, *place, &reason(*wrong))?;
            page.help(&[Part::Text(remedy(*wrong))])
        }
        Refusal::Syntax(place) => tell_stop(page, *place),
        Refusal::Limit(limit, place) => tell_limits(page, source, *limit, *place),
        _ => Ok(()),
    }
}

/// Writes why these bytes aren't flattened, where the program ends with this status for it.
fn tell_due(
    alloc: Global,
    page: &mut Page,
    source: &Source,
    status: Status,
) -> Result<(), NoMemory> {
    if source.bytes.len() > MOST_TEXT_BYTES as usize {
        return Ok(());
    }
    match refusal_in(alloc, source.bytes) {
        Some(why) if why.status() == status => tell_refusal(page, source, &why),
        Some(_) | None => Ok(()),
    }
}

/// What is told of the bytes of a file with strips.
fn text_of_columns(alloc: Global, source: &Source, status: Status) -> Result<Vec<u8>, NoMemory>
    ensures { IfOk result (λ text. IsPageOf source.now.file.now source.now.bytes.now text.items) }
{
    let mut page = Page::new(alloc);
    tell_due(alloc, &mut page, source, status)?;
    page.text(alloc, source)
}

/// What is told of a file with strips.
pub fn text_of_strips<F: Folder>(
    alloc: Global,
    folder: &mut F,
    file: &str,
    status: Status,
) -> Result<Vec<u8>, NoMemory>
    ensures { IfOk result (λ text. IsTold (F.holds folder.old) text.items) }
{
    match read_again(alloc, folder, file, MOST_FILE_BYTES)? {
        Again::Bytes(bytes) => {
            let source = Source {
                file,
                bytes: &bytes,
            };
            text_of_columns(alloc, &source, status)
        }
        Again::Lost(loss) => text_of_loss(alloc, file, loss, status),
    }
}
