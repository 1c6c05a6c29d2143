//! A line of a source, with a caret under a place.

ghost use Rattle.std.specs.Prelude.{OnOk};
ghost use Rattle.pb_explain_source.specs.Pages.{IsPage, IsPlaceOf};

use crate::draft::Draft;
use crate::source::Source;
use pb_text::{NoMemory, Place};

/// How many bytes of a line are shown before the place, and how many from there on.
const BEFORE: usize = 70;

const BEHIND: usize = 50;

/// How wide the column of line numbers is.
const GUTTER: usize = 5;

/// How many digits a number has.
fn digits(n: u32) -> usize {
    let mut rest = n / 10;
    let mut count = 1usize;
    for _ in 0..10 {
        if rest == 0 {
            break;
        }
        rest /= 10;
        count = count.saturating_add(1);
    }
    count
}

/// What of a line is shown.
#[derive(Clone, Copy)]
struct Shown<'a> {
    /// What stands before the place.
    before: &'a [u8],
    /// What stands there and behind it.
    behind: &'a [u8],
    /// Whether the line begins before what is shown, and whether it ends behind it.
    is_cut: (bool, bool),
}

/// What of a line is shown for a column.
fn shown_of<'a>(line: &'a [u8], col: u32) -> Shown<'a> {
    let at = (col as usize).saturating_sub(1).min(line.len());
    let from = if at > BEFORE {
        at.saturating_sub(40)
    } else {
        0
    };
    let to = at.saturating_add(BEHIND);
    let rest = line.get(at..).unwrap_or_default();
    Shown {
        before: line.get(from..at).unwrap_or_default(),
        behind: line.get(at..to).unwrap_or(rest),
        is_cut: (from > 0, to < line.len()),
    }
}

/// A byte of a line as it is shown. What would move a terminal's cursor is `?`, and so is what isn't ASCII.
fn plain(byte: u8) -> u8 {
    if byte == b'\t' || (byte >= b' ' && byte < 127) {
        byte
    } else {
        b'?'
    }
}

fn push_times(draft: &mut Draft, source: &Source, byte: u8, count: usize) -> Result<(), NoMemory>
    requires { IsPage source.now.file.now source.now.bytes.now draft.old.tail draft.old.text.items }
    ensures { OnOk result (IsPage source.now.file.now source.now.bytes.now draft.new.tail draft.new.text.items) }
{
    for _ in 0..count {
        draft.push(source, byte)?;
    }
    Ok(())
}

/// Appends a piece of a line.
fn push_shown(draft: &mut Draft, source: &Source, piece: &[u8]) -> Result<(), NoMemory>
    requires { IsPage source.now.file.now source.now.bytes.now draft.old.tail draft.old.text.items }
    ensures { OnOk result (IsPage source.now.file.now source.now.bytes.now draft.new.tail draft.new.text.items) }
{
    for byte in piece {
        draft.push(source, plain(*byte))?;
    }
    Ok(())
}

/// Appends as many spaces as the piece is wide. Tabs stay.
fn push_blank(draft: &mut Draft, source: &Source, piece: &[u8]) -> Result<(), NoMemory>
    requires { IsPage source.now.file.now source.now.bytes.now draft.old.tail draft.old.text.items }
    ensures { OnOk result (IsPage source.now.file.now source.now.bytes.now draft.new.tail draft.new.text.items) }
{
    for byte in piece {
        draft.push(source, if *byte == b'\t' { b'\t' } else { b' ' })?;
    }
    Ok(())
}

/// Appends the line of a place, cut where it is long.
fn push_line(draft: &mut Draft, source: &Source, place: Place, line: &Shown) -> Result<(), NoMemory>
    requires page { IsPage source.now.file.now source.now.bytes.now draft.old.tail draft.old.text.items }
    requires place { IsPlaceOf source.now.bytes.now place }
    ensures { OnOk result (IsPage source.now.file.now source.now.bytes.now draft.new.tail draft.new.text.items) }
{
    push_times(
        draft,
        source,
        b' ',
        GUTTER.saturating_sub(digits(place.line)),
    )?;
    draft.quote(source, place)?;
    draft.say(source, if line.is_cut.0 { b"..." } else { b"" })?;
    push_shown(draft, source, line.before)?;
    push_shown(draft, source, line.behind)?;
    draft.say(source, if line.is_cut.1 { b"...\n" } else { b"\n" })
}

/// Appends so many carets, below what stands at a place.
fn push_carets(
    draft: &mut Draft,
    source: &Source,
    line: &Shown,
    count: usize,
) -> Result<(), NoMemory>
    requires { IsPage source.now.file.now source.now.bytes.now draft.old.tail draft.old.text.items }
    ensures { OnOk result (IsPage source.now.file.now source.now.bytes.now draft.new.tail draft.new.text.items) }
{
    draft.say(source, b"      | ")?;
    draft.say(source, if line.is_cut.0 { b"   " } else { b"" })?;
    push_blank(draft, source, line.before)?;
    push_times(draft, source, b'^', count)?;
    draft.say(source, b"\n")
}

/// Appends the line of a place of the file, cut where it is long, and below it a caret for each byte of the word there.
pub fn push_excerpt(draft: &mut Draft, source: &Source, place: Place) -> Result<(), NoMemory>
    requires page { IsPage source.now.file.now source.now.bytes.now draft.old.tail draft.old.text.items }
    requires place { IsPlaceOf source.now.bytes.now place }
    ensures { OnOk result (IsPage source.now.file.now source.now.bytes.now draft.new.tail draft.new.text.items) }
{
    let line = shown_of(source.line(place.line), place.col);
    push_line(draft, source, place, &line)?;
    push_carets(draft, source, &line, source.width(place).min(BEHIND))
}
