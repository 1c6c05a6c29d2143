//! What an event says of itself.

use crate::pen::Pen;
use pb_draw_log::{Deed, Entry, Log};
use pb_text::NoMemory;

/// How many bytes of an event's words are shown.
const MOST_BYTES: usize = 30;

/// The event of that line, counted from 0, as a tooltip.
pub fn put_tooltip(
    pen: &mut Pen,
    bytes: &[u8],
    log: &Log,
    place: usize,
    entry: &Entry,
) -> Result<(), NoMemory> {
    pen.put(b"<title>")?;
    pen.put_number((place as u64).saturating_add(1))?;
    pen.put(b": ")?;
    pen.put_number(u64::from(entry.step.rank))?;
    put_deed(pen, entry.step.deed)?;
    pen.put(name_of(log, entry.step.name))?;
    if let Deed::Choose(branch) = entry.step.deed {
        pen.put(b" ")?;
        pen.put_number(u64::from(branch))?;
    }
    put_words(pen, bytes, entry)?;
    pen.put(b"</title>")
}

/// The label and the words of a message, as a tooltip.
pub fn put_message(pen: &mut Pen, bytes: &[u8], log: &Log, entry: &Entry) -> Result<(), NoMemory> {
    pen.put(b"<title>")?;
    pen.put(name_of(log, entry.step.name))?;
    put_words(pen, bytes, entry)?;
    pen.put(b"</title>")
}

/// A name of the log by its number.
pub fn name_of(log: &Log, name: u32) -> &[u8] {
    match log.names.get(name as usize) {
        Some(name) => name.bytes(),
        None => b"",
    }
}

fn put_deed(pen: &mut Pen, deed: Deed) -> Result<(), NoMemory> {
    match deed {
        Deed::Choose(_) => pen.put(b" choose "),
        Deed::Run => pen.put(b" run "),
        Deed::Send(to) => put_peer(pen, b" send ", to),
        Deed::Recv(from) => put_peer(pen, b" recv ", from),
        Deed::Enter => pen.put(b" enter "),
        Deed::Leave => pen.put(b" leave "),
    }
}

fn put_peer(pen: &mut Pen, what: &[u8], peer: u32) -> Result<(), NoMemory> {
    pen.put(what)?;
    pen.put_number(u64::from(peer))?;
    pen.put(b" ")
}

/// The words, each after a space: the first of them, where they are long, and then how many there are.
fn put_words(pen: &mut Pen, bytes: &[u8], entry: &Entry) -> Result<(), NoMemory> {
    if entry.words == 0 {
        return Ok(());
    }
    let (shown, is_whole) = shown_words(bytes, entry.start);
    pen.put_text(shown)?;
    if !is_whole {
        pen.put(b" .. ")?;
        pen.put_number(u64::from(entry.words))?;
        pen.put(b" words")?;
    }
    Ok(())
}

/// The words that are shown, and whether these are all.
fn shown_words(bytes: &[u8], start: usize) -> (&[u8], bool) {
    let mut shown = 0;
    let line = match bytes.get(start..) {
        Some(line) => line,
        None => return (b"", true),
    };
    for (at, byte) in line.iter().enumerate() {
        if *byte == b'\n' {
            return (front(line, at), true);
        }
        if MOST_BYTES < at {
            break;
        }
        if *byte == b' ' {
            shown = at;
        }
    }
    (front(line, shown), false)
}

fn front(line: &[u8], length: usize) -> &[u8] {
    match line.get(..length) {
        Some(front) => front,
        None => line,
    }
}
