//! The lines before the statements.

ghost use Rattle.std.specs.Prelude.{OnOk};
ghost use Rattle.pb_cread_frame.specs.Views.{IsReader};

use crate::lines::lines_of;
use crate::settled::Settled;
use pb_cread_frame::{FrameReader, is_line};
use pb_ctree::{CoreLabel, NoMemory};
use std::alloc::Global;
use std::mem;

/// Takes a line, with its line feed. False where it may not stand there.
fn take(alloc: Global, reader: &mut FrameReader, line: &[u8]) -> Result<bool, NoMemory>
    requires { IsReader reader.old }
    ensures { OnOk result (IsReader reader.new) }
{
    if is_line(line) {
        reader.take(alloc, line)
    } else {
        Ok(false)
    }
}

/// Takes these lines, as far as they stand before the statements.
fn take_lines(alloc: Global, reader: &mut FrameReader, front: &[u8]) -> Result<(), NoMemory>
    requires { IsReader reader.old }
    ensures { OnOk result (IsReader reader.new) }
{
    let lines = lines_of(alloc, front)?;
    for line in &lines {
        if reader.is_done() || !take(alloc, reader, line)? {
            break;
        }
    }
    Ok(())
}

/// The first of these lines that the reader takes.
fn first_taken<'a>(
    alloc: Global,
    reader: &mut FrameReader,
    lines: &'a [Vec<u8>],
) -> Result<Option<&'a [u8]>, NoMemory>
    requires { IsReader reader.old }
{
    for line in lines {
        if take(alloc, reader, line.as_slice())? {
            return Ok(Some(line.as_slice()));
        }
    }
    Ok(None)
}

/// What is known of a line.
#[derive(Drop)]
pub enum Framed {
    /// It is this one, with its line feed.
    Settled(Vec<u8>),
    /// It stands before the statements, and may be one of several.
    Open,
    /// It stands behind them; these are the labels of the text.
    Behind(Vec<CoreLabel>),
}

/// What is known of the line that the reader takes next, before the statements.
fn next_line(alloc: Global, reader: &mut FrameReader) -> Result<Framed, NoMemory>
    requires { IsReader reader.old }
{
    let settled = Settled::of(alloc, reader)?;
    match first_taken(alloc, reader, settled.lines.as_slice())? {
        None => Ok(Framed::Open),
        Some(line) => Ok(Framed::Settled(line.to_vec(alloc)?)),
    }
}

/// What is known of the line behind these ones, which the reader hasn't taken.
fn line_after(alloc: Global, reader: &mut FrameReader, front: &[u8]) -> Result<Framed, NoMemory>
    requires { IsReader reader.old }
{
    take_lines(alloc, reader, front)?;
    if reader.is_done() {
        let labels = mem::replace(&mut reader.local.labels, Vec::new(alloc));
        return Ok(Framed::Behind(labels));
    }
    next_line(alloc, reader)
}

/// What is known of the line behind these ones.
pub fn line_behind(alloc: Global, front: &[u8]) -> Result<Framed, NoMemory> {
    let mut reader = FrameReader::new(alloc)?;
    line_after(alloc, &mut reader, front)
}
