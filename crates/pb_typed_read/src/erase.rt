//! A program text, line by line, and what is left of it where it is erased.

use crate::calls::{Buffer, buffer_behind, is_further, push_plain};
use crate::frame::{Opening, opening_of, push_head};
use crate::line::{cut, line_len};
use crate::rows::Rows;
use pb_text::NoMemory;
use std::alloc::Global;

/// The part of a text that a line stands in.
#[derive(Clone, Copy)]
enum Part {
    /// Up to the buffers.
    Head,
    /// The further lines behind them.
    Own,
    Functions,
    /// A function that plain texts don't have.
    Room,
    Body,
    /// The body of such a function.
    RoomBody,
    Main,
}

/// What is left of a program text.
#[derive(Drop)]
pub struct Erased {
    /// The plain text.
    pub plain: Vec<u8>,
    /// For each of its lines the number of the line that it was, from 1.
    pub lines: Vec<u32>,
    pub rows: Rows,
    part: Part,
    buffer: Buffer,
    number: u32,
}

/// What is left of these bytes, as far as they are those of a program text.
pub fn erase(alloc: Global, bytes: &[u8]) -> Result<Erased, NoMemory> {
    let mut erased = Erased {
        plain: Vec::new(alloc),
        lines: Vec::new(alloc),
        rows: Rows::new(alloc),
        part: Part::Head,
        buffer: Buffer::Received,
        number: 0,
    };
    let mut rest = bytes;
    // A line has a byte at least.
    for _ in 0..bytes.len() {
        if rest.is_empty() {
            break;
        }
        let (line, behind) = cut(rest, line_len(rest));
        erased.take(line)?;
        rest = behind;
    }
    Ok(erased)
}

impl Erased {
    fn take(&mut self, line: &[u8]) -> Result<(), NoMemory> {
        self.number = self.number.saturating_add(1);
        let is_marker = line.starts_with(b"/*@");
        match self.part {
            Part::Head => self.take_head(line),
            Part::Own => self.take_own(line, is_marker),
            Part::Functions if is_marker => self.move_on(line, Part::Body),
            Part::Functions => self.take_function(line),
            Part::Body if is_marker => self.move_on(line, Part::Functions),
            Part::Body => self.keep(line),
            Part::Room | Part::RoomBody => {
                self.part = behind_room(self.part, line, is_marker);
                Ok(())
            }
            Part::Main => self.take_main(line),
        }
    }

    /// A line that stays as it is.
    fn keep(&mut self, line: &[u8]) -> Result<(), NoMemory> {
        self.plain.extend_from_slice(line)?;
        self.lines.push(self.number)?;
        Ok(())
    }

    /// The same, and another part begins behind it.
    fn move_on(&mut self, line: &[u8], part: Part) -> Result<(), NoMemory> {
        self.part = part;
        self.keep(line)
    }

    fn take_head(&mut self, line: &[u8]) -> Result<(), NoMemory> {
        if line == b"/* pabble 1 typed */\n".as_slice() {
            return self.keep(b"/* pabble 1 */\n");
        }
        if line == b"#ifdef PABBLE_TRACE\n".as_slice() {
            self.part = Part::Own;
            return Ok(());
        }
        self.rows.take_row(line)?;
        if line.starts_with(b"/* type ") {
            Ok(())
        } else {
            self.keep(line)
        }
    }

    fn take_own(&mut self, line: &[u8], is_marker: bool) -> Result<(), NoMemory> {
        if is_marker {
            self.move_on(line, Part::Body)
        } else {
            self.rows.take_constant(line)
        }
    }

    fn take_function(&mut self, line: &[u8]) -> Result<(), NoMemory> {
        let opening = opening_of(&self.rows, line);
        match opening {
            Opening::Room => {
                self.part = Part::Room;
                return Ok(());
            }
            Opening::Main => self.part = Part::Main,
            Opening::Make(_) | Opening::Take(_) | Opening::Other => {}
        }
        push_head(&mut self.plain, opening, line)?;
        self.lines.push(self.number)?;
        Ok(())
    }

    fn take_main(&mut self, line: &[u8]) -> Result<(), NoMemory> {
        if is_further(line) {
            return Ok(());
        }
        push_plain(&mut self.plain, &self.rows, line, self.buffer)?;
        self.buffer = buffer_behind(line, self.buffer);
        self.lines.push(self.number)?;
        Ok(())
    }
}

/// The part behind a line of a function that plain texts don't have.
fn behind_room(part: Part, line: &[u8], is_marker: bool) -> Part {
    match part {
        Part::Room if is_marker => Part::RoomBody,
        Part::Room if line == b"}\n".as_slice() => Part::Functions,
        Part::RoomBody if is_marker => Part::Room,
        other => other,
    }
}
