//! The marker lines of a kernel file.

use crate::lines::Lines;
use pb_text::NoMemory;
use std::alloc::Global;

/// What a line is.
#[derive(Clone, Copy)]
enum Marker<'a> {
    /// It opens the body of this function; of the prelude by that word.
    Opens(&'a [u8]),
    Closes,
    /// It begins as a marker, and is none.
    Malformed,
    /// It would begin as a marker, but blanks stand in front.
    Indented,
    /// It is no marker.
    Other,
}

/// What makes a kernel file malformed.
#[derive(Clone, Copy)]
pub enum Slip {
    /// The line begins with `/*@` and is no marker.
    Malformed,
    /// The line opens a body inside of another one.
    Inside,
    /// The line closes a body, and none is open.
    Outside,
    /// The body that the line opens is never closed.
    Unclosed,
    /// The line opens a second body of that name.
    Twice,
}

/// What the marker lines say.
#[derive(Drop)]
pub struct Marks<'a> {
    /// The names of the bodies, in their order.
    pub names: Vec<&'a [u8]>,
    /// The first fault, and its line, from 1.
    pub slip: Option<(Slip, u32)>,
    /// The first line that has blanks in front of `/*@`.
    pub indented: Option<u32>,
    /// The line that opened the body that is open.
    open: Option<u32>,
}

/// How many blanks stand in front.
fn blanks_len(bytes: &[u8]) -> usize {
    let mut len = 0;
    for byte in bytes {
        if *byte != b' ' && *byte != b'\t' && *byte != b'\r' {
            return len;
        }
        len = len.saturating_add(1);
    }
    len
}

/// Whether only blanks follow.
fn is_blank(bytes: &[u8]) -> bool {
    blanks_len(bytes) == bytes.len()
}

/// What a line is that doesn't begin with `/*@`.
fn without_front(line: &[u8]) -> Marker<'_> {
    match line.get(blanks_len(line)..) {
        Some(rest) if rest.starts_with(b"/*@") => Marker::Indented,
        _ => Marker::Other,
    }
}

/// The bytes before the first space.
fn word_len(bytes: &[u8]) -> usize {
    let mut len = 0;
    for byte in bytes {
        if *byte == b' ' {
            return len;
        }
        len = len.saturating_add(1);
    }
    len
}

/// Whether a marker ends here.
fn ends(bytes: &[u8]) -> bool {
    match bytes.strip_prefix(b" */") {
        Some(rest) => is_blank(rest),
        None => false,
    }
}

/// Whether the bytes are a word of 1 to 64 letters, digits and `_` that begins with no digit.
fn is_word(bytes: &[u8]) -> bool {
    let Some(first) = bytes.first() else {
        return false;
    };
    if first.is_ascii_digit() || bytes.len() > 64 {
        return false;
    }
    for byte in bytes {
        if !byte.is_ascii_alphanumeric() && *byte != b'_' {
            return false;
        }
    }
    true
}

/// Whether the bytes are what a function is called.
fn is_function(name: &[u8]) -> bool {
    let fronts: [&[u8]; 4] = [b"k_", b"c_", b"make_", b"take_"];
    for front in &fronts {
        if let Some(word) = name.strip_prefix(*front) {
            return is_word(word);
        }
    }
    false
}

/// The function that a marker names.
fn named(rest: &[u8]) -> Marker<'_> {
    let len = word_len(rest);
    match (rest.get(..len), rest.get(len..)) {
        (Some(name), Some(behind)) if ends(behind) && is_function(name) => Marker::Opens(name),
        _ => Marker::Malformed,
    }
}

fn marker_of(line: &[u8]) -> Marker<'_> {
    let Some(rest) = line.strip_prefix(b"/*@") else {
        return without_front(line);
    };
    if let Some(behind) = rest.strip_prefix(b" kernel ") {
        return named(behind);
    }
    if let Some(behind) = rest.strip_prefix(b" end")
        && ends(behind)
    {
        return Marker::Closes;
    }
    if let Some(behind) = rest.strip_prefix(b" prelude")
        && ends(behind)
    {
        return Marker::Opens(b"prelude");
    }
    Marker::Malformed
}

fn has(names: &[&[u8]], name: &[u8]) -> bool {
    for one in names {
        if *one == name {
            return true;
        }
    }
    false
}

impl<'a> Marks<'a> {
    /// Whether there is a body of that name.
    pub fn has(&self, name: &[u8]) -> bool {
        has(self.names.as_slice(), name)
    }

    /// Notes a fault. The first counts.
    fn note(&mut self, slip: Slip, line: u32) {
        if self.slip.is_none() {
            self.slip = Some((slip, line));
        }
    }

    fn opens(&mut self, name: &'a [u8], line: u32) -> Result<(), NoMemory> {
        if self.open.is_some() {
            self.note(Slip::Inside, line);
            return Ok(());
        }
        if self.has(name) {
            self.note(Slip::Twice, line);
        }
        self.open = Some(line);
        self.names.push(name)?;
        Ok(())
    }

    fn add(&mut self, bytes: &'a [u8], line: u32) -> Result<(), NoMemory> {
        match marker_of(bytes) {
            Marker::Opens(name) => self.opens(name, line),
            Marker::Closes => {
                if self.open.is_none() {
                    self.note(Slip::Outside, line);
                }
                self.open = None;
                Ok(())
            }
            Marker::Malformed => {
                self.note(Slip::Malformed, line);
                Ok(())
            }
            Marker::Indented => {
                if self.indented.is_none() {
                    self.indented = Some(line);
                }
                Ok(())
            }
            Marker::Other => Ok(()),
        }
    }
}

/// What the marker lines of a kernel file say.
pub fn marks_of(alloc: Global, bytes: &[u8]) -> Result<Marks<'_>, NoMemory> {
    let mut marks = Marks {
        names: Vec::new(alloc),
        slip: None,
        indented: None,
        open: None,
    };
    let mut lines = Lines::of(bytes);
    let mut line = 0u32;
    for _ in 0..bytes.len().saturating_add(1) {
        let Some(text) = lines.next_line() else {
            break;
        };
        line = line.saturating_add(1);
        marks.add(text, line)?;
    }
    if let Some(opened) = marks.open {
        marks.note(Slip::Unclosed, opened);
    }
    Ok(marks)
}
