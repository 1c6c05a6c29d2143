//! The lines of the statements, and those behind them.

use crate::lines::{indent, last_line};
use pb_cread::{TextFault, read_c};
use pb_ctree::{CoreLabel, NoMemory, Payload};
use std::alloc::Global;

/// How many bytes are read at most to find a line.
const MOST_READ: usize = 8_388_608;

/// Lines of statements that stand alone in their places, and those behind the statements.
const ALONE: [&[u8]; 7] = [
    b"return 0;",
    b"} else {",
    b"}",
    b"MPI_Abort(MPI_COMM_WORLD, 3);",
    b"if (a == 0) {",
    b"a = 0;",
    b"a = 1;",
];

/// A line that may stand in each place in which a statement may begin.
const BARRIER: &[u8] = b"MPI_Barrier(MPI_COMM_WORLD);";

/// The lines before one, and how many bytes may still be read.
#[derive(Drop)]
struct Front {
    bytes: Vec<u8>,
    /// The number of the line behind them.
    line: u32,
    left: usize,
}

/// What is known of a line.
#[derive(Drop)]
pub enum Stated {
    /// It is this one, behind so many spaces.
    Settled(Vec<u8>, usize),
    /// It is the one that stands there, behind so many spaces.
    Indented(usize),
    /// The text is at its end.
    Ended,
    Open,
}

/// The letter of the arrays for words of this type; none where there are no words.
fn letter_of(payload: Payload) -> Option<u8> {
    match payload {
        Payload::Unit => None,
        Payload::Int32(_) => Some(b'i'),
        Payload::Uint32(_) => Some(b'u'),
    }
}

/// The line that takes the words of a label from one of its arrays: `s` the one that is sent from, `r` the other one.
fn taking(alloc: Global, label: &CoreLabel, letter: u8, side: u8) -> Result<Vec<u8>, NoMemory> {
    let mut line = Vec::new(alloc);
    line.extend_from_slice(b"take_")?;
    line.extend_from_slice(label.name.bytes())?;
    line.extend_from_slice(b"(N, R, I, ")?;
    line.push(letter)?;
    line.push(side)?;
    line.extend_from_slice(b");")?;
    Ok(line)
}

impl Front {
    /// These lines, where the line behind them has this number.
    fn of(alloc: Global, bytes: &[u8], line: u32) -> Result<Front, NoMemory> {
        let mut front = Vec::new(alloc);
        front.extend_from_slice(bytes)?;
        Ok(Front {
            bytes: front,
            line,
            left: MOST_READ,
        })
    }

    /// Whether the text goes on with these words behind so many spaces. False, too, where too much was read to find out.
    fn goes_on(&mut self, alloc: Global, spaces: usize, words: &[u8]) -> Result<bool, NoMemory> {
        let len = self.bytes.len();
        if self.left < len {
            return Ok(false);
        }
        self.left = self.left.saturating_sub(len);
        for _ in 0..spaces {
            self.bytes.push(b' ')?;
        }
        self.bytes.extend_from_slice(words)?;
        self.bytes.push(b'\n')?;
        let is_taken = match read_c(alloc, self.bytes.as_slice()) {
            Ok(_) => true,
            Err(TextFault::Unexpected(place)) => place.line > self.line,
            Err(TextFault::TooDeep(_)) => false,
            Err(TextFault::TooMany(_)) => false,
            Err(TextFault::NoMemory) => return Err(NoMemory),
        };
        self.bytes.truncate(len);
        Ok(is_taken)
    }

    /// Behind how many spaces the text goes on with these words: as many as the line before has, or two more or fewer.
    fn depth(&mut self, alloc: Global, words: &[u8]) -> Result<Option<usize>, NoMemory> {
        let same = indent(last_line(self.bytes.as_slice()));
        for spaces in [same, same.saturating_add(2), same.saturating_sub(2)] {
            if self.goes_on(alloc, spaces, words)? {
                return Ok(Some(spaces));
            }
        }
        Ok(None)
    }

    /// The first of the lines that stand alone with which the text goes on.
    fn alone(&mut self, alloc: Global) -> Result<Option<Stated>, NoMemory> {
        for words in ALONE {
            if let Some(spaces) = self.depth(alloc, words)? {
                let mut line = Vec::new(alloc);
                line.extend_from_slice(words)?;
                return Ok(Some(Stated::Settled(line, spaces)));
            }
        }
        Ok(None)
    }

    /// The line that takes the words of this label, where the text goes on with it.
    fn taken(&mut self, alloc: Global, label: &CoreLabel) -> Result<Option<Stated>, NoMemory> {
        let Some(letter) = letter_of(label.payload) else {
            return Ok(None);
        };
        for side in [b'r', b's'] {
            let line = taking(alloc, label, letter, side)?;
            if let Some(spaces) = self.depth(alloc, line.as_slice())? {
                return Ok(Some(Stated::Settled(line, spaces)));
            }
        }
        Ok(None)
    }

    /// The line that takes the words of one of these labels, where the text goes on with it.
    fn any_taken(&mut self, alloc: Global, labels: &[CoreLabel]) -> Result<Stated, NoMemory> {
        for label in labels {
            if let Some(stated) = self.taken(alloc, label)? {
                return Ok(stated);
            }
        }
        Ok(Stated::Open)
    }

    /// What is known of the line behind these ones, in whose place a line with these words stands, in a text with these labels.
    fn find(
        &mut self,
        alloc: Global,
        labels: &[CoreLabel],
        words: &[u8],
    ) -> Result<Stated, NoMemory> {
        if read_c(alloc, self.bytes.as_slice()).is_ok() {
            return Ok(Stated::Ended);
        }
        if let Some(spaces) = self.depth(alloc, words)? {
            return Ok(Stated::Indented(spaces));
        }
        if self.depth(alloc, BARRIER)?.is_some() {
            return Ok(Stated::Open);
        }
        match self.alone(alloc)? {
            Some(stated) => Ok(stated),
            None => self.any_taken(alloc, labels),
        }
    }
}

/// What is known of the line behind these ones, in whose place a line with these words stands, in a text with these labels. It
/// has this number.
pub fn statement_behind(
    alloc: Global,
    before: &[u8],
    line: u32,
    labels: &[CoreLabel],
    words: &[u8],
) -> Result<Stated, NoMemory> {
    if before.len() > MOST_READ {
        return Ok(Stated::Open);
    }
    let mut front = Front::of(alloc, before, line)?;
    front.find(alloc, labels, words)
}
