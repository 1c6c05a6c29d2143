//! What a simulation writes, heard once more.

use pb_io::{Failed, Sink};
use pb_text::NoMemory;
use std::alloc::Global;

/// How many bytes of a line are kept.
const MOST_LINE: usize = 200;

/// How many ranks a simulation has at most.
const MOST_RANKS: usize = 1024;

/// What is kept of a rank.
#[derive(Drop)]
struct Deeds {
    /// What it did last.
    last: Vec<u8>,
    /// How many collectives it has entered.
    entered: u32,
}

/// A sink that keeps the last line of each rank, how many collectives each has entered, and the status line.
#[derive(Drop)]
pub struct Heard {
    alloc: Global,
    line: Vec<u8>,
    deeds: Vec<Deeds>,
    told: Vec<u8>,
}

/// The number in front, and what stands behind it and a space.
fn number_before(bytes: &[u8]) -> Option<(usize, &[u8])> {
    for (at, byte) in bytes.iter().enumerate() {
        if *byte == b' ' {
            let behind = bytes.get(at.saturating_add(1)..).unwrap_or_default();
            return Some((number_in(bytes) as usize, behind));
        }
        if !byte.is_ascii_digit() {
            return None;
        }
    }
    None
}

/// The number that begins the bytes.
fn number_in(bytes: &[u8]) -> u32 {
    let mut number = 0u32;
    for byte in bytes {
        if !byte.is_ascii_digit() {
            break;
        }
        number = number
            .saturating_mul(10)
            .saturating_add(u32::from(byte.saturating_sub(b'0')));
    }
    number
}

impl Heard {
    /// One that has heard nothing. Takes no memory.
    pub fn new(alloc: Global) -> Heard {
        Heard {
            alloc,
            line: Vec::new(alloc),
            deeds: Vec::new(alloc),
            told: Vec::new(alloc),
        }
    }

    /// What the rank did last; none where it did nothing.
    pub fn deed(&self, rank: usize) -> &[u8] {
        match self.deeds.get(rank) {
            Some(deeds) => deeds.last.as_slice(),
            None => &[],
        }
    }

    /// How many collectives the rank has entered.
    pub fn entered(&self, rank: usize) -> u32 {
        match self.deeds.get(rank) {
            Some(deeds) => deeds.entered,
            None => 0,
        }
    }

    /// The status line, without `pabble: `.
    pub fn told(&self) -> &[u8] {
        self.told.as_slice()
    }

    /// Makes room for the deeds of a rank.
    fn reach(&mut self, rank: usize) -> Result<(), NoMemory> {
        for _ in self.deeds.len()..rank.saturating_add(1) {
            self.deeds.push(Deeds {
                last: Vec::new(self.alloc),
                entered: 0,
            })?;
        }
        Ok(())
    }

    /// Keeps the line, which is at its end.
    fn keep(&mut self) -> Result<(), NoMemory> {
        if let Some(rest) = self.line.strip_prefix(b"pabble: ") {
            self.told.clear();
            self.told.extend_from_slice(rest)?;
            return Ok(());
        }
        let Some((rank, _)) = number_before(self.line.as_slice()) else {
            return Ok(());
        };
        if rank >= MOST_RANKS {
            return Ok(());
        }
        self.reach(rank)?;
        let Some((_, words)) = number_before(self.line.as_slice()) else {
            return Ok(());
        };
        if let Some(deeds) = self.deeds.get_mut(rank) {
            deeds.last.clear();
            deeds.last.extend_from_slice(words)?;
            if words.starts_with(b"enter ") {
                deeds.entered = deeds.entered.saturating_add(1);
            }
        }
        Ok(())
    }

    fn hear(&mut self, byte: u8) -> Result<(), NoMemory> {
        if byte == b'\n' {
            self.keep()?;
            self.line.clear();
        } else if self.line.len() < MOST_LINE {
            self.line.push(byte)?;
        }
        Ok(())
    }
}

impl Sink for Heard {
    ghost use Rattle.std.specs.Prelude.{None};

    ghost taken = { λ _. None };

    ghost faults = { λ _. 0 };

    // Where memory runs out, what can't be kept is lost.
    fn write(&mut self, piece: &[u8]) -> Result<usize, Failed> {
        for byte in piece {
            if self.hear(*byte).is_err() {
                break;
            }
        }
        Ok(piece.len())
    }
}
