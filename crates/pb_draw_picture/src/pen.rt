//! Writing.

use pb_text::{NoMemory, push_decimal};
use std::alloc::Global;

/// The bytes of a picture.
#[derive(Drop)]
pub struct Pen {
    bytes: Vec<u8>,
}

impl Pen {
    /// No bytes yet. Takes no memory.
    pub fn new(alloc: Global) -> Pen {
        Pen {
            bytes: Vec::new(alloc),
        }
    }

    /// What was written.
    pub fn into_bytes(self) -> Vec<u8> {
        self.bytes
    }

    /// The bytes go last, as they are.
    pub fn put(&mut self, bytes: &[u8]) -> Result<(), NoMemory> {
        self.bytes.extend_from_slice(bytes)?;
        Ok(())
    }

    /// The number goes last, in decimal.
    pub fn put_number(&mut self, number: u64) -> Result<(), NoMemory> {
        push_decimal(&mut self.bytes, number)
    }

    /// A text that may have any bytes goes last: what isn't printable ASCII as `?`, and what XML reserves by its name.
    pub fn put_text(&mut self, text: &[u8]) -> Result<(), NoMemory> {
        for byte in text {
            match *byte {
                b'&' => self.put(b"&amp;")?,
                b'<' => self.put(b"&lt;")?,
                b'>' => self.put(b"&gt;")?,
                b' '..=b'~' => self.put(&[*byte])?,
                _ => self.put(b"?")?,
            }
        }
        Ok(())
    }

    /// Two numbers go last, with a space between them.
    pub fn put_point(&mut self, x: u64, y: u64) -> Result<(), NoMemory> {
        self.put_number(x)?;
        self.put(b" ")?;
        self.put_number(y)
    }

    /// A text goes last that begins there.
    pub fn put_label(&mut self, x: u64, y: u64, text: &[u8]) -> Result<(), NoMemory> {
        self.open_label(x, y)?;
        self.put_text(text)?;
        self.put(b"</text>\n")
    }

    /// The head of a text goes last that begins there.
    pub fn open_label(&mut self, x: u64, y: u64) -> Result<(), NoMemory> {
        self.put(b"<text x=\"")?;
        self.put_number(x)?;
        self.put(b"\" y=\"")?;
        self.put_number(y)?;
        self.put(b"\">")
    }
}
