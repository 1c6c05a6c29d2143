//! The text of a page, which is put together for a file.

ghost use Rattle.std.specs.Prelude.{◌≡◌, [], OnOk};
ghost use Rattle.std.specs.Option.{unwrap_or};
ghost use Rattle.pb_explain_source.specs.Pages.{IsPage, IsPlaceOf};
ghost use Rattle.pb_explain_source.specs.declared.tail.Tail.TheVariants.{Other};

use crate::source::Source;
use crate::tail::Tail;
use pb_text::{NoMemory, Place, push_decimal};
use std::alloc::Global;

/// The text so far, and what it ends with.
#[derive(Drop)]
pub struct Draft {
    pub text: Vec<u8>,
    pub tail: Tail,
}

impl Draft {
    /// No text. Takes no memory.
    pub fn new(alloc: Global) -> Draft
        ensures text { result.text.items ≡ [] }
        ensures tail { result.tail ≡ Other }
    {
        Draft {
            text: Vec::new(alloc),
            tail: Tail::Other,
        }
    }

    /// Appends a byte, or a dot in place of one that would make words tell a place.
    pub fn push(&mut self, source: &Source, byte: u8) -> Result<(), NoMemory>
        requires { IsPage source.now.file.now source.now.bytes.now self.old.tail self.old.text.items }
        ensures { OnOk result (IsPage source.now.file.now source.now.bytes.now self.new.tail self.new.text.items) }
    {
        match self.tail.after_byte(byte) {
            Some(tail) => {
                self.text.push(byte)?;
                self.tail = tail;
            }
            None => {
                self.text.push(b'.')?;
                self.tail = Tail::Other;
            }
        }
        Ok(())
    }

    /// Appends bytes.
    pub fn say(&mut self, source: &Source, bytes: &[u8]) -> Result<(), NoMemory>
        requires { IsPage source.now.file.now source.now.bytes.now self.old.tail self.old.text.items }
        ensures { OnOk result (IsPage source.now.file.now source.now.bytes.now self.new.tail self.new.text.items) }
    {
        for byte in bytes {
            self.push(source, *byte)?;
        }
        Ok(())
    }

    /// Appends `FILE:L:C: `, of a place of the file.
    pub fn head(&mut self, source: &Source, place: Place) -> Result<(), NoMemory>
        requires page { IsPage source.now.file.now source.now.bytes.now self.old.tail self.old.text.items }
        requires place { IsPlaceOf source.now.bytes.now place }
        ensures { OnOk result (IsPage source.now.file.now source.now.bytes.now self.new.tail self.new.text.items) }
    {
        self.text.extend_from_slice(source.file.as_bytes())?;
        self.text.push(b':')?;
        push_decimal(&mut self.text, u64::from(place.line))?;
        self.text.push(b':')?;
        push_decimal(&mut self.text, u64::from(place.col))?;
        self.text.extend_from_slice(b": ")?;
        self.tail = Tail::Other;
        Ok(())
    }

    /// Appends `L | `, of a line of the file. What follows, up to a line feed, is quoted.
    pub fn quote(&mut self, source: &Source, place: Place) -> Result<(), NoMemory>
        requires page { IsPage source.now.file.now source.now.bytes.now self.old.tail self.old.text.items }
        requires place { IsPlaceOf source.now.bytes.now place }
        ensures { OnOk result (IsPage source.now.file.now source.now.bytes.now self.new.tail self.new.text.items) }
    {
        push_decimal(&mut self.text, u64::from(place.line))?;
        self.text.extend_from_slice(b" | ")?;
        self.tail = Tail::Quoted;
        Ok(())
    }
}
