//! The rows of a head, and the constants behind it.

use crate::line::{behind_word, name, word};
use indexmap::IndexMap;
use pb_ctree::Payload;
use pb_text::{Name, NoMemory};
use pb_text_read::number;
use pb_typed_types::{Carried, Constant};
use pb_types::Element;
use std::alloc::Global;

/// What the rows say of a label.
#[derive(Clone, Copy)]
pub struct LabelRow {
    pub payload: Payload,
    pub carried: Carried,
}

/// The labels and the constants of a program text.
#[derive(Drop)]
pub struct Rows {
    pub labels: IndexMap<Name, LabelRow>,
    pub constants: Vec<Constant>,
}

impl Rows {
    /// No rows. Takes no memory.
    pub fn new(alloc: Global) -> Rows {
        Rows {
            labels: IndexMap::new(alloc),
            constants: Vec::new(alloc),
        }
    }

    /// What the rows say of the label with this name.
    pub fn label(&self, name: &Name) -> Option<LabelRow> {
        let row = self.labels.get(name)?;
        Some(*row)
    }

    /// Takes what a row of the head says; a line that is no row says nothing.
    pub fn take_row(&mut self, line: &[u8]) -> Result<(), NoMemory> {
        if let Some(text) = line.strip_prefix(b"/* label ") {
            self.take_label(text)
        } else if let Some(text) = line.strip_prefix(b"/* type ") {
            self.take_type(text)
        } else {
            Ok(())
        }
    }

    fn take_label(&mut self, text: &[u8]) -> Result<(), NoMemory> {
        let Some((name, payload)) = label_row(text) else {
            return Ok(());
        };
        let row = LabelRow {
            payload,
            carried: Carried::Words,
        };
        match self.labels.insert(name, row) {
            Ok(_) => Ok(()),
            Err(_) => Err(NoMemory),
        }
    }

    fn take_type(&mut self, text: &[u8]) -> Result<(), NoMemory> {
        let Some((name, carried)) = type_row(text) else {
            return Ok(());
        };
        let Some(LabelRow { payload, .. }) = self.label(&name) else {
            return Ok(());
        };
        match self.labels.insert(name, LabelRow { payload, carried }) {
            Ok(_) => Ok(()),
            Err(_) => Err(NoMemory),
        }
    }

    /// Takes the constant of a line behind the head, where it has one.
    pub fn take_constant(&mut self, line: &[u8]) -> Result<(), NoMemory> {
        match constant_of(line) {
            Some(constant) if !self.is_count(&constant.name) => {
                self.constants.push(constant)?;
                Ok(())
            }
            _ => Ok(()),
        }
    }

    /// Whether it is the name of a label's count.
    fn is_count(&self, name: &Name) -> bool {
        match name.bytes().strip_prefix(b"n_") {
            Some(word) => match Name::of(word) {
                Some(label) => self.labels.contains_key(&label),
                None => false,
            },
            None => false,
        }
    }
}

/// A label's name and payload.
fn label_row(text: &[u8]) -> Option<(Name, Payload)> {
    let name = name(text)?;
    let text = behind_word(text).strip_prefix(b" ")?;
    if text.starts_with(b"()") {
        return Some((name, Payload::Unit));
    }
    if let Some(count) = text.strip_prefix(b"int32[") {
        return Some((name, Payload::Int32(small(count)?)));
    }
    let count = text.strip_prefix(b"uint32[")?;
    Some((name, Payload::Uint32(small(count)?)))
}

/// A typed label's name and what it carries.
fn type_row(text: &[u8]) -> Option<(Name, Carried)> {
    let label = name(text)?;
    let text = behind_word(text).strip_prefix(b" ")?;
    let (kind, text) = word(text);
    let element = Element::named(kind)?;
    let count = text.strip_prefix(b"[")?;
    if count.starts_with(b"]") {
        return Some((label, Carried::Open { element }));
    }
    let count = small(count)?;
    Some((label, Carried::Fixed { element, count }))
}

fn constant_of(line: &[u8]) -> Option<Constant> {
    let text = line.strip_prefix(b"enum { ")?;
    let name = name(text)?;
    let value = small(behind_word(text).strip_prefix(b" = ")?)?;
    Some(Constant { name, value })
}

/// The number in front.
fn small(text: &[u8]) -> Option<u32> {
    let (n, _) = number(4_294_967_296, text)?;
    Some(n as u32)
}
