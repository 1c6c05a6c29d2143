use itoa::Buffer;
use pb_core_language::{CoreLabel, CoreRole};
use pb_plain::Seat;
use pb_text::{NoMemory, Place};
use std::alloc::Global;

/// The bytes that are to be written.
#[derive(Drop)]
pub struct Text {
    bytes: Vec<u8>,
}

impl Text {
    /// No bytes yet. Takes no memory.
    pub fn new(alloc: Global) -> Text {
        Text {
            bytes: Vec::new(alloc),
        }
    }

    /// The bytes.
    pub fn bytes(&self) -> &[u8] {
        &self.bytes
    }

    /// The bytes go last. After `NoMemory` all is as before.
    pub fn put(&mut self, bytes: &[u8]) -> Result<(), NoMemory> {
        self.bytes.extend_from_slice(bytes)?;
        Ok(())
    }

    /// The number goes last, in decimal.
    pub fn put_number(&mut self, number: u64) -> Result<(), NoMemory> {
        let mut buffer = Buffer::new();
        self.put(buffer.format(number).as_bytes())
    }

    /// The number goes last, in decimal, with a sign where it is below zero.
    pub fn put_signed(&mut self, number: i64) -> Result<(), NoMemory> {
        let mut buffer = Buffer::new();
        self.put(buffer.format(number).as_bytes())
    }

    /// ` at ` and the line and the column go last.
    pub fn put_place(&mut self, place: Place) -> Result<(), NoMemory> {
        self.put(b" at ")?;
        self.put_number(u64::from(place.line))?;
        self.put(b":")?;
        self.put_number(u64::from(place.col))
    }

    /// What is counted and how many of it there are go last, as a line.
    pub fn put_count(&mut self, what: &[u8], count: usize) -> Result<(), NoMemory> {
        self.put(what)?;
        self.put_number(count as u64)?;
        self.put(b"\n")
    }

    /// The name of the seat's role and its index go last, as `W[3]`.
    pub fn put_seat(&mut self, roles: &[CoreRole], seat: &Seat) -> Result<(), NoMemory> {
        if let Some(role) = roles.get(seat.role as usize) {
            self.put(role.name.bytes())?;
        }
        self.put(b"[")?;
        self.put_signed(seat.index)?;
        self.put(b"]")
    }

    /// The name of the label with this number goes last.
    pub fn put_label(&mut self, labels: &[CoreLabel], label: u32) -> Result<(), NoMemory> {
        match labels.get(label as usize) {
            Some(row) => self.put(row.name.bytes()),
            None => Ok(()),
        }
    }
}
