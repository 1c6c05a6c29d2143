/// How a call of the program ended.
#[derive(Clone, Copy)]
pub enum Status {
    /// All was written.
    Done,
    /// The protocol breaks the grammar or one of the rules 1 to 5.
    Refused,
    /// The words are in no form.
    Usage,
    /// The file can't be read.
    ReadFault,
    /// The output can't be written. Some first bytes of what belongs there were.
    WriteFault,
    /// A quantity has passed its limit.
    Limit,
    /// Memory ran out.
    NoMemory,
    /// N is outside the protocol's range.
    OutOfRange,
}

impl Status {
    /// The exit status: 0 to 6 in the order above, and 12 where N is outside the range. Takes no memory.
    pub fn code(self) -> u8 {
        match self {
            Status::Done => 0,
            Status::Refused => 1,
            Status::Usage => 2,
            Status::ReadFault => 3,
            Status::WriteFault => 4,
            Status::Limit => 5,
            Status::NoMemory => 6,
            Status::OutOfRange => 12,
        }
    }
}
