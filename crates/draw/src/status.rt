/// How a call of the program ended.
#[derive(Clone, Copy)]
pub enum Status {
    /// The picture was written.
    Done,
    /// The log's actions wait for each other in a circle.
    Circle,
    /// The words are in no form.
    Usage,
    /// The file can't be read.
    ReadFault,
    /// The picture can't be written. Some first bytes of it were.
    WriteFault,
    /// The file is too long.
    Limit,
    /// Memory ran out.
    NoMemory,
    /// A line is in no form of a log.
    Malformed,
}

impl Status {
    /// The exit status: 0 to 6 in the order above, and 18 where a line is malformed. Takes no memory.
    pub fn code(self) -> u8 {
        match self {
            Status::Done => 0,
            Status::Circle => 1,
            Status::Usage => 2,
            Status::ReadFault => 3,
            Status::WriteFault => 4,
            Status::Limit => 5,
            Status::NoMemory => 6,
            Status::Malformed => 18,
        }
    }
}
