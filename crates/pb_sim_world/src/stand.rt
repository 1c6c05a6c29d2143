use pb_text::Mode;

/// A message that has to be taken before its sender goes on.
#[derive(Clone, Copy)]
pub struct Waits {
    /// The receiver.
    pub by: u32,
    pub label: u32,
}

/// What is kept of a rank besides its machine.
#[derive(Clone, Copy)]
pub struct Stand {
    /// Its last message, where it waits until that is taken.
    pub waits: Option<Waits>,
    /// How many collectives it has left.
    pub left: usize,
    /// The mode of its last entry into a collective.
    pub mode: Mode,
    /// How many words it has asked.
    pub asked: u64,
}
