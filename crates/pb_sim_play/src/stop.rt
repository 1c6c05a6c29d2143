/// Why no more events are made.
#[derive(Clone, Copy)]
pub enum Stop {
    /// All events were made, or nobody has a step.
    Made,
    /// The rank of the event with this number, from 0, has no step.
    Refused(u32),
    /// After the next event more than 16,777,216 words would be in flight.
    Full,
    /// Memory ran out.
    NoMemory,
    /// The sink failed.
    WriteFault,
}
