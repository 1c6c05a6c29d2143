use pb_sim::Cause;

/// How a simulation ended.
#[derive(Clone, Copy)]
pub enum Ending {
    /// All ranks have ended, and no message is left.
    Ended,
    /// Nobody can go on: the least rank that hasn't ended, and why.
    Stuck { rank: u32, cause: Cause },
    /// All events that were asked for were made, and some rank has a step.
    Turns,
    /// The event with this number, from 0, names a rank that has no step.
    Refused(u32),
    /// After the next event more than 16,777,216 words would be in flight.
    Full,
    /// Memory ran out.
    NoMemory,
    /// The sink failed.
    WriteFault,
}
