/// Why a rank has no step, or what was left.
#[derive(Clone, Copy)]
pub enum Cause {
    /// It waits for a message from this rank with this label.
    Receive { from: u32, label: u32 },
    /// It looks for the first message from this rank.
    Probe { from: u32 },
    /// Its last send waits until this rank takes a message with this label.
    Taken { by: u32, label: u32 },
    /// It waits for others in a collective.
    Collective,
    /// It made as many silent steps as the text allows, and would make another.
    Lost,
    /// What it would do next means nothing.
    Undefined,
    /// All ranks have ended, and a message from this rank with this label is left.
    Left { from: u32, label: u32 },
}

/// How a world stands.
#[derive(Clone, Copy)]
pub enum Standing {
    /// Some rank has a step.
    Going,
    /// All ranks have ended, and no message is left.
    Ended,
    /// Nobody has a step: the least rank that hasn't ended, and why. Where all have ended, the first message that is left.
    Stuck { rank: u32, cause: Cause },
}
