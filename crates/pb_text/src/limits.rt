/// The greatest number of a text, and the most ranks of a world.
pub const MOST_NUMBER: u32 = 2_000_000_000;

/// The greatest offset of a lin.
pub const MOST_OFFSET: i32 = 1_000_000;

/// The least offset of a lin.
pub const LEAST_OFFSET: i32 = -1_000_000;

/// The length of the longest text that is read, in bytes.
pub const MOST_TEXT_BYTES: u32 = 67_108_864;

/// The most events of a run or a schedule.
pub const MOST_EVENTS: u32 = 1_000_000;
