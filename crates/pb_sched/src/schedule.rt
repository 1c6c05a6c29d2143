use pb_text::Mode;

/// Who makes an event, and in which mode.
#[derive(Clone, Copy)]
pub struct Turn {
    pub rank: u32,
    pub mode: Mode,
}

/// The seed of a run, and its events in order.
#[derive(Drop)]
pub struct Schedule {
    pub seed: u64,
    pub turns: Vec<Turn>,
}
