/// The numbers N from `low` to `high`, or without an upper end.
#[derive(Clone, Copy, Debug)]
pub struct NRange {
    pub low: u32,
    pub high: Option<u32>,
}
