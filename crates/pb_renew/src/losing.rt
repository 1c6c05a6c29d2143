/// What becomes of a text with lines that would be lost.
#[derive(Clone, Copy, Debug, PartialEq, Eq)]
pub enum Losing {
    /// It isn't renewed.
    Refused,
    /// It is renewed, and the old one is kept whole beside it.
    Kept,
}
