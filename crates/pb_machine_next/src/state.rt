use crate::ahead::Ahead;
use crate::me::Me;

/// What a rank's step depends on, besides its place, and what comes next.
#[derive(Clone, Copy)]
pub struct State {
    pub me: Me,
    /// The variable of the text.
    pub i: i32,
    /// What is next, as it was seen at the last look.
    pub ahead: Ahead,
}
