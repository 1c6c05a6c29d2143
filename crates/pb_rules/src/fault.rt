use pb_core_language::Place;
use thiserror::Error;

/// A rank, or a role with an index that lies outside its range.
#[derive(Clone, Copy, Debug)]
pub struct At {
    /// The role's number.
    pub role: u32,
    pub index: i64,
}

/// Why a protocol isn't accepted.
#[derive(Clone, Copy, Debug, Error)]
pub enum RuleFault {
    /// A rule is broken: the least rule, at its first place, with the least N that breaks it there, and then the least role
    /// and index, where the rule speaks of one.
    #[error("Broken")]
    Broken {
        rule: u8,
        place: Place,
        n: i64,
        at: Option<At>,
    },
    /// The cuts of the protocol have more than 4,096 breakpoints.
    #[error("TooManyCases")]
    TooManyCases,
    /// Memory ran out.
    #[error("NoMemory")]
    NoMemory,
}
