use crate::Local;

/// The number `a * N + b`.
#[derive(Clone, Copy)]
pub struct Formula {
    pub a: i64,
    pub b: i64,
}

/// The tree of a C text. A rank's number is its index plus its role's place.
#[derive(Drop)]
pub struct CTree {
    pub local: Local,
    /// The number of ranks.
    pub size: Formula,
    /// The number of the first rank of each role.
    pub bases: Vec<Formula>,
    /// For each role its base less its least index.
    pub places: Vec<Formula>,
}
