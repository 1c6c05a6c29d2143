use std::snapshot::Snapshot;

/// How many deeds a store told and didn't keep, for want of memory. Clauses alone know the number.
#[derive(Drop)]
pub enum Unkept {
    /// None.
    Never,
    /// One more than these.
    Again(Snapshot<Unkept>),
}
