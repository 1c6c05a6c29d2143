use pb_text::{Name, Place};

/// What a rank does first in a branch.
#[derive(Clone, Copy)]
pub enum Deed {
    Receives,
    Sends,
    Computes,
    Chooses,
    Enters,
    Continues,
}

/// A rank that sends.
#[derive(Clone, Copy)]
pub struct From {
    pub role: Name,
    pub index: i64,
}

/// What a rank may find first, and where.
#[derive(Clone, Copy)]
pub struct Found {
    pub deed: Deed,
    /// The label, the kernel or the loop; None for a barrier.
    pub name: Option<Name>,
    pub place: Place,
    /// From whom it receives.
    pub source: Option<From>,
}
