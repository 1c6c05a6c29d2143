use pb_text::{Place, Quantity};

/// Why flattening stops.
#[derive(Clone, Copy)]
pub enum Halt {
    /// This limit is passed, by what comes from this place.
    TooMany(Quantity, Place),
    NoMemory,
}
