//! Laws on verdicts: bytes have one, an accepted file has none but that, and one meaning.
#![tactic(auto)]

mod laws;

pub use laws::{accepted_has_no_fault, one_meaning, one_verdict};
