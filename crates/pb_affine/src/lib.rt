//! Lins, which are a number, N or a variable with an offset, and guards, which say of which ranks a statement is.
#![tactic(auto)]

mod guard;
mod guards;
mod lin;
mod range;

pub use guard::Guard;
pub use guards::Guards;
pub use lin::{Base, Lin};
pub use pb_text::NoMemory;
pub use range::NRange;
