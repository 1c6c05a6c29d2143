//! How a call of the program ends: a status, and the line that tells it where not all was done.
#![tactic(auto)]

mod broken;
mod call;
mod kernel;
mod parts;
mod refusal;
mod refusing;
mod status;
mod strip;
mod told;

pub use call::CallWrong;
pub use kernel::{KernelKind, KernelWrong};
pub use parts::write_parts;
pub use pb_text::{Name, Place, Quantity};
pub use refusal::Refusal;
pub use refusing::refuse;
pub use status::Status;
pub use strip::StripWrong;
