//! Places, names, tokens, actions and decimals: the words that all crates above share.
#![tactic(auto)]

mod action;
mod limits;
mod memory;
mod mode;
mod name;
mod names;
mod number;
mod place;
mod quantity;
mod spelling;
mod token;
mod words;

pub use action::{Action, Joint};
pub use limits::{LEAST_OFFSET, MOST_EVENTS, MOST_NUMBER, MOST_OFFSET, MOST_TEXT_BYTES};
pub use memory::NoMemory;
pub use mode::Mode;
pub use name::Name;
pub use names::Names;
pub use number::{push_decimal, push_number};
pub use place::{Place, Spot};
pub use quantity::Quantity;
pub use token::{Key, Mark, Token, TokenKind};
pub use words::Words;
