//! The roles and the statements of the file that a file with strips stands for, or the first limit that is passed.
//!
//! The walk over the statements stops at statement 4,001, and the one over the roles at role 65, so no more than that is
//! ever built, however many values the variable of a `columns` has.
#![tactic(auto)]

mod body;
mod copies;
mod count;
mod counting;
mod ends;
mod halt;
mod leaves;
mod output;
mod role_list;
mod roles;
mod round;
mod stop;
mod walk;

pub use body::flat_body;
pub use halt::Halt;
pub use roles::flat_roles;
