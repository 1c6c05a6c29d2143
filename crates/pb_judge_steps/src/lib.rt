//! The steps of the sequential run beside a log: what a message, a compute or a choice does is looked for in the ranks'
//! lists. Only the ranks that take part in it are touched.
//!
//! `specs/Met.antt` says when what is done is met, and `specs/Made.antt` which words and which branch a log shows.
#![tactic(auto)]

mod deed;
mod made;
mod meeting;
mod messages;

pub use deed::Deed;
pub use made::{Made, first_branch, first_words};
pub use meeting::{Difference, meet};
pub use messages::{choose, compute, message};
pub use pb_judge_lists::{Lists, NoMemory};
