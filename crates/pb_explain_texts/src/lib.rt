//! What a C text has in a line that it can't have: the very line, where what stands before it settles that, and else what may
//! stand there. The readers of texts decide: a line is told where they take it.
#![tactic(auto)]

mod frame;
mod lines;
mod sections;
mod settled;
mod statements;
mod tell;

pub use pb_explain_source::{NoMemory, Page, Place, Source};
pub use tell::tell_text_line;
