//! The ruling on a recorded log.
//!
//! The log is laid beside the sequential run under the answers that it shows itself. `pb_judge_ruling` says what its ruling
//! is.
#![tactic(auto)]

mod judging;
mod laws;

pub use judging::judge;
pub use laws::read_logs_have_ranks;
pub use pb_core_language::Core;
pub use pb_judge_log::{Log, has_few_ranks};
pub use pb_judge_ruling::Ruling;
pub use pb_text::NoMemory;
