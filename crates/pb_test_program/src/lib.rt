//! Tests of what no call of the built program shows: the words of the command line word by word, generators of words and picks of ranks,
//! numbers past any int32 in guards and peers, files that come byte by byte or fail, output that fails at any byte, files cut short,
//! answers of one's own in a simulation, and places of a file where nothing stands. `checks/sessions` and `checks/explain` show the rest.
#![tactic(auto)]

#[cfg(test)]
mod byte_folder;
#[cfg(test)]
mod choice_tests;
#[cfg(test)]
mod cli_words_tests;
#[cfg(test)]
mod collective_tests;
#[cfg(test)]
mod commands;
#[cfg(test)]
mod fault_tests;
#[cfg(test)]
mod generator_tests;
#[cfg(test)]
mod heard_tests;
#[cfg(test)]
mod logs;
#[cfg(test)]
mod machine_next_tests;
#[cfg(test)]
mod page_tests;
#[cfg(test)]
mod sched_tests;
mod stored;
#[cfg(test)]
mod text_tests;
#[cfg(test)]
mod way_tests;
#[cfg(test)]
mod worlds;

pub use pb_cli_simulate::{CTree, Options, Status};
pub use stored::{simulate_by_greatest, simulate_by_list};
