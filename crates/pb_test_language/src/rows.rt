//! The rows of tables, and whether something is told or printed as a row says.

use pb_syntax::{FileTree, print_file};
use std::alloc::Global;
use std::fmt::Debug;

/// The line of a row, and what is wanted of it behind ` => `.
pub fn parts(row: &str) -> (&str, &str) {
    row.split_once(" => ").unwrap_or((row, ""))
}

/// A number, or 0 where the word is none.
pub fn number(word: Option<&str>) -> u32 {
    match word {
        Some(word) => word.parse().unwrap_or(0),
        None => 0,
    }
}

/// Whether a fault or a result has this `Debug`.
pub fn is_told<D: Debug>(alloc: Global, what: &D, want: &str) -> bool {
    match format!(in alloc; "{what:?}") {
        Ok(told) => told.as_str() == want,
        Err(_) => false,
    }
}

/// Whether a file is printed so.
pub fn is_printed(alloc: Global, file: &FileTree, want: &str) -> bool {
    match print_file(alloc, file) {
        Ok(text) => text.as_slice() == want.as_bytes(),
        Err(_) => false,
    }
}
