//! Whether something is told as a row says.

use std::alloc::Global;
use std::fmt::Debug;

/// Whether something has this `Debug`.
pub fn is_told<D: Debug>(alloc: Global, what: &D, want: &str) -> bool {
    match format!(in alloc; "{what:?}") {
        Ok(told) => told.as_str() == want,
        Err(_) => false,
    }
}
