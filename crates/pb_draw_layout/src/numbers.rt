//! Lists of numbers that ascend.

use pb_text::NoMemory;
use std::alloc::Global;

/// The numbers, ascending and each once.
pub fn distinct(alloc: Global, mut numbers: Vec<u32>) -> Result<Vec<u32>, NoMemory> {
    numbers.sort_unstable();
    let mut once = Vec::new(alloc);
    let mut last = None;
    for number in &numbers {
        if last != Some(*number) {
            once.push(*number)?;
            last = Some(*number);
        }
    }
    Ok(once)
}

/// The number with 32 bits, and the greatest of these where it has more.
pub fn narrow(number: usize) -> u32 {
    match u32::try_from(number) {
        Ok(narrow) => narrow,
        Err(_) => u32::MAX,
    }
}

/// Where a number stands, and 0 where it doesn't.
pub fn index_of(numbers: &[u32], number: u32) -> u32 {
    match numbers.binary_search(&number) {
        Ok(index) => narrow(index),
        Err(_) => 0,
    }
}

/// Where a place stands.
pub fn place_in(places: &[usize], place: usize) -> Option<usize> {
    places.binary_search(&place).ok()
}

/// The number at a place, and 0 behind the last.
pub fn number_at(numbers: &[u32], place: usize) -> u32 {
    match numbers.get(place) {
        Some(number) => *number,
        None => 0,
    }
}
