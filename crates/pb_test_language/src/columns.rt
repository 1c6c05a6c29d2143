//! The words of a row of a table.

/// The word at a place, counted from 0; empty where there is none.
pub fn word(row: &str, place: usize) -> &str {
    row.split(' ').nth(place).unwrap_or("")
}

/// The pair of numbers at this place and the next, if there are numbers.
pub fn pair(row: &str, place: usize) -> Option<(i64, i64)> {
    let first = word(row, place).parse().ok()?;
    let second = word(row, place.saturating_add(1)).parse().ok()?;
    Some((first, second))
}
