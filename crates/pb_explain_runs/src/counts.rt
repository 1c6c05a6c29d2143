//! How many ranks there are.

use pb_explain_source::{Page, Part};
use pb_text::{Name, NoMemory};

/// How many ranks a simulation has at most.
pub const MOST_RANKS: i64 = 1024;

/// How many ranks a role has at some N.
#[derive(Clone, Copy)]
pub struct Count {
    pub role: Name,
    pub ranks: i64,
}

/// How many ranks all roles have.
pub fn total(counts: &[Count]) -> i64 {
    let mut total = 0i64;
    for count in counts {
        total = total.saturating_add(count.ranks);
    }
    total
}

/// Writes how many ranks there are at N, and how many each role has.
pub fn note_counts(page: &mut Page, n: i64, counts: &[Count]) -> Result<(), NoMemory> {
    page.say(&[
        Part::Text("note: at N = "),
        Part::Number(n),
        Part::Text(" the number of ranks is "),
        Part::Number(total(counts)),
    ])?;
    for (at, count) in counts.iter().enumerate() {
        page.say(&[
            Part::Text(if at > 0 { ", " } else { ": " }),
            Part::Number(count.ranks),
            Part::Text(" of `"),
            Part::Name(&count.role),
            Part::Text("`"),
        ])?;
    }
    page.say(&[Part::Text("\n")])
}

/// The greatest N below this one with few enough ranks, where their number grows by `slope` with each N.
fn fitting(n: i64, total: i64, slope: i64) -> Option<i64> {
    if slope <= 0 {
        return None;
    }
    let over = total.saturating_sub(MOST_RANKS);
    let back = over
        .saturating_add(slope)
        .saturating_sub(1)
        .checked_div(slope)?;
    Some(n.saturating_sub(back))
}

/// Writes that the file has more ranks at N than a simulation, and which N it may be, of those from `low` on. With N one
/// greater there would be `slope` ranks more.
pub fn tell_many_ranks(
    page: &mut Page,
    file: &str,
    n: i64,
    low: i64,
    counts: &[Count],
    slope: i64,
) -> Result<(), NoMemory> {
    page.say(&[
        Part::Text(file),
        Part::Text(": a simulation has at most 1024 ranks\n"),
    ])?;
    note_counts(page, n, counts)?;
    match fitting(n, total(counts), slope) {
        Some(fit) if low <= fit => page.help(&[
            Part::Text("take `--n "),
            Part::Number(fit),
            Part::Text("` or less"),
        ]),
        _ => Ok(()),
    }
}
