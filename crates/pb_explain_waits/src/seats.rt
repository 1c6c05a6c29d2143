//! Which ranks a text has.

use pb_ctree::{CTree, Formula};
use pb_text::{Name, NoMemory};
use std::alloc::Global;

/// A role of a text at some N: the numbers of its ranks, from `first` to the one before `behind`. A rank's number is its index
/// and `place`.
#[derive(Clone, Copy)]
pub struct Seat {
    pub role: Name,
    pub first: i64,
    pub behind: i64,
    pub place: i64,
}

/// The value of a formula at N.
pub fn value(formula: Formula, n: i64) -> i64 {
    formula.a.saturating_mul(n).saturating_add(formula.b)
}

/// The number of the first rank of a role, or of the first one behind them all.
fn first_of(tree: &CTree, role: usize, n: i64) -> i64 {
    match tree.bases.get(role) {
        Some(base) => value(*base, n),
        None => value(tree.size, n),
    }
}

/// The roles of a text at N.
pub fn seats_of(alloc: Global, tree: &CTree, n: i64) -> Result<Vec<Seat>, NoMemory> {
    let mut seats = Vec::new(alloc);
    for (at, role) in tree.local.roles.iter().enumerate() {
        seats.push(Seat {
            role: role.name,
            first: first_of(tree, at, n),
            behind: first_of(tree, at.saturating_add(1), n),
            place: match tree.places.get(at) {
                Some(place) => value(*place, n),
                None => 0,
            },
        })?;
    }
    Ok(seats)
}

/// The role and the index of the rank with this number.
pub fn seat_of(seats: &[Seat], rank: i64) -> Option<(Name, i64)> {
    for seat in seats {
        if seat.first <= rank && rank < seat.behind {
            return Some((seat.role, rank.saturating_sub(seat.place)));
        }
    }
    None
}
