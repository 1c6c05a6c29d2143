ghost use Rattle.std.specs.Prelude.{◌≡◌, ◌++◌, map, OnOk};
ghost use Rattle.pb_core_language.specs.Rules.{is_seat, each_origin, each_origin_among, strays, loners};
ghost use Rattle.pb_plain_rules.specs.Ends.{breaks, stray};
ghost use Rattle.pb_plain.specs.View.{view, view_branches, seat_of, asked_of, origin_of};

use crate::{Asked, Branches, Flat, NoMemory, Seat};
use pb_plain::{Ends, Origin, is_same};

/// A rule on the ends of each statement.
#[derive(Clone, Copy)]
pub enum EndRule<'a> {
    /// Each end is one of these seats.
    InRange(&'a [Seat]),
    /// Sender and receiver differ.
    Apart,
}

/// Adds the ends in the block that break the rule, in the order of the flat protocol. For sender and receiver that don't differ
/// it is their seat, at the message's own mark.
#[cycle(breaks)]
pub fn add_breaks(block: &Flat, rule: &EndRule, out: &mut Vec<Asked>) -> Result<(), NoMemory>
    ensures { OnOk result (map asked_of out.new.items ≡ map asked_of out.old.items ++ each_origin (breaks rule.now) (view block.now)) }
{
    match block {
        Flat::Stop => Ok(()),
        Flat::Message { origin, rest, .. } => {
            add_of_origin(origin, rule, out)?;
            add_breaks(rest, rule, out)
        }
        Flat::Compute { origin, rest, .. } => {
            add_of_origin(origin, rule, out)?;
            add_breaks(rest, rule, out)
        }
        Flat::Together { origin, rest, .. } => {
            add_of_origin(origin, rule, out)?;
            add_breaks(rest, rule, out)
        }
        Flat::Choice {
            origin,
            branches,
            rest,
            ..
        } => {
            add_of_origin(origin, rule, out)?;
            add_breaks_among(branches, rule, out)?;
            add_breaks(rest, rule, out)
        }
        Flat::Looped { origin, body, rest } => {
            add_of_origin(origin, rule, out)?;
            add_breaks(body, rule, out)?;
            add_breaks(rest, rule, out)
        }
        Flat::Again { .. } => Ok(()),
    }
}

/// Adds those in the branches.
#[cycle(breaks)]
fn add_breaks_among(
    branches: &Branches,
    rule: &EndRule,
    out: &mut Vec<Asked>,
) -> Result<(), NoMemory>
    ensures { OnOk result (map asked_of out.new.items ≡ map asked_of out.old.items ++ each_origin_among (breaks rule.now) (view_branches branches.now)) }
{
    match branches {
        Branches::None => Ok(()),
        Branches::Branch { first, rest, .. } => {
            add_breaks(first, rule, out)?;
            add_breaks_among(rest, rule, out)
        }
    }
}

fn add_of_origin(origin: &Origin, rule: &EndRule, out: &mut Vec<Asked>) -> Result<(), NoMemory>
    ensures { OnOk result (map asked_of out.new.items ≡ map asked_of out.old.items ++ breaks rule.now (origin_of origin.now)) }
{
    match rule {
        EndRule::InRange(seats) => add_strays(origin, seats, out),
        EndRule::Apart => add_alike(origin, out),
    }
}

fn add_strays(origin: &Origin, seats: &[Seat], out: &mut Vec<Asked>) -> Result<(), NoMemory>
    ensures { OnOk result (map asked_of out.new.items ≡ map asked_of out.old.items ++ strays (map seat_of seats.now) (origin_of origin.now)) }
{
    match origin.ends {
        Ends::None => Ok(()),
        Ends::One(end) => add_if_stray(end, seats, out),
        Ends::Two(from, to) => {
            add_if_stray(from, seats, out)?;
            add_if_stray(to, seats, out)
        }
    }
}

fn add_if_stray(end: Asked, seats: &[Seat], out: &mut Vec<Asked>) -> Result<(), NoMemory>
    ensures { OnOk result (map asked_of out.new.items ≡ map asked_of out.old.items ++ stray (map seat_of seats.now) (asked_of end)) }
{
    if !is_seat(&end.seat, seats) {
        out.push(end)?;
    }
    Ok(())
}

fn is_seat(seat: &Seat, seats: &[Seat]) -> bool
    ensures { result ≡ is_seat (seat_of seat.now) (map seat_of seats.now) }
{
    for other in seats {
        if is_same(seat, other) {
            return true;
        }
    }
    false
}

fn add_alike(origin: &Origin, out: &mut Vec<Asked>) -> Result<(), NoMemory>
    ensures { OnOk result (map asked_of out.new.items ≡ map asked_of out.old.items ++ loners (origin_of origin.now)) }
{
    match origin.ends {
        Ends::None => Ok(()),
        Ends::One(_) => Ok(()),
        Ends::Two(from, to) => {
            if is_same(&from.seat, &to.seat) {
                out.push(Asked {
                    mark: origin.mark,
                    seat: from.seat,
                })?;
            }
            Ok(())
        }
    }
}
