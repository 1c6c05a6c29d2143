ghost use Rattle.std.specs.Prelude.{◌≡◌, true};
ghost use Rattle.pb_affine.specs.Values.{IsNear};
ghost use Rattle.pb_core_language.specs.Plain.{plain};
ghost use Rattle.pb_core_language.specs.Sound.{is_sound};

use pb_core_language::{Core, Place};
use pb_core_sound::is_sound;
use pb_plain_rules::{Breach, Seat, breaches};
use pb_rules::{At, RuleFault, check_index};
use pb_text::NoMemory;
use std::alloc::Global;

/// A breach at one N.
#[derive(Clone, Copy)]
struct Found {
    rule: u8,
    number: u64,
    place: Place,
    n: i64,
    at: Option<Seat>,
}

fn found_at(one: &Breach, n: i64) -> Found {
    Found {
        rule: one.rule,
        number: one.mark.number,
        place: one.mark.place,
        n,
        at: one.at,
    }
}

/// Whether the first seat comes before the other, or there is none.
fn is_first_seat(one: Option<Seat>, other: Option<Seat>) -> bool {
    match (one, other) {
        (None, _) => true,
        (Some(one), Some(other)) if one.role != other.role => one.role < other.role,
        (Some(one), Some(other)) => one.index <= other.index,
        (Some(_), None) => false,
    }
}

/// Whether the first comes before the other, or is like it: by the rule, then the number of the place, then N, then the seat.
fn is_first(one: &Found, other: &Found) -> bool {
    if one.rule != other.rule {
        return one.rule < other.rule;
    }
    if one.number != other.number {
        return one.number < other.number;
    }
    if one.n != other.n {
        return one.n < other.n;
    }
    is_first_seat(one.at, other.at)
}

fn earlier(best: Option<Found>, one: Found) -> Option<Found> {
    match best {
        Some(best) if is_first(&best, &one) => Some(best),
        _ => Some(one),
    }
}

/// The first of the best so far and the breaches of the rules 6 to 8 at N = n.
fn first_with(
    alloc: Global,
    core: &Core,
    n: i64,
    best: Option<Found>,
) -> Result<Option<Found>, NoMemory>
    requires sound { is_sound (plain core.now) ≡ true }
    requires n { IsNear n }
{
    let mut best = best;
    for one in &breaches(alloc, core, n)? {
        if one.rule <= 8 {
            best = earlier(best, found_at(one, n));
        }
    }
    Ok(best)
}

/// The first breach of the rules 6 to 8 for N from 2 to 6.
fn first_breach(alloc: Global, core: &Core) -> Result<Option<Found>, NoMemory>
    requires { is_sound (plain core.now) ≡ true }
{
    let mut best = None;
    for n in 2_u8..7 {
        best = first_with(alloc, core, i64::from(n), best)?;
    }
    Ok(best)
}

fn is_same_seat(at: Option<At>, seat: Option<Seat>) -> bool {
    match (at, seat) {
        (None, None) => true,
        (Some(at), Some(seat)) => u64::from(at.role) == seat.role && at.index == seat.index,
        _ => false,
    }
}

fn is_same(found: Option<Found>, rule: u8, place: Place, n: i64, at: Option<At>) -> bool {
    match found {
        None => false,
        Some(found) => {
            found.rule == rule && found.place == place && found.n == n && is_same_seat(at, found.at)
        }
    }
}

/// Whether the core, whose N goes from 2 to 6, is sound, and the rules 6 to 8 are decided as the slow program decides them.
pub fn agrees(alloc: Global, core: &Core) -> Result<bool, NoMemory> {
    if !is_sound(core) {
        return Ok(false);
    }
    let found = first_breach(alloc, core)?;
    match check_index(alloc, core) {
        Ok(()) => Ok(found.is_none()),
        Err(RuleFault::Broken { rule, place, n, at }) => Ok(is_same(found, rule, place, n, at)),
        Err(RuleFault::TooManyCases) => Ok(false),
        Err(RuleFault::NoMemory) => Err(NoMemory),
    }
}

/// The rule of the first breach, where the core is sound and breaks one of the rules 6 to 8.
pub fn rule_of(alloc: Global, core: &Core) -> Option<u8> {
    if !is_sound(core) {
        return None;
    }
    match check_index(alloc, core) {
        Err(RuleFault::Broken { rule, .. }) => Some(rule),
        Err(RuleFault::TooManyCases | RuleFault::NoMemory) | Ok(()) => None,
    }
}
