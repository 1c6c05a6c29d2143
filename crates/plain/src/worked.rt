ghost use Rattle.std.specs.Prelude.{◌≡◌, true, map};
ghost use Rattle.pb_affine.specs.Values.{IsNear};
ghost use Rattle.pb_core_language.specs.Plain.{plain};
ghost use Rattle.pb_core_language.specs.Ranks.{seats};
ghost use Rattle.pb_core_language.specs.Sound.{is_sound};
ghost use Rattle.pb_plain.specs.View.{seat_of};

use crate::parts::{Part, Standing};
use crate::text::Text;
use pb_core_language::{Core, CoreLabel};
use pb_plain::{Outcome, Seat, firsts_in, takes_part_in};
use pb_text::NoMemory;
use std::alloc::Global;

/// The line of each statement: its number, its place, and the ranks that take part in it.
pub fn put_statements(
    text: &mut Text,
    alloc: Global,
    core: &Core,
    ranks: &[Seat],
    n: i64,
    statements: &[Part],
) -> Result<(), NoMemory>
    requires sound { is_sound (plain core.now) ≡ true }
    requires n { IsNear n }
    requires seats { map seat_of ranks.now ≡ seats core.now.roles.items n }
{
    text.put_count(b"statements ", statements.len())?;
    for part in statements {
        put_part(text, b"statement ", part)?;
        match part.standing {
            Standing::Free => put_takers(text, alloc, core, ranks, n, part.number)?,
            Standing::Item => text.put(b": in a foreach")?,
        }
        text.put(b"\n")?;
    }
    Ok(())
}

/// What it is, its number, and its place.
fn put_part(text: &mut Text, what: &[u8], part: &Part) -> Result<(), NoMemory> {
    text.put(what)?;
    text.put_number(u64::from(part.number))?;
    text.put_place(part.place)
}

/// The ranks that take part in the statement with this number.
fn put_takers(
    text: &mut Text,
    alloc: Global,
    core: &Core,
    ranks: &[Seat],
    n: i64,
    number: u32,
) -> Result<(), NoMemory>
    requires sound { is_sound (plain core.now) ≡ true }
    requires n { IsNear n }
    requires seats { map seat_of ranks.now ≡ seats core.now.roles.items n }
{
    text.put(b": taken by")?;
    let mut is_taken = false;
    for rank in 0..ranks.len() as u64 {
        if takes_part_in(alloc, core, ranks, n, number, rank)? {
            text.put(b" ")?;
            text.put_number(rank)?;
            is_taken = true;
        }
    }
    if is_taken {
        Ok(())
    } else {
        text.put(b" nobody")
    }
}

/// The lines of each block: its number, its place, and what each rank finds first in it.
pub fn put_blocks(
    text: &mut Text,
    alloc: Global,
    core: &Core,
    ranks: &[Seat],
    n: i64,
    blocks: &[Part],
) -> Result<(), NoMemory>
    requires sound { is_sound (plain core.now) ≡ true }
    requires n { IsNear n }
    requires seats { map seat_of ranks.now ≡ seats core.now.roles.items n }
{
    text.put_count(b"blocks ", blocks.len())?;
    for part in blocks {
        match part.standing {
            Standing::Free => put_firsts(text, alloc, core, ranks, n, part)?,
            Standing::Item => {
                put_part(text, b"block ", part)?;
                text.put(b": in a foreach\n")?;
            }
        }
    }
    Ok(())
}

/// The line of each rank for this block.
fn put_firsts(
    text: &mut Text,
    alloc: Global,
    core: &Core,
    ranks: &[Seat],
    n: i64,
    part: &Part,
) -> Result<(), NoMemory>
    requires sound { is_sound (plain core.now) ≡ true }
    requires n { IsNear n }
    requires seats { map seat_of ranks.now ≡ seats core.now.roles.items n }
{
    for rank in 0..ranks.len() as u64 {
        let found = firsts_in(alloc, core, ranks, n, part.number, rank)?;
        put_part(text, b"block ", part)?;
        text.put(b": rank ")?;
        text.put_number(rank)?;
        text.put(b" finds ")?;
        put_outcomes(text, &core.labels, &found)?;
        text.put(b"\n")?;
    }
    Ok(())
}

/// The outcomes, each once, in the order in which they are met.
fn put_outcomes(text: &mut Text, labels: &[CoreLabel], found: &[Outcome]) -> Result<(), NoMemory> {
    for (at, outcome) in found.iter().enumerate() {
        if !is_among(&found[..at], outcome) {
            if 0 < at {
                text.put(b" or ")?;
            }
            put_outcome(text, labels, outcome)?;
        }
    }
    Ok(())
}

fn is_among(list: &[Outcome], outcome: &Outcome) -> bool {
    for other in list {
        if other == outcome {
            return true;
        }
    }
    false
}

fn put_outcome(text: &mut Text, labels: &[CoreLabel], outcome: &Outcome) -> Result<(), NoMemory> {
    match outcome {
        Outcome::Nothing => text.put(b"nothing"),
        Outcome::Receive { from, label } => {
            text.put(b"recv ")?;
            text.put_number(*from)?;
            text.put(b" ")?;
            text.put_label(labels, *label)
        }
        Outcome::Other => text.put(b"other"),
        Outcome::Again => text.put(b"continue"),
    }
}
