//! Ranks that stop at areas, one after the other.

ghost use Rattle.std.specs.Prelude.{◌≡◌, ◌&&◌, not, ℕ, ℤ, true, List, IfOk};
ghost use Rattle.std.specs.List.{All};
ghost use Rattle.pb_affine.specs.declared.lin.Lin.{Lin};
ghost use Rattle.pb_affine.specs.declared.range.NRange.{NRange};
ghost use Rattle.pb_core_language.specs.declared.protocol.CoreRole.{CoreRole};
ghost use Rattle.pb_part_areas.specs.Areas.{has, have};
ghost use Rattle.pb_part_areas.specs.Fits.{Fits};
ghost use Rattle.pb_part_firsts.specs.Firsts.{Gives, is_small_kind, are_small};
ghost use Rattle.pb_part_firsts.specs.Fitting.{AllFit, EntriesFit};
ghost use Rattle.pb_part_firsts.specs.Parts.{flat, AreAround};
ghost use Rattle.pb_part_firsts.specs.Stopping.{Stops};
ghost use Rattle.pb_part_firsts.specs.Turns.{first_stop};
ghost use Rattle.pb_part_firsts.specs.Coming.{Turned, ComingFits};

use crate::firsts::{Entry, Kind};
use crate::parts::{Part, are_past, areas_of, parts_of, stop_parts};
use pb_part_areas::{Area, NoMemory, attach, one, ordered, tidied};
use std::alloc::Global;

/// Those that come so far: of those in the parts all but those at some areas, who stop there with what is found, which isn't
/// added yet. The size is how many parts there were when their areas were last put in order.
#[derive(Drop)]
pub(crate) struct Coming {
    pub parts: Vec<Part>,
    pub at: Vec<Area>,
    pub kind: Kind,
    pub size: usize,
}

/// True only where the kinds are written in the same way. Takes no memory.
fn is_same(a: Kind, b: Kind) -> bool
    ensures { result ≡ true → a ≡ b }
{
    a == b
}

/// True only where nobody of the parts is at the stop. Takes no memory.
fn is_past(parts: &[Part], stop: Entry) -> bool
    ensures { result ≡ true → AreAround parts.now → (n : ℤ) (role : ℕ) (x : ℤ) → have (flat parts.now) n role x && not (has stop.area n role x) ≡ have (flat parts.now) n role x }
{
    are_past(parts, stop.area)
}

/// Adds what those at the areas find, and leaves the others.
fn settled(alloc: Global, coming: Coming, out: &mut Vec<Entry>) -> Result<Vec<Part>, NoMemory>
    ensures gives { IfOk result (λ left. (roles : List CoreRole) → AreAround coming.parts.items → Stops roles (flat coming.parts.items) coming.at.items (flat left.items) out.old.items out.new.items coming.kind) }
    ensures around { IfOk result (λ left. AreAround coming.parts.items → AreAround left.items) }
    ensures small { IfOk result (λ left. is_small_kind coming.kind ≡ true → are_small out.old.items ≡ true → are_small out.new.items ≡ true) }
    ensures fits { IfOk result (λ left. (range : NRange) (cuts : List Lin) → ComingFits range cuts coming out.old.items → AllFit range cuts (flat left.items) out.new.items) }
{
    let at = tidied(alloc, coming.at)?;
    let left = stop_parts(alloc, coming.parts, &at, coming.kind, out)?;
    Ok(left)
}

/// The same ranks in parts of areas that are put in order and joined.
fn in_order(alloc: Global, parts: &[Part]) -> Result<Vec<Part>, NoMemory>
    ensures is { IfOk result (λ v. (n : ℤ) (role : ℕ) (x : ℤ) → have (flat v.items) n role x ≡ have (flat parts.now) n role x) }
    ensures around { IfOk result (λ v. AreAround v.items) }
    ensures fits { IfOk result (λ v. (range : NRange) (cuts : List Lin) → All (Fits range cuts) (flat parts.now) → All (Fits range cuts) (flat v.items)) }
{
    let areas = areas_of(alloc, parts)?;
    let list = ordered(alloc, areas)?;
    parts_of(alloc, &list)
}

/// Those of the parts that come past one area, which isn't taken out yet.
fn begun(alloc: Global, parts: Vec<Part>, size: usize, stop: Entry) -> Result<Coming, NoMemory>
    ensures parts { IfOk result (λ c. c.parts.items ≡ parts.items) }
    ensures kind { IfOk result (λ c. c.kind ≡ stop.kind) }
    ensures at { IfOk result (λ c. (n : ℤ) (role : ℕ) (x : ℤ) → have c.at.items n role x ≡ has stop.area n role x) }
    ensures fits { IfOk result (λ c. (range : NRange) (cuts : List Lin) → Fits range cuts stop.area → All (Fits range cuts) c.at.items) }
{
    let at = one(alloc, stop.area)?;
    Ok(Coming {
        parts,
        at,
        kind: stop.kind,
        size,
    })
}

/// The same, with the parts put in order first where there are about twice as many as when they last were.
fn begun_again(alloc: Global, left: Vec<Part>, size: usize, stop: Entry) -> Result<Coming, NoMemory>
    ensures is { IfOk result (λ c. (n : ℤ) (role : ℕ) (x : ℤ) → have (flat c.parts.items) n role x ≡ have (flat left.items) n role x) }
    ensures around { IfOk result (λ c. AreAround left.items → AreAround c.parts.items) }
    ensures kind { IfOk result (λ c. c.kind ≡ stop.kind) }
    ensures at { IfOk result (λ c. (n : ℤ) (role : ℕ) (x : ℤ) → have c.at.items n role x ≡ has stop.area n role x) }
    ensures fits { IfOk result (λ c. (range : NRange) (cuts : List Lin) → All (Fits range cuts) (flat left.items) → All (Fits range cuts) (flat c.parts.items)) }
    ensures at_fits { IfOk result (λ c. (range : NRange) (cuts : List Lin) → Fits range cuts stop.area → All (Fits range cuts) c.at.items) }
{
    if left.len() / 2 <= size {
        return begun(alloc, left, size, stop);
    }
    let parts = in_order(alloc, &left)?;
    let size = parts.len();
    begun(alloc, parts, size, stop)
}

/// Those that come past one more area.
fn with_stop(
    alloc: Global,
    coming: Coming,
    stop: Entry,
    out: &mut Vec<Entry>,
) -> Result<Coming, NoMemory>
    ensures gives { IfOk result (λ next. (roles : List CoreRole) → AreAround coming.parts.items → Turned roles coming out.old.items next out.new.items stop) }
    ensures around { IfOk result (λ next. AreAround coming.parts.items → AreAround next.parts.items) }
    ensures kind { IfOk result (λ next. is_small_kind stop.kind ≡ true → is_small_kind coming.kind ≡ true → is_small_kind next.kind ≡ true) }
    ensures small { IfOk result (λ next. is_small_kind coming.kind ≡ true → are_small out.old.items ≡ true → are_small out.new.items ≡ true) }
    ensures fits { IfOk result (λ next. (range : NRange) (cuts : List Lin) → Fits range cuts stop.area → ComingFits range cuts coming out.old.items → ComingFits range cuts next out.new.items) }
{
    if is_same(coming.kind, stop.kind) {
        let mut at = coming.at;
        attach(&mut at, stop.area)?;
        return Ok(Coming {
            parts: coming.parts,
            at,
            kind: coming.kind,
            size: coming.size,
        });
    }
    if is_past(&coming.parts, stop) {
        return Ok(coming);
    }
    let size = coming.size;
    let left = settled(alloc, coming, out)?;
    begun_again(alloc, left, size, stop)
}

/// Gives the ranks of the parts what they find at the first of these areas that holds of them, and leaves those of which none
/// holds. Areas one after the other at which the same is found are taken together.
pub(crate) fn stop_each(
    alloc: Global,
    reach: Vec<Part>,
    stops: &[Entry],
    out: &mut Vec<Entry>,
) -> Result<Vec<Part>, NoMemory>
    ensures gives { IfOk result (λ left. (range : NRange) (roles : List CoreRole) → AreAround reach.items → Gives range roles (flat reach.items) (flat left.items) out.old.items out.new.items (first_stop roles stops.now)) }
    ensures around { IfOk result (λ left. AreAround reach.items → AreAround left.items) }
    ensures small { IfOk result (λ left. are_small stops.now ≡ true → are_small out.old.items ≡ true → are_small out.new.items ≡ true) }
    ensures fits { IfOk result (λ left. (range : NRange) (cuts : List Lin) → All (Fits range cuts) (flat reach.items) → EntriesFit range cuts stops.now → EntriesFit range cuts out.old.items → AllFit range cuts (flat left.items) out.new.items) }
{
    let size = reach.len();
    let mut coming = Coming {
        parts: reach,
        at: Vec::new(alloc),
        kind: Kind::Other,
        size,
    };
    for stop in stops {
        if coming.parts.is_empty() {
            return Ok(coming.parts);
        }
        coming = with_stop(alloc, coming, *stop, out)?;
    }
    settled(alloc, coming, out)
}
