ghost use Rattle.std.specs.Prelude.{◌≡◌, ◌<◌, ◌≤◌, ◌||◌, ◌&&◌, ℕ, ℤ, IfOk, OnOk, length};
ghost use Rattle.std.specs.List.{All};
ghost use Rattle.pb_cases.specs.Breakpoints.{Division, IsInRange};
ghost use Rattle.pb_part_areas.specs.Areas.{have};
ghost use Rattle.pb_part_areas.specs.Fits.{Fits};
ghost use Rattle.pb_core_language.specs.Cuts.{cuts};
ghost use Rattle.pb_core_language.specs.Outcomes.{Outcome};
ghost use Rattle.pb_core_language.specs.Plain.{plain};
ghost use Rattle.pb_core_flat.specs.OutcomeSets.{outcome_eq};
ghost use Rattle.pb_part_firsts.specs.Firsts.{finds};
ghost use Rattle.pb_part_firsts.specs.Fitting.{EntriesFit};
ghost use Rattle.pb_part.specs.FirstLists.{answers, outcome_at, AreAligned};

use crate::kinds::{First, FirstKind};
use crate::parts::{kind_of, split};
use pb_core_language::Core;
use pb_part_areas::{Area, NoMemory, guards_of};
use pb_part_firsts::Entry;
use std::alloc::Global;

/// Adds what the ranks of the areas find, if there is an area.
pub(crate) fn add_first(
    alloc: Global,
    core: &Core,
    areas: &[Area],
    kind: FirstKind,
    list: &mut Vec<First>,
) -> Result<(), NoMemory>
    requires fits { All (Fits core.now.range (cuts (plain core.now))) areas.now }
    ensures is { OnOk result ((n : ℤ) (role : ℕ) (x : ℤ) (o : Outcome) → IsInRange core.now.range n →
        answers core.now.roles.items list.new.items n role x o ≡ answers core.now.roles.items list.old.items n role x o || (have areas.now n role x && outcome_eq (outcome_at core.now.roles.items kind n x) o)) }
    ensures aligned { OnOk result ((d : Division) → d.range ≡ core.now.range → d.cuts ≡ cuts (plain core.now) → AreAligned d list.old.items → AreAligned d list.new.items) }
{
    if areas.is_empty() {
        return Ok(());
    }
    let guards = guards_of(alloc, areas, core.range)?;
    list.push(First { guards, kind })?;
    Ok(())
}

/// Adds what the first of the entries finds, with the ranks of all entries that find the same. The other entries are left.
fn add_kind(
    alloc: Global,
    core: &Core,
    entries: &[Entry],
    list: &mut Vec<First>,
) -> Result<Vec<Entry>, NoMemory>
    requires fits { EntriesFit core.now.range (cuts (plain core.now)) entries.now }
    ensures is { IfOk result (λ left. (n : ℤ) (role : ℕ) (x : ℤ) (o : Outcome) → IsInRange core.now.range n →
        answers core.now.roles.items list.new.items n role x o || finds core.now.roles.items left.items n role x o
        ≡ answers core.now.roles.items list.old.items n role x o || finds core.now.roles.items entries.now n role x o) }
    ensures fits { IfOk result (λ left. EntriesFit core.now.range (cuts (plain core.now)) left.items) }
    ensures aligned { IfOk result (λ left. (d : Division) → d.range ≡ core.now.range → d.cuts ≡ cuts (plain core.now) → AreAligned d list.old.items → AreAligned d list.new.items) }
    ensures shorter { IfOk result (λ left. 0 < length entries.now → length left.items < length entries.now) }
{
    match entries.split_first() {
        None => Ok(Vec::new(alloc)),
        Some((first, rest)) => {
            let part = split(alloc, *first, rest)?;
            add_first(alloc, core, &part.areas, kind_of(first.kind), list)?;
            Ok(part.others)
        }
    }
}

/// A First for each kind of the entries, in the order in which the kinds come.
pub(crate) fn by_kind(
    alloc: Global,
    core: &Core,
    entries: Vec<Entry>,
) -> Result<Vec<First>, NoMemory>
    requires fits { EntriesFit core.now.range (cuts (plain core.now)) entries.items }
    ensures is { IfOk result (λ list. (n : ℤ) (role : ℕ) (x : ℤ) (o : Outcome) → IsInRange core.now.range n → answers core.now.roles.items list.items n role x o ≡ finds core.now.roles.items entries.items n role x o) }
    ensures aligned { IfOk result (λ list. (d : Division) → d.range ≡ core.now.range → d.cuts ≡ cuts (plain core.now) → AreAligned d list.items) }
{
    let mut list = Vec::new(alloc);
    let mut left = entries;
    'kinds: while !left.is_empty() {
        left = add_kind(alloc, core, &left, &mut list)?;
    }
    Ok(list)
}
