ghost use Rattle.std.specs.Prelude.{◌≡◌, ◌≤◌, ◌+◌, ◌||◌, ◌&&◌, ◌∷◌, ℕ, ℤ, true, List, IfOk, OnOk, length};
ghost use Rattle.pb_affine.specs.declared.lin.Lin.{Lin};
ghost use Rattle.pb_affine.specs.declared.range.NRange.{NRange};
ghost use Rattle.pb_part_areas.specs.Areas.{has, have};
ghost use Rattle.pb_part_areas.specs.Fits.{Fits};
ghost use Rattle.pb_core_language.specs.declared.protocol.CoreRole.{CoreRole};
ghost use Rattle.pb_core_language.specs.Outcomes.{Outcome};
ghost use Rattle.pb_core_flat.specs.OutcomeSets.{outcome_eq};
ghost use Rattle.pb_part_firsts.specs.Firsts.{finds, outcome_of};
ghost use Rattle.pb_part_firsts.specs.Fitting.{AllFit, EntriesFit};
ghost use Rattle.pb_part.specs.FirstLists.{outcome_at};

use crate::kinds::FirstKind;
use pb_part_areas::{Area, NoMemory, one, push};
use pb_part_firsts::{Entry, Kind};
use std::alloc::Global;

/// The areas of entries of one kind, and the other entries.
#[derive(Drop)]
pub(crate) struct Part {
    pub(crate) areas: Vec<Area>,
    pub(crate) others: Vec<Entry>,
}

fn is_same(kind: Kind, other: Kind) -> bool
    ensures { result ≡ true → kind ≡ other }
{
    kind == other
}

pub(crate) fn kind_of(kind: Kind) -> FirstKind
    ensures { (roles : List CoreRole) (n x : ℤ) → outcome_at roles result n x ≡ outcome_of roles kind n x }
{
    match kind {
        Kind::Receive { from, label } => FirstKind::Receive { from, label },
        Kind::Other => FirstKind::Other,
        Kind::Again => FirstKind::Again,
    }
}

/// Adds the entry to the areas, where it has the kind, and else to the other entries.
fn add_to(part: &mut Part, kind: Kind, entry: Entry) -> Result<(), NoMemory>
    ensures is { OnOk result ((roles : List CoreRole) (n : ℤ) (role : ℕ) (x : ℤ) (o : Outcome) →
        (have part.new.areas.items n role x && outcome_eq (outcome_of roles kind n x) o) || finds roles part.new.others.items n role x o
        ≡ ((have part.old.areas.items n role x && outcome_eq (outcome_of roles kind n x) o) || finds roles part.old.others.items n role x o) || (has entry.area n role x && outcome_eq (outcome_of roles entry.kind n x) o)) }
    ensures fits { OnOk result ((range : NRange) (cuts : List Lin) → AllFit range cuts part.old.areas.items part.old.others.items → Fits range cuts entry.area → AllFit range cuts part.new.areas.items part.new.others.items) }
    ensures shorter { OnOk result (length part.new.others.items ≤ length part.old.others.items + 1) }
{
    if is_same(entry.kind, kind) {
        push(&mut part.areas, entry.area)?;
        Ok(())
    } else {
        part.others.push(entry)?;
        Ok(())
    }
}

/// The areas of the entries of the first one's kind, and the other entries.
pub(crate) fn split(alloc: Global, first: Entry, rest: &[Entry]) -> Result<Part, NoMemory>
    ensures is { IfOk result (λ part. (roles : List CoreRole) (n : ℤ) (role : ℕ) (x : ℤ) (o : Outcome) →
        (have part.areas.items n role x && outcome_eq (outcome_of roles first.kind n x) o) || finds roles part.others.items n role x o ≡ finds roles (first ∷ rest.now) n role x o) }
    ensures fits { IfOk result (λ part. (range : NRange) (cuts : List Lin) → EntriesFit range cuts (first ∷ rest.now) → AllFit range cuts part.areas.items part.others.items) }
    ensures shorter { IfOk result (λ part. length part.others.items ≤ length rest.now) }
{
    let mut part = Part {
        areas: one(alloc, first.area)?,
        others: Vec::new(alloc),
    };
    for entry in rest {
        add_to(&mut part, first.kind, *entry)?;
    }
    Ok(part)
}
