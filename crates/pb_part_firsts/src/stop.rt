ghost use Rattle.std.specs.Prelude.{◌≡◌, [], ℕ, ℤ, ◌||◌, ◌&&◌, List, true, OnOk};
ghost use Rattle.std.specs.List.{All};
ghost use Rattle.pb_affine.specs.declared.lin.Lin.{Lin};
ghost use Rattle.pb_affine.specs.declared.range.NRange.{NRange};
ghost use Rattle.pb_part_areas.specs.Fits.{Fits};
ghost use Rattle.pb_part_firsts.specs.Fitting.{EntriesFit};
ghost use Rattle.pb_part_areas.specs.Areas.{have};
ghost use Rattle.pb_core_language.specs.declared.protocol.CoreRole.{CoreRole};
ghost use Rattle.pb_core_language.specs.Outcomes.{Outcome};
ghost use Rattle.pb_core_flat.specs.OutcomeSets.{outcome_eq};
ghost use Rattle.pb_part_firsts.specs.Firsts.{finds, outcome_of, is_small_kind, are_small};

use crate::firsts::{Entry, Kind};
use pb_part_areas::{Area, NoMemory};

/// True only where the list is empty. Takes no memory.
#[tactic(auto, using(std::proofs::lemmas::List::nil_from_length))]
pub(crate) fn is_nobody(areas: &[Area]) -> bool
    ensures { result ≡ true → areas.now ≡ [] }
{
    areas.is_empty()
}

/// Gives the ranks of these areas an outcome.
pub(crate) fn emit(out: &mut Vec<Entry>, areas: &[Area], kind: Kind) -> Result<(), NoMemory>
    ensures gives { OnOk result ((roles : List CoreRole) (n : ℤ) (role : ℕ) (x : ℤ) (o : Outcome) →
        finds roles out.new.items n role x o ≡ finds roles out.old.items n role x o || (have areas.now n role x && outcome_eq (outcome_of roles kind n x) o)) }
    ensures small { OnOk result (is_small_kind kind ≡ true → are_small out.old.items ≡ true → are_small out.new.items ≡ true) }
    ensures fits { OnOk result ((range : NRange) (cuts : List Lin) → All (Fits range cuts) areas.now → EntriesFit range cuts out.old.items → EntriesFit range cuts out.new.items) }
{
    for area in areas {
        out.push(Entry { area: *area, kind })?;
    }
    Ok(())
}
