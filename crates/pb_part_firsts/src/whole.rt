ghost use Rattle.std.specs.Prelude.{◌≡◌, ◌<◌, ℕ, ℤ, true, false, IfOk};
ghost use Rattle.pb_part_areas.specs.Areas.{have};
ghost use Rattle.pb_core_language.specs.Cuts.{cuts};
ghost use Rattle.pb_core_language.specs.Outcomes.{Outcome, nothing_first};
ghost use Rattle.pb_core_language.specs.Parts.{firsts_in};
ghost use Rattle.pb_core_language.specs.Plain.{plain};
ghost use Rattle.pb_core_language.specs.Ranks.{seats, seat_at, total};
ghost use Rattle.pb_core_language.specs.Sound.{is_sound};
ghost use Rattle.pb_core_language.specs.Verdict.{IsIn};
ghost use Rattle.pb_core_flat.specs.OutcomeSets.{is_nothing, is_outcome};
ghost use Rattle.pb_part_firsts.specs.Firsts.{finds};
ghost use Rattle.pb_part_firsts.specs.Fitting.{AllFit};

use crate::search::{Found, here, within};
use pb_core_language::Core;
use pb_part_areas::NoMemory;
use pb_part_takers::{Held, areas_of_roles};
use std::alloc::Global;

/// What the ranks find first in the block with this number, for every N of the range: the entries have exactly a rank's
/// outcomes but Nothing, and `passed` the ranks that may find nothing. The block isn't a foreach's. All areas fit the cuts
/// of the file.
pub fn found_in(alloc: Global, core: &Core, block: u32) -> Result<Found, NoMemory>
    requires sound { is_sound (plain core.now) ≡ true }
    ensures gives { IfOk result (λ f. (n : ℤ) (r : ℕ) (o : Outcome) → IsIn core.now.range n → r < total core.now.roles.items n → is_nothing o ≡ false →
        finds core.now.roles.items f.entries.items n (seat_at r (seats core.now.roles.items n)).role (seat_at r (seats core.now.roles.items n)).index o ≡ is_outcome o (firsts_in (plain core.now) n block r)) }
    ensures rest { IfOk result (λ f. (n : ℤ) (r : ℕ) → IsIn core.now.range n → r < total core.now.roles.items n →
        have f.passed.items n (seat_at r (seats core.now.roles.items n)).role (seat_at r (seats core.now.roles.items n)).index ≡ is_outcome nothing_first (firsts_in (plain core.now) n block r)) }
    ensures fits { IfOk result (λ f. AllFit core.now.range (cuts (plain core.now)) f.passed.items f.entries.items) }
{
    let whole = areas_of_roles(alloc, &core.roles, core.range)?;
    let held: Vec<Held> = Vec::new(alloc);
    let mut found = Found {
        entries: Vec::new(alloc),
        passed: Vec::new(alloc),
    };
    here(&core.body, block, alloc, &whole, &held, &mut found)?;
    within(&core.body, block, alloc, &whole, &held, &mut found)?;
    Ok(found)
}
