ghost use Rattle.std.specs.Prelude.{◌≡◌, ◌<◌, ℕ, ℤ, true, IfOk};
ghost use Rattle.pb_cases.specs.Breakpoints.{Division};
ghost use Rattle.pb_core_language.specs.Cuts.{cuts};
ghost use Rattle.pb_core_language.specs.Outcomes.{Outcome};
ghost use Rattle.pb_core_language.specs.Parts.{firsts_in};
ghost use Rattle.pb_core_language.specs.Plain.{plain};
ghost use Rattle.pb_core_language.specs.Ranks.{seats, seat_at, total};
ghost use Rattle.pb_core_language.specs.Sound.{is_sound};
ghost use Rattle.pb_core_language.specs.Verdict.{IsIn};
ghost use Rattle.pb_core_flat.specs.OutcomeSets.{is_outcome};
ghost use Rattle.pb_part.specs.FirstLists.{answers, AreAligned};

use crate::kinds::{First, FirstKind};
use crate::listed::{add_first, by_kind};
use pb_core_language::Core;
use pb_part_areas::NoMemory;
use pb_part_firsts::found_in;
use std::alloc::Global;

/// What the ranks find first in the block with this number, for every N of the range: at each N a rank has exactly the
/// outcomes of the Firsts whose guards hold of it. Each kind has one First, in the order in which the kinds are found, and
/// Nothing comes last. The block isn't a foreach's; where no block has the number, no rank finds anything. The guards' ends
/// are cuts of the file. Fails for want of memory alone.
pub fn firsts(alloc: Global, core: &Core, block: u32) -> Result<Vec<First>, NoMemory>
    requires sound { is_sound (plain core.now) ≡ true }
    ensures gives { IfOk result (λ list. (n : ℤ) (r : ℕ) (o : Outcome) → IsIn core.now.range n → r < total core.now.roles.items n →
        answers core.now.roles.items list.items n (seat_at r (seats core.now.roles.items n)).role (seat_at r (seats core.now.roles.items n)).index o ≡ is_outcome o (firsts_in (plain core.now) n block r)) }
    ensures aligned { IfOk result (λ list. (d : Division) → d.range ≡ core.now.range → d.cuts ≡ cuts (plain core.now) → AreAligned d list.items) }
{
    let found = found_in(alloc, core, block)?;
    let mut list = by_kind(alloc, core, found.entries)?;
    add_first(alloc, core, &found.passed, FirstKind::Nothing, &mut list)?;
    Ok(list)
}
