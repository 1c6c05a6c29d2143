ghost use Rattle.std.specs.Prelude.{◌≡◌, ◌∷◌, ℕ, ℤ, true, false, List, IfOk, OnOk};
ghost use Rattle.pb_affine.specs.declared.range.NRange.{NRange};
ghost use Rattle.pb_part_areas.specs.Areas.{have};
ghost use Rattle.pb_core_language.specs.declared.protocol.CoreRole.{CoreRole};
ghost use Rattle.pb_core_language.specs.Plain.{plain_block};
ghost use Rattle.pb_core_language.specs.Sound.{Rows, is_block};
ghost use Rattle.pb_part_takers.specs.Loops.{held_of, ids_of};
ghost use Rattle.pb_part_firsts.specs.Takers.{Adds, IsWhole, part_in};

use pb_core_language::CoreBlock;
use pb_part_areas::{Area, NoMemory};
use pb_part_takers::Held;
use std::alloc::Global;

/// The loops inside a loop's body, the innermost first.
pub fn with_loop(
    alloc: Global,
    held: &[Held],
    id: u32,
    areas: Vec<Area>,
) -> Result<Vec<Held>, NoMemory>
    ensures ids { IfOk result (λ v. ids_of v.items ≡ id ∷ ids_of held.now) }
    ensures areas { IfOk result (λ v. (n : ℤ) (role : ℕ) (x : ℤ) → held_of v.items n role x ≡ have areas.items n role x ∷ held_of held.now n role x) }
{
    let inner = pb_part_takers::with_loop(alloc, held, id, areas)?;
    Ok(inner)
}

/// Adds the ranks that take part in the block, inside these loops, the innermost first. `whole` has all ranks.
pub fn takers_in(
    block: &CoreBlock,
    alloc: Global,
    whole: &[Area],
    held: &[Held],
    out: &mut Vec<Area>,
) -> Result<(), NoMemory>
    ensures { OnOk result ((range : NRange) (roles : List CoreRole) (rows : Rows) → IsWhole range roles whole.now →
        is_block rows false (ids_of held.now) (plain_block block.now).block ≡ true →
        Adds range roles out.old.items out.new.items (part_in roles held.now (plain_block block.now).block)) }
{
    pb_part_takers::takers_in(block, alloc, whole, held, out)?;
    Ok(())
}
