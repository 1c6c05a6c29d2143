ghost use Rattle.std.specs.Prelude.{◌≡◌, true, false, List, None, IfOk, map};
ghost use Rattle.std.specs.List.{All};
ghost use Rattle.pb_affine.specs.declared.lin.Lin.{Lin};
ghost use Rattle.pb_part_areas.specs.Fits.{Fits};
ghost use Rattle.pb_cases.specs.Breakpoints.{IsCut};
ghost use Rattle.pb_core_language.specs.Cuts.{block_cuts, branches_cuts};
ghost use Rattle.pb_core_language.specs.Plain.{plain_block, branches_of};
ghost use Rattle.pb_core_language.specs.Sound.{Rows, is_block, are_branches};
ghost use Rattle.pb_part_takers.specs.Loops.{ids_of, HeldFit};
ghost use Rattle.pb_part_takers.specs.Pieces.{AreAmong};
ghost use Rattle.pb_part_firsts.specs.Takers.{IsWhole};
ghost use Rattle.pb_shape.specs.Places.{Scope};
ghost use Rattle.pb_shape.specs.Loops.{Around};
ghost use Rattle.pb_project_choice.specs.Found.{IsAround, IsFirstIn, IsFoundIn};

use pb_core_language::CoreBlock;
use pb_part_areas::{Area, copied};
use pb_part_firsts::{Entry, Held, firsts_in};
use pb_text::NoMemory;
use std::alloc::Global;

/// What the ranks find first in a branch.
#[derive(Drop)]
pub struct Branch {
    pub entries: Vec<Entry>,
}

/// What the ranks find first in a branch, inside these loops. `whole` has all ranks.
fn branch_of(
    branch: &CoreBlock,
    alloc: Global,
    whole: &[Area],
    held: &[Held],
) -> Result<Branch, NoMemory>
    ensures { IfOk result (λ v. (sc : Scope) (a : Around) (rows : Rows) (cuts : List Lin) → IsWhole sc.range sc.roles whole.now → IsAround sc a held.now → is_block rows false (ids_of held.now) (plain_block branch.now).block ≡ true →
        AreAmong (block_cuts None (plain_block branch.now).block) cuts → All (Fits sc.range cuts) whole.now → HeldFit sc.range cuts held.now → IsFirstIn sc a (plain_block branch.now).block cuts v.entries.items) }
{
    let mut entries = Vec::new(alloc);
    let all = copied(alloc, whole)?;
    let _left = firsts_in(branch, alloc, whole, held, all, &mut entries)?;
    Ok(Branch { entries })
}

/// What the ranks find first in each branch, inside these loops. `whole` has all ranks.
pub fn branches_of(
    branches: &[CoreBlock],
    alloc: Global,
    whole: &[Area],
    held: &[Held],
) -> Result<Vec<Branch>, NoMemory>
    ensures { IfOk result (λ v. (sc : Scope) (a : Around) (rows : Rows) (cuts : List Lin) → IsWhole sc.range sc.roles whole.now → IsAround sc a held.now →
        are_branches rows (ids_of held.now) (branches_of (map plain_block branches.now)) ≡ true → AreAmong (branches_cuts None (branches_of (map plain_block branches.now))) cuts → All IsCut cuts →
        All (Fits sc.range cuts) whole.now → HeldFit sc.range cuts held.now → IsFoundIn sc a (branches_of (map plain_block branches.now)) v.items) }
{
    let mut list = Vec::new(alloc);
    for branch in branches {
        let one = branch_of(branch, alloc, whole, held)?;
        list.push(one)?;
    }
    Ok(list)
}
