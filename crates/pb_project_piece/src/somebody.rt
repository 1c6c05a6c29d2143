ghost use Rattle.std.specs.Prelude.{IfOk};
ghost use Rattle.pb_project_piece.specs.Ranked.{IsThere};

use crate::setting::Setting;
use pb_part_areas::{Area, common};
use pb_part_first::first_of;
use pb_text::NoMemory;
use std::alloc::Global;

/// Whether some area of the list holds of a rank, for some N of the range.
pub fn is_somebody(alloc: Global, setting: &Setting, areas: &[Area]) -> Result<bool, NoMemory>
    ensures { IfOk result (λ t. IsThere setting.now.range setting.now.whole.now areas.now t) }
{
    let ranks = common(alloc, areas, setting.whole)?;
    let first = first_of(&ranks, setting.range);
    Ok(first.is_some())
}
