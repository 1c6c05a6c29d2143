use pb_affine::NRange;
use pb_part_areas::Area;

/// The range of N, how many roles there are, and the areas of all ranks.
#[derive(Clone, Copy)]
pub struct Setting<'a> {
    pub range: NRange,
    pub roles: u32,
    pub whole: &'a [Area],
}
