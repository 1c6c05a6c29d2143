use pb_affine::NRange;
use pb_part_areas::Area;

/// The range of N, and the areas of all ranks.
#[derive(Clone, Copy)]
pub struct Setting<'a> {
    pub range: NRange,
    pub whole: &'a [Area],
}
