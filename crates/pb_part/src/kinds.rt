use pb_affine::Guards;
use pb_part_firsts::Source;

/// What a rank finds first in a block: nothing that it takes part in, a message that it receives, the place of a continue,
/// or anything else.
#[derive(Clone, Copy, PartialEq, Eq)]
pub enum FirstKind {
    Nothing,
    Receive { from: Source, label: u32 },
    Other,
    Again,
}

/// The ranks that the guards hold of may find this first.
#[derive(Drop)]
pub struct First {
    pub guards: Guards,
    pub kind: FirstKind,
}
