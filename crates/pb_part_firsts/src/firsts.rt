use pb_affine::Lin;
use pb_part_areas::Area;

/// The sender of a message. Where the lin varies, its variable is the receiver's own index.
#[derive(Clone, Copy, PartialEq, Eq)]
pub struct Source {
    pub role: u32,
    pub at: Lin,
}

/// What a rank finds first, if anything.
#[derive(Clone, Copy, PartialEq, Eq)]
pub enum Kind {
    Receive { from: Source, label: u32 },
    Other,
    Again,
}

/// The ranks of the area may find this first.
#[derive(Clone, Copy)]
pub struct Entry {
    pub area: Area,
    pub kind: Kind,
}
