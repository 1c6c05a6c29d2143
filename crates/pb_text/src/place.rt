use crate::Name;

/// A line and a byte of it, both counted from 1. A line feed ends a line. The numbers stop at 4,294,967,295.
#[derive(Clone, Copy, Debug, PartialEq, Eq)]
pub struct Place {
    pub line: u32,
    pub col: u32,
}

/// A name where it stands in a file.
#[derive(Clone, Copy)]
pub struct Spot {
    pub name: Name,
    pub place: Place,
}
