use crate::Name;

/// What a body in a C text is for.
#[derive(Clone, Copy, Debug, PartialEq, Eq, Hash)]
pub enum Kind {
    /// What stands before the functions.
    Prelude,
    /// A compute kernel: `k_` and its name.
    Compute,
    /// A choice kernel: `c_` and its name.
    Choice,
    /// It makes the words of a label: `make_` and the label's name.
    Make,
    /// It takes the words of a label: `take_` and the label's name.
    Take,
    /// It gives the memory that a label's elements are received into: `room_` and the label's name. Only program texts have it.
    Room,
}

/// A body by its name. The prelude has none.
#[derive(Clone, Copy, Debug, PartialEq, Eq, Hash)]
pub struct KName {
    pub kind: Kind,
    pub name: Option<Name>,
}
