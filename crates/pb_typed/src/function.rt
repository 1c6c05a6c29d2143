use pb_text::Name;

/// What a function of a program text is for.
#[derive(Clone, Copy, Debug, PartialEq, Eq)]
pub enum Role {
    /// It makes the words of a label, or its elements.
    Makes,
    /// It gives the kernels' own memory, which is sent.
    MakesOwn,
    /// It gives the memory that is received into.
    GivesRoom,
    /// It takes what was received.
    Takes,
    /// It takes what was received, and how much.
    TakesOwn,
    /// A compute kernel.
    Computes,
    /// A choice kernel.
    Chooses,
}

/// A function of a program text.
#[derive(Clone, Copy, Debug, PartialEq, Eq)]
pub struct Function {
    pub role: Role,
    /// The name of its label or of the kernel.
    pub name: Name,
}
