use crate::Payload;
use pb_text::Name;

/// What a kernel is for.
#[derive(Clone, Copy)]
pub enum KernelKind {
    /// It computes at its rank.
    Compute,
    /// It chooses a branch.
    Choice,
}

/// A row of the table of labels. A label's number is its position.
#[derive(Clone, Copy)]
pub struct CoreLabel {
    pub name: Name,
    pub payload: Payload,
}

/// A row of the table of kernels. A kernel's number is its position.
#[derive(Clone, Copy)]
pub struct CoreKernel {
    pub name: Name,
    pub kind: KernelKind,
}
