use crate::CoreBlock;
use pb_affine::{Lin, NRange};
use pb_syntax::{CoreKernel, CoreLabel};
use pb_text::{Name, Place};

/// A role and the range of its indices.
#[derive(Clone, Copy)]
pub struct CoreRole {
    pub name: Name,
    /// Where its declaration names it.
    pub place: Place,
    pub low: Lin,
    pub high: Lin,
}

/// A protocol, for each N of its range.
#[derive(Drop)]
pub struct Core {
    pub protocol: Name,
    pub range: NRange,
    /// In the order of their declarations.
    pub roles: Vec<CoreRole>,
    /// In the order in which they first appear.
    pub labels: Vec<CoreLabel>,
    /// In the order in which they first appear.
    pub kernels: Vec<CoreKernel>,
    pub body: CoreBlock,
    /// How many statements there are.
    pub statements: u32,
    /// How many blocks there are.
    pub blocks: u32,
}
