use crate::Op;

/// A collective call, with all that the ranks have to agree on.
#[derive(Clone, Copy)]
pub enum Call {
    Barrier,
    Broadcast { label: u32, root: u32 },
    Reduce { label: u32, op: Op, root: u32 },
    Allreduce { label: u32, op: Op },
}
