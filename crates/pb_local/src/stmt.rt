use crate::{Guard, Guards, Lin, Op};

/// A rank by its role's number and its index.
#[derive(Clone, Copy, PartialEq, Eq)]
pub struct Peer {
    pub role: u32,
    pub at: Lin,
}

/// The first message has this label, and the guards hold of the rank: the branch is this one.
#[derive(Drop)]
pub struct Test {
    /// The branch's number.
    pub branch: u32,
    /// The label's number.
    pub label: u32,
    pub guards: Guards,
}

/// The ranks that hear of a choice from another rank than the others do.
#[derive(Drop)]
pub struct Relay {
    pub guards: Guards,
    pub from: Peer,
}

/// A statement of an endpoint program. Roles, labels and kernels are given by their numbers.
#[derive(Drop)]
pub enum Stmt {
    /// The ranks of which a guard holds do the first part, all others the other part.
    If {
        guards: Guards,
        first: Vec<Stmt>,
        other: Vec<Stmt>,
    },
    /// The body for each value of the variable, ascending. Both ends belong to the range.
    For {
        low: Lin,
        high: Lin,
        body: Vec<Stmt>,
    },
    /// The variable becomes the rank's own index plus `off`.
    Own {
        off: i32,
    },
    /// A body to which `Again` goes back. Loops are numbered from 0 in text order.
    Loop {
        id: u32,
        body: Vec<Stmt>,
    },
    /// Back to the start of the loop that stands around it.
    Again {
        id: u32,
    },
    /// The rank `who` chooses by its kernel. Every other rank looks at the first message from the source of the first
    /// relay whose guards hold for it, or from `from`, and the tests say which branch that message begins.
    Choice {
        who: Guard,
        kernel: u32,
        relays: Vec<Relay>,
        from: Peer,
        tests: Vec<Test>,
        branches: Vec<Vec<Stmt>>,
    },
    Send {
        label: u32,
        to: Peer,
    },
    Recv {
        label: u32,
        from: Peer,
    },
    /// A compute kernel.
    Run {
        kernel: u32,
    },
    Barrier,
    Broadcast {
        label: u32,
        root: Peer,
    },
    Reduce {
        label: u32,
        op: Op,
        root: Peer,
    },
    Allreduce {
        label: u32,
        op: Op,
    },
}
