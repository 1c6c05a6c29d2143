use crate::call::Call;

/// Where a step leads: to another statement of a block that the rank is in, or into a block of a statement.
#[derive(Clone, Copy)]
pub enum Go {
    Stay {
        depth: usize,
        at: usize,
    },
    Enter {
        depth: usize,
        at: usize,
        part: usize,
    },
}

/// What a rank does next, and where that leads.
#[derive(Clone, Copy)]
pub enum Ahead {
    Ended,
    Undefined,
    /// A silent step, behind which the variable is `i`.
    Silent {
        i: i32,
        go: Go,
    },
    Choose {
        kernel: u32,
        branches: u32,
        depth: usize,
        at: usize,
    },
    Run {
        kernel: u32,
        go: Go,
    },
    Send {
        to: u32,
        label: u32,
        go: Go,
    },
    Recv {
        from: u32,
        label: u32,
        go: Go,
    },
    /// Into a collective.
    Join {
        call: Call,
        go: Go,
    },
    /// Out of the collective.
    Leave {
        call: Call,
        go: Go,
    },
    /// The first message from the rank `from` says which branch of the choice at this place was taken.
    Probe {
        from: u32,
        depth: usize,
        at: usize,
    },
}
