use pb_syntax::Op;
use pb_text::Place;

/// The number and the place of a statement, a block or an end. The ends of statement k have the numbers 2*k and 2*k + 1.
#[derive(Clone, Copy, Debug, PartialEq, Eq)]
pub struct Mark {
    pub number: u64,
    pub place: Place,
}

/// A role's number and an index, in the role's range or not.
#[derive(Clone, Copy, Debug, PartialEq, Eq)]
pub struct Seat {
    pub role: u64,
    pub index: i64,
}

/// An end as it stands in the file, with the seat that it asks for.
#[derive(Clone, Copy)]
pub struct Asked {
    pub mark: Mark,
    pub seat: Seat,
}

/// The ends of a statement.
#[derive(Clone, Copy)]
pub enum Ends {
    None,
    One(Asked),
    /// A sender and a receiver.
    Two(Asked, Asked),
}

/// Where a statement comes from.
#[derive(Clone, Copy)]
pub struct Origin {
    pub mark: Mark,
    pub ends: Ends,
}

/// A collective, with all that the ranks have to agree on. Roots are rank numbers.
#[derive(Clone, Copy)]
pub enum Collective {
    Barrier,
    Broadcast { label: u32, root: u64 },
    Reduce { label: u32, op: Op, root: u64 },
    Allreduce { label: u32, op: Op },
}

/// A flat protocol: each statement with what is done after it. Ends are rank numbers.
#[derive(Drop)]
#[cycle(flat)]
pub enum Flat {
    Stop,
    Message {
        origin: Origin,
        from: u64,
        to: u64,
        label: u32,
        rest: Box<Flat>,
    },
    Compute {
        origin: Origin,
        at: u64,
        kernel: u32,
        rest: Box<Flat>,
    },
    Together {
        origin: Origin,
        joint: Collective,
        rest: Box<Flat>,
    },
    Choice {
        origin: Origin,
        at: u64,
        kernel: u32,
        branches: Box<Branches>,
        rest: Box<Flat>,
    },
    Looped {
        origin: Origin,
        body: Box<Flat>,
        rest: Box<Flat>,
    },
    /// Back to the loop around that has so many loops between.
    Again {
        between: u64,
    },
}

/// The branches of a choice.
#[derive(Drop)]
#[cycle(flat)]
pub enum Branches {
    None,
    Branch {
        mark: Mark,
        first: Box<Flat>,
        rest: Box<Branches>,
    },
}
