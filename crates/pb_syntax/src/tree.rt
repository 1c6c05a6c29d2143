use pb_text::{Place, Spot};

/// The upper end of the constant's range.
#[derive(Clone, Copy)]
pub enum High {
    Upto(u32),
    Max,
}

/// What a label carries: nothing, or 1 to 1,024 numbers of one type.
#[derive(Clone, Copy, PartialEq, Eq)]
pub enum Payload {
    Unit,
    Int32(u32),
    Uint32(u32),
}

/// The operation of a reduction (MPI 3.1, 5.9.2).
#[derive(Clone, Copy, PartialEq, Eq)]
pub enum Op {
    Min,
    Max,
    Sum,
}

/// A number, or a name with an offset, where it stands in a file.
#[derive(Drop)]
pub struct LinText {
    pub base: Option<Spot>,
    pub off: i32,
    pub place: Place,
}

/// The two ends of a range. Both belong to it.
#[derive(Drop)]
pub struct RangeText {
    pub low: LinText,
    pub high: LinText,
}

/// The index of an end.
#[derive(Drop)]
pub enum IndexText {
    Zero,
    At(LinText),
    Bind(Spot, RangeText),
}

/// A role with an index: one end of a message, or where something is done.
#[derive(Drop)]
pub struct End {
    pub role: Spot,
    pub index: IndexText,
}

/// The declaration of a role. A role without a range has the one index 0.
#[derive(Drop)]
pub struct RoleText {
    pub role: Spot,
    pub range: Option<RangeText>,
}

/// Statements in braces, with the place of the opening brace.
#[derive(Drop)]
#[cycle(tree)]
pub struct Block {
    pub place: Place,
    pub list: Vec<Statement>,
}

/// A statement of a protocol, with its place.
#[derive(Drop)]
#[cycle(tree)]
pub enum Statement {
    Message {
        label: Spot,
        payload: Payload,
        from: End,
        to: End,
    },
    Foreach {
        place: Place,
        var: Spot,
        range: RangeText,
        items: Block,
    },
    Rec {
        place: Place,
        name: Spot,
        body: Block,
    },
    Continue {
        place: Place,
        name: Spot,
    },
    Choice {
        place: Place,
        kernel: Spot,
        at: End,
        branches: Vec<Block>,
    },
    Compute {
        place: Place,
        kernel: Spot,
        at: End,
    },
    Barrier {
        place: Place,
    },
    Broadcast {
        place: Place,
        label: Spot,
        payload: Payload,
        from: End,
    },
    Reduce {
        place: Place,
        label: Spot,
        payload: Payload,
        op: Op,
        to: End,
    },
    Allreduce {
        place: Place,
        label: Spot,
        payload: Payload,
        op: Op,
    },
}

/// The tree of a protocol file.
#[derive(Drop)]
pub struct FileTree {
    pub constant: Spot,
    pub low: u32,
    pub low_place: Place,
    pub high: High,
    pub high_place: Place,
    pub protocol: Spot,
    pub roles: Vec<RoleText>,
    pub body: Block,
}
