use pb_syntax::{High, IndexText, Op, Payload, RangeText};
use pb_text::{Place, Spot};

/// The column of an end: a number, or the variable of the `columns` around with an offset.
#[derive(Drop)]
pub struct Col {
    pub var: Option<Spot>,
    pub off: i32,
}

/// The declaration of a role. A strip has the first and the last of its columns.
#[derive(Drop)]
pub struct StripRole {
    pub role: Spot,
    pub range: Option<RangeText>,
    pub columns: Option<(u32, u32)>,
}

/// A role with an index and, if it is a strip, a column.
#[derive(Drop)]
pub struct StripEnd {
    pub role: Spot,
    pub index: IndexText,
    pub col: Option<Col>,
}

/// Statements in braces, with the place of the opening brace.
#[derive(Drop)]
#[cycle(tree)]
pub struct StripBlock {
    pub place: Place,
    pub list: Vec<StripStatement>,
}

/// A statement of a protocol, with its place.
#[derive(Drop)]
#[cycle(tree)]
pub enum StripStatement {
    Message {
        label: Spot,
        payload: Payload,
        from: StripEnd,
        to: StripEnd,
    },
    Foreach {
        place: Place,
        var: Spot,
        range: RangeText,
        items: StripBlock,
    },
    Rec {
        place: Place,
        name: Spot,
        body: StripBlock,
    },
    Continue {
        place: Place,
        name: Spot,
    },
    Choice {
        place: Place,
        kernel: Spot,
        at: StripEnd,
        branches: Vec<StripBlock>,
    },
    Compute {
        place: Place,
        kernel: Spot,
        at: StripEnd,
    },
    Barrier {
        place: Place,
    },
    Broadcast {
        place: Place,
        label: Spot,
        payload: Payload,
        from: StripEnd,
    },
    Reduce {
        place: Place,
        label: Spot,
        payload: Payload,
        op: Op,
        to: StripEnd,
    },
    Allreduce {
        place: Place,
        label: Spot,
        payload: Payload,
        op: Op,
    },
    /// Its body once for each value of the variable, from the least one up.
    Columns {
        place: Place,
        var: Spot,
        low: u32,
        high: u32,
        body: StripBlock,
    },
}

/// The tree of a protocol file with strips.
#[derive(Drop)]
pub struct StripTree {
    pub constant: Spot,
    pub low: u32,
    pub low_place: Place,
    pub high: High,
    pub high_place: Place,
    pub protocol: Spot,
    pub roles: Vec<StripRole>,
    pub body: StripBlock,
}
