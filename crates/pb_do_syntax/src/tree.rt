use pb_syntax::{End, High, Op, Payload, RangeText, RoleText};
use pb_text::{Place, Spot};

/// Statements in braces, calls among them, with the place of the opening brace.
#[derive(Drop)]
#[cycle(tree)]
pub struct CallBlock {
    pub place: Place,
    pub list: Vec<CallStatement>,
}

/// A statement of a protocol or a subprotocol, with its place.
#[derive(Drop)]
#[cycle(tree)]
pub enum CallStatement {
    Message {
        label: Spot,
        payload: Payload,
        from: End,
        to: End,
    },
    Foreach {
        place: Place,
        var: Spot,
        range: RangeText,
        items: CallBlock,
    },
    Rec {
        place: Place,
        name: Spot,
        body: CallBlock,
    },
    Continue {
        place: Place,
        name: Spot,
    },
    Choice {
        place: Place,
        kernel: Spot,
        at: End,
        branches: Vec<CallBlock>,
    },
    Compute {
        place: Place,
        kernel: Spot,
        at: End,
    },
    Barrier {
        place: Place,
    },
    Broadcast {
        place: Place,
        label: Spot,
        payload: Payload,
        from: End,
    },
    Reduce {
        place: Place,
        label: Spot,
        payload: Payload,
        op: Op,
        to: End,
    },
    Allreduce {
        place: Place,
        label: Spot,
        payload: Payload,
        op: Op,
    },
    /// A call of a subprotocol.
    Do {
        place: Place,
        sub: Spot,
        args: Vec<Spot>,
    },
}

/// A subprotocol. Its parameters stand for roles.
#[derive(Drop)]
pub struct Sub {
    pub name: Spot,
    pub params: Vec<Spot>,
    pub body: CallBlock,
}

/// The tree of a protocol file with subprotocols.
#[derive(Drop)]
pub struct CallTree {
    pub subs: Vec<Sub>,
    pub constant: Spot,
    pub low: u32,
    pub low_place: Place,
    pub high: High,
    pub high_place: Place,
    pub protocol: Spot,
    pub roles: Vec<RoleText>,
    pub body: CallBlock,
}
