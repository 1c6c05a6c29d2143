use crate::told::Told;
use crate::{Guards, Lin, Stmt};

/// The part of a statement that an open brace belongs to.
#[derive(Drop)]
pub enum Part {
    /// The first part of an `If`.
    First {
        guards: Guards,
    },
    /// The other part of an `If`.
    Other {
        guards: Guards,
        first: Vec<Stmt>,
    },
    For {
        low: Lin,
        high: Lin,
    },
    Loop {
        id: u32,
    },
    /// A branch of a choice behind these, and not the last.
    Branch {
        told: Told,
        parts: Vec<Vec<Stmt>>,
    },
    /// The last branch of a choice, behind these and one more.
    Last {
        told: Told,
        parts: Vec<Vec<Stmt>>,
        previous: Vec<Stmt>,
    },
}

/// An open brace, and the statements before it.
#[derive(Drop)]
pub struct Brace {
    pub part: Part,
    pub outer: Vec<Stmt>,
}
