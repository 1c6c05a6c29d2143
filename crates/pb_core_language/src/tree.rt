ghost use Rattle.std.specs.Prelude.{◌≡◌};
ghost use Rattle.pb_core_language.specs.Plain.{plain_stmt};
ghost use Rattle.pb_core_language.specs.Tree.{is_again};

use pb_affine::Lin;
use pb_syntax::Op;
use pb_text::Place;

/// A role with an index: one end of a message, or where something is done.
#[derive(Clone, Copy)]
pub struct CoreEnd {
    /// The role's number.
    pub role: u32,
    pub at: Lin,
    /// Where the role's name stands.
    pub place: Place,
}

/// From which to which value the variable of a foreach runs.
#[derive(Clone, Copy)]
pub struct Bounds {
    pub low: Lin,
    pub high: Lin,
}

/// Statements that are done one after the other. Blocks are numbered from 0, in the order of the file.
#[derive(Drop)]
#[cycle(tree)]
pub struct CoreBlock {
    pub number: u32,
    pub place: Place,
    pub list: Vec<CoreStmt>,
}

/// A statement. Statements are numbered from 0, in the order of the file; the place is that of its first token.
#[derive(Drop)]
#[cycle(tree)]
pub struct CoreStmt {
    pub number: u32,
    pub place: Place,
    pub what: CoreKind,
}

/// What a statement does. Roles, labels and kernels are given by their numbers.
#[derive(Drop)]
#[cycle(tree)]
pub enum CoreKind {
    Message {
        label: u32,
        from: CoreEnd,
        to: CoreEnd,
    },
    /// The items, for each value of the variable from `low` to `high`, ascending.
    Foreach {
        low: Lin,
        high: Lin,
        items: CoreBlock,
    },
    /// A loop. Its `id` is that of no loop around it.
    Loop {
        id: u32,
        body: CoreBlock,
    },
    /// Back to the start of the body of the loop around it that has this `id`.
    Again {
        id: u32,
    },
    /// The kernel at the chooser answers which branch is taken.
    Choice {
        kernel: u32,
        at: CoreEnd,
        branches: Vec<CoreBlock>,
    },
    Run {
        kernel: u32,
        at: CoreEnd,
    },
    Barrier,
    Broadcast {
        label: u32,
        root: CoreEnd,
    },
    Reduce {
        label: u32,
        op: Op,
        root: CoreEnd,
    },
    Allreduce {
        label: u32,
        op: Op,
    },
}

impl CoreStmt {
    /// Whether it is a continue.
    pub fn is_again(&self) -> bool
        ensures { result ≡ is_again (plain_stmt self.now).stmt }
    {
        match &self.what {
            CoreKind::Again { .. } => true,
            CoreKind::Message { .. }
            | CoreKind::Foreach { .. }
            | CoreKind::Loop { .. }
            | CoreKind::Choice { .. }
            | CoreKind::Run { .. }
            | CoreKind::Barrier
            | CoreKind::Broadcast { .. }
            | CoreKind::Reduce { .. }
            | CoreKind::Allreduce { .. } => false,
        }
    }
}
