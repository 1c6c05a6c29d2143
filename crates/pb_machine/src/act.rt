ghost use Rattle.std.specs.Prelude.{◌≡◌};
ghost use Rattle.pb_machine_next.specs.Calls.{collective_of};
ghost use Rattle.pb_machine.specs.Acts.{entry_of};

use crate::{Joint, Op};
use pb_machine_next::Call;

/// An action that comes next, without what a kernel or another rank puts into it.
#[derive(Clone, Copy, PartialEq, Eq)]
pub enum Act {
    /// The kernel chooses one of `branches` branches.
    Choose {
        kernel: u32,
        branches: u32,
    },
    /// A compute kernel runs.
    Run {
        kernel: u32,
    },
    /// A message to the rank `to`.
    Send {
        to: u32,
        label: u32,
    },
    /// A message from the rank `from`.
    Recv {
        from: u32,
        label: u32,
    },
    /// Into a collective: a barrier; a broadcast, which has a root; a reduce, which has a root and an operation; or an
    /// allreduce, which has an operation.
    Enter {
        what: Joint,
        root: Option<u32>,
        op: Option<Op>,
    },
    /// Out of the collective that was entered last.
    Leave,
}

/// What a rank does next, as far as it alone decides it.
#[derive(Clone, Copy, PartialEq, Eq)]
pub enum Next {
    /// A step that only the rank itself notices.
    Silent,
    /// An action.
    Acts(Act),
    /// It looks at the label of the first message from this rank.
    Waits { from: u32 },
    /// No statement is left.
    Ended,
    /// It made as many silent steps as the text allows, and would make another.
    Lost,
    /// What it would do next means nothing.
    Undefined,
}

/// What a step gets from outside.
#[derive(Clone, Copy)]
pub enum Input {
    /// Nothing.
    Plain,
    /// The label of the message that was waited for.
    Tag(u32),
    /// The branch that a kernel chose.
    Answer(u32),
}

/// The action that enters a collective.
pub fn entry(call: Call) -> Act
    ensures { result ≡ entry_of (collective_of call) }
{
    match call {
        Call::Barrier => enter(Joint::Barrier, None, None),
        Call::Broadcast { label, root } => enter(Joint::Labelled(label), Some(root), None),
        Call::Reduce { label, op, root } => enter(Joint::Labelled(label), Some(root), Some(op)),
        Call::Allreduce { label, op } => enter(Joint::Labelled(label), None, Some(op)),
    }
}

fn enter(what: Joint, root: Option<u32>, op: Option<Op>) -> Act
    ensures { result ≡ Act.Enter what root op }
{
    Act::Enter { what, root, op }
}
