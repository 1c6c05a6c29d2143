ghost use Rattle.std.specs.Prelude.{◌≡◌, nat_eq};
ghost use Rattle.pb_local.specs.Collectives.{operation_of};
ghost use Rattle.pb_sim_collectives.specs.Calls.{collective_of, labelled, call_of, joint_of, kind_in, label_in, operation_number, operation_in, root_in, is_same};

use pb_syntax::Op;
use pb_text::Joint;

/// A collective call, with all that the ranks have to agree on.
#[derive(Clone, Copy)]
pub enum Call {
    Barrier,
    Broadcast { label: u32, root: u32 },
    Reduce { label: u32, op: Op, root: u32 },
    Allreduce { label: u32, op: Op },
}

impl Call {
    /// The call with this label, operation and root.
    pub fn of(what: Joint, root: Option<u32>, op: Option<Op>) -> Call
        ensures { result ≡ call_of what root op }
    {
        match what {
            Joint::Barrier => Call::Barrier,
            Joint::Labelled(label) => labelled(label, root, op),
        }
    }

    /// What it is known by in a log.
    pub fn what(self) -> Joint
        ensures { result ≡ joint_of (collective_of self) }
    {
        match self {
            Call::Barrier => Joint::Barrier,
            Call::Broadcast { label, .. } => Joint::Labelled(label),
            Call::Reduce { label, .. } => Joint::Labelled(label),
            Call::Allreduce { label, .. } => Joint::Labelled(label),
        }
    }

    fn is_same_kind(self, other: Call) -> bool
        ensures { result ≡ nat_eq (kind_in (collective_of self)) (kind_in (collective_of other)) }
    {
        match self {
            Call::Barrier => matches!(other, Call::Barrier),
            Call::Broadcast { .. } => matches!(other, Call::Broadcast { .. }),
            Call::Reduce { .. } => matches!(other, Call::Reduce { .. }),
            Call::Allreduce { .. } => matches!(other, Call::Allreduce { .. }),
        }
    }

    /// The label's number; 0 for a barrier.
    pub fn label(self) -> u32
        ensures { result ≡ label_in (collective_of self) }
    {
        match self {
            Call::Barrier => 0,
            Call::Broadcast { label, .. } => label,
            Call::Reduce { label, .. } => label,
            Call::Allreduce { label, .. } => label,
        }
    }

    fn operation(self) -> u32
        ensures { result ≡ operation_in (collective_of self) }
    {
        match self {
            Call::Barrier => 0,
            Call::Broadcast { .. } => 0,
            Call::Reduce { op, .. } => operation_number(op),
            Call::Allreduce { op, .. } => operation_number(op),
        }
    }

    fn root(self) -> u32
        ensures { result ≡ root_in (collective_of self) }
    {
        match self {
            Call::Barrier => 0,
            Call::Broadcast { root, .. } => root,
            Call::Reduce { root, .. } => root,
            Call::Allreduce { .. } => 0,
        }
    }

    /// Whether two calls agree in kind, label, operation and root.
    pub fn is_same(self, other: Call) -> bool
        ensures { result ≡ is_same (collective_of self) (collective_of other) }
    {
        self.is_same_kind(other)
            && self.label() == other.label()
            && self.operation() == other.operation()
            && self.root() == other.root()
    }
}

fn labelled(label: u32, root: Option<u32>, op: Option<Op>) -> Call
    ensures { result ≡ labelled label root op }
{
    match root {
        None => match op {
            None => Call::Barrier,
            Some(op) => Call::Allreduce { label, op },
        },
        Some(root) => match op {
            None => Call::Broadcast { label, root },
            Some(op) => Call::Reduce { label, op, root },
        },
    }
}

fn operation_number(op: Op) -> u32
    ensures { result ≡ operation_number (operation_of op) }
{
    match op {
        Op::Max => 0,
        Op::Min => 1,
        Op::Sum => 2,
    }
}
