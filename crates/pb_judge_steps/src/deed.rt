//! What a rank does, and whether an entry says so.

ghost use Rattle.std.specs.Prelude.{◌≡◌};
ghost use Rattle.pb_judge_steps.specs.Deeds.{same_joint, is_chosen, is_run, is_sent, is_received, is_entered, is_left, is_deed};

use crate::made::Made;
use pb_text::{Action, Joint};

/// What a rank does, as a log tells it.
#[derive(Clone, Copy)]
pub enum Deed<'a> {
    Choose {
        kernel: u32,
        branch: usize,
    },
    Run {
        kernel: u32,
    },
    Send {
        to: u32,
        label: u32,
        words: Made<'a>,
    },
    Recv {
        from: u32,
        label: u32,
        words: Made<'a>,
    },
    Enter {
        what: Joint,
        words: Made<'a>,
    },
    Leave {
        what: Joint,
        words: Made<'a>,
    },
}

fn same_joint(one: Joint, other: Joint) -> bool
    ensures { result ≡ same_joint one other }
{
    match (one, other) {
        (Joint::Barrier, Joint::Barrier) => true,
        (Joint::Barrier, Joint::Labelled(_)) => false,
        (Joint::Labelled(_), Joint::Barrier) => false,
        (Joint::Labelled(one), Joint::Labelled(other)) => one == other,
    }
}

fn is_chosen(action: &Action, at: u32, kernel: u32, branch: usize) -> bool
    ensures { result ≡ is_chosen action.now at kernel branch }
{
    match action {
        Action::Choose {
            rank,
            kernel: named,
            answer,
        } => *rank == at && *named == kernel && *answer as usize == branch,
        Action::Run { .. }
        | Action::Send { .. }
        | Action::Recv { .. }
        | Action::Enter { .. }
        | Action::Leave { .. } => false,
    }
}

fn is_run(action: &Action, at: u32, kernel: u32) -> bool
    ensures { result ≡ is_run action.now at kernel }
{
    match action {
        Action::Run {
            rank,
            kernel: named,
        } => *rank == at && *named == kernel,
        Action::Choose { .. }
        | Action::Send { .. }
        | Action::Recv { .. }
        | Action::Enter { .. }
        | Action::Leave { .. } => false,
    }
}

fn is_sent(action: &Action, at: u32, peer: u32, label: u32, made: &Made) -> bool
    ensures { result ≡ is_sent action.now at peer label made.now }
{
    match action {
        Action::Send {
            rank,
            to,
            label: named,
            words,
        } => *rank == at && *to == peer && *named == label && made.is(words.list()),
        Action::Choose { .. }
        | Action::Run { .. }
        | Action::Recv { .. }
        | Action::Enter { .. }
        | Action::Leave { .. } => false,
    }
}

fn is_received(action: &Action, at: u32, peer: u32, label: u32, made: &Made) -> bool
    ensures { result ≡ is_received action.now at peer label made.now }
{
    match action {
        Action::Recv {
            rank,
            from,
            label: named,
            words,
        } => *rank == at && *from == peer && *named == label && made.is(words.list()),
        Action::Choose { .. }
        | Action::Run { .. }
        | Action::Send { .. }
        | Action::Enter { .. }
        | Action::Leave { .. } => false,
    }
}

fn is_entered(action: &Action, at: u32, joint: Joint, made: &Made) -> bool
    ensures { result ≡ is_entered action.now at joint made.now }
{
    match action {
        Action::Enter { rank, what, words } => {
            *rank == at && same_joint(*what, joint) && made.is(words.list())
        }
        Action::Choose { .. }
        | Action::Run { .. }
        | Action::Send { .. }
        | Action::Recv { .. }
        | Action::Leave { .. } => false,
    }
}

fn is_left(action: &Action, at: u32, joint: Joint, made: &Made) -> bool
    ensures { result ≡ is_left action.now at joint made.now }
{
    match action {
        Action::Leave { rank, what, words } => {
            *rank == at && same_joint(*what, joint) && made.is(words.list())
        }
        Action::Choose { .. }
        | Action::Run { .. }
        | Action::Send { .. }
        | Action::Recv { .. }
        | Action::Enter { .. } => false,
    }
}

impl Deed<'_> {
    /// Whether the action is this deed of the rank.
    pub fn is(&self, at: u32, action: &Action) -> bool
        ensures { result ≡ is_deed action.now at self.now }
    {
        match self {
            Deed::Choose { kernel, branch } => is_chosen(action, at, *kernel, *branch),
            Deed::Run { kernel } => is_run(action, at, *kernel),
            Deed::Send { to, label, words } => is_sent(action, at, *to, *label, words),
            Deed::Recv { from, label, words } => is_received(action, at, *from, *label, words),
            Deed::Enter { what, words } => is_entered(action, at, *what, words),
            Deed::Leave { what, words } => is_left(action, at, *what, words),
        }
    }
}
