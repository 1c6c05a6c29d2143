//! The place of a line and the rule that it keeps, as far as what was read before decides them.

ghost use Rattle.std.specs.Prelude.{◌≡◌, ◌≤◌, ◌^◌, nat_eq};
ghost use Rattle.pb_local.specs.Tree.{program_of};
ghost use Rattle.pb_cread_lines.specs.Items.{item_of};
ghost use Rattle.pb_cread_statements.specs.Reading.{around, chooser_rule, closing_depth, depth_of, free_place, free_rule, inside, last_rule, made_rule, open_braces, picks_rule, place, rule, told_rule};
ghost use Rattle.std.specs.List.{list_any};
ghost use Rattle.pb_cread_statements.specs.Views.{frames_of, kind_of, state_of, told_of, wanted_of};

use crate::brace::{Brace, Part};
use crate::reader::Reader;
use crate::rules::is_in_order;
use crate::told::Told;
use crate::wanted::Wanted;
use crate::{Guards, Item, Local};
use pb_ctree::{
    are_below, are_guards, can_choose, computes, goes_with, is_chooser, is_label, is_offset,
    is_peer, is_wordy,
};

/// Whether one of the open braces is this loop's.
#[tactic(auto, using(crate::proofs::Stacks::pushed))]
fn is_around(stack: &[Brace], id: u32) -> bool
    ensures { result ≡ list_any (nat_eq id) (around (frames_of stack.now)) }
{
    match stack {
        [] => false,
        [rest @ .., last] => match &last.part {
            Part::Loop { id: other } => id == *other || is_around(rest, id),
            Part::First { .. }
            | Part::Other { .. }
            | Part::For { .. }
            | Part::Branch { .. }
            | Part::Last { .. } => is_around(rest, id),
        },
    }
}

/// A last branch: the tests name no branch behind it, and there are at most 64.
#[tactic(auto, using(crate::proofs::Stacks::popped, crate::proofs::Stacks::empty))]
fn keeps_last_rule(stack: &[Brace]) -> bool
    ensures { result ≡ last_rule (frames_of stack.now) }
{
    match stack {
        [] => true,
        [_rest @ .., last] => match &last.part {
            Part::Branch { told, parts } => {
                are_below(&told.tests, parts.len() + 2) && parts.len() + 1 < 64
            }
            Part::First { .. }
            | Part::Other { .. }
            | Part::For { .. }
            | Part::Loop { .. }
            | Part::Last { .. } => true,
        },
    }
}

#[tactic(auto, using(crate::proofs::Stacks::popped, crate::proofs::Stacks::empty))]
fn keeps_chooser_rule(stack: &[Brace], local: &Local, kernel: u32) -> bool
    ensures { result ≡ chooser_rule (program_of local.now) kernel (frames_of stack.now) }
{
    match stack {
        [] => true,
        [_rest @ .., last] => match &last.part {
            Part::First { guards } => match guards.list() {
                [who] => is_chooser(*who) && can_choose(local, kernel),
                _ => true,
            },
            Part::Other { .. }
            | Part::For { .. }
            | Part::Loop { .. }
            | Part::Branch { .. }
            | Part::Last { .. } => true,
        },
    }
}

fn keeps_made_rule(local: &Local, item: &Item) -> bool
    ensures { result ≡ made_rule (program_of local.now) (item_of item.now) }
{
    match item {
        Item::Sends { label, to } => is_label(local, *label) && is_peer(local, *to),
        Item::Reduces { label, op, root } => {
            goes_with(*op, local.payload(*label)) && is_peer(local, *root)
        }
        Item::Allreduces { label, op } => goes_with(*op, local.payload(*label)),
        _ => true,
    }
}

fn keeps_told_rule(local: &Local, item: &Item) -> bool
    ensures { result ≡ told_rule (program_of local.now) (item_of item.now) }
{
    match item {
        Item::IfOpen { guards } | Item::ElseIfOpen { guards } => are_guards(local, guards.list()),
        Item::Probe { from } => is_peer(local, *from),
        Item::TestOpen { label, guards } | Item::ElseTestOpen { label, guards } => {
            is_label(local, *label) && are_guards(local, guards.list())
        }
        _ => true,
    }
}

fn keeps_picks_rule(told: &Told, label: u32, guards: &Guards, item: &Item) -> bool
    ensures { result ≡ picks_rule (told_of told.now) label guards.now (item_of item.now) }
{
    match item {
        Item::Picks { branch } => is_in_order(&told.tests, *branch, label),
        _ => true,
    }
}

impl Reader {
    fn keeps_free_rule(&self, local: &Local, item: &Item) -> bool
        ensures { result ≡ free_rule (program_of local.now) (state_of self.now) (item_of item.now) }
    {
        match item {
            Item::ElseOpen => keeps_last_rule(&self.stack),
            Item::Chooses { kernel } => keeps_chooser_rule(&self.stack, local, *kernel),
            Item::IfOpen { guards } => are_guards(local, guards.list()),
            Item::ForOpen { low, high } => is_offset(low.off) && is_offset(high.off),
            Item::OwnIs { off } => is_offset(*off),
            Item::LoopOpen { id } => *id == self.loops,
            Item::Goto { id } => is_around(&self.stack, *id),
            Item::Makes { label } => is_label(local, *label),
            Item::RootMakes { root, label } => {
                is_label(local, *label) && is_wordy(local, *label) && is_peer(local, *root)
            }
            Item::Sends { label, to } => is_label(local, *label) && is_peer(local, *to),
            Item::Receives { label, from } => is_label(local, *label) && is_peer(local, *from),
            Item::Calls { kernel } => computes(local, *kernel),
            Item::ElsePickOpen { branch } => *branch < 64,
            _ => true,
        }
    }

    /// Whether a line keeps the rule that it has here.
    pub(crate) fn keeps_rule(&self, local: &Local, item: &Item) -> bool
        ensures { result ≡ rule (program_of local.now) (state_of self.now) (item_of item.now) }
    {
        match &self.wanted {
            Wanted::Statement => self.keeps_free_rule(local, item),
            Wanted::Made { .. } => keeps_made_rule(local, item),
            Wanted::Rooted { .. }
            | Wanted::Cast { .. }
            | Wanted::Reduced { .. }
            | Wanted::Allreduced { .. }
            | Wanted::Received { .. } => true,
            Wanted::Testing {
                told,
                label,
                guards,
            } => keeps_picks_rule(told, *label, guards, item),
            Wanted::Chosen { .. }
            | Wanted::Asked { .. }
            | Wanted::Relaying { .. }
            | Wanted::Relayed { .. }
            | Wanted::Sourced { .. }
            | Wanted::Probed { .. }
            | Wanted::Untested { .. }
            | Wanted::Tested { .. }
            | Wanted::Aborting { .. }
            | Wanted::Aborted { .. }
            | Wanted::AllTested { .. }
            | Wanted::Answered { .. } => keeps_told_rule(local, item),
        }
    }

    /// The depth of the statements that are read.
    #[tactic(auto, using(crate::proofs::Stacks::depth_is))]
    fn depth(&self) -> usize
        ensures depth { result ≡ depth_of (state_of self.now).stack }
        ensures most { result ≤ 2 ^ 63 }
    {
        self.stack.len() + 1
    }

    #[tactic(auto, using(crate::proofs::Stacks::closing_is))]
    fn closing_depth(&self) -> usize
        ensures { result ≡ closing_depth (state_of self.now).stack }
    {
        self.stack.len()
    }

    fn free_place(&self, item: &Item) -> usize
        ensures { result ≡ free_place (state_of self.now).stack (item_of item.now) }
    {
        match item {
            Item::Close | Item::ElseOpen | Item::ElsePickOpen { .. } => self.closing_depth(),
            _ => self.depth(),
        }
    }

    /// The depth that a line has here.
    pub(crate) fn place(&self, item: &Item) -> usize
        ensures { result ≡ place (state_of self.now) (item_of item.now) }
    {
        match &self.wanted {
            Wanted::Statement => self.free_place(item),
            Wanted::Made { .. }
            | Wanted::Rooted { .. }
            | Wanted::Cast { .. }
            | Wanted::Reduced { .. }
            | Wanted::Allreduced { .. }
            | Wanted::Received { .. }
            | Wanted::Chosen { .. }
            | Wanted::AllTested { .. }
            | Wanted::Answered { .. } => self.depth(),
            Wanted::Asked { .. }
            | Wanted::Relayed { .. }
            | Wanted::Probed { .. }
            | Wanted::Untested { .. }
            | Wanted::Tested { .. }
            | Wanted::Aborted { .. } => self.depth() + 1,
            Wanted::Relaying { .. }
            | Wanted::Sourced { .. }
            | Wanted::Testing { .. }
            | Wanted::Aborting { .. } => self.depth() + 2,
        }
    }

    fn inside(&self) -> usize
        ensures inside { result ≡ inside (state_of self.now).wanted }
        ensures most { result ≤ 2 }
    {
        match &self.wanted {
            Wanted::Statement
            | Wanted::Made { .. }
            | Wanted::Rooted { .. }
            | Wanted::Cast { .. }
            | Wanted::Reduced { .. }
            | Wanted::Allreduced { .. }
            | Wanted::Received { .. }
            | Wanted::Answered { .. } => 0,
            Wanted::Chosen { .. }
            | Wanted::Asked { .. }
            | Wanted::Untested { .. }
            | Wanted::AllTested { .. } => 1,
            Wanted::Relaying { .. }
            | Wanted::Relayed { .. }
            | Wanted::Sourced { .. }
            | Wanted::Probed { .. }
            | Wanted::Testing { .. }
            | Wanted::Tested { .. }
            | Wanted::Aborting { .. }
            | Wanted::Aborted { .. } => 2,
        }
    }

    /// How many braces are open, main's own with them.
    pub fn open(&self) -> usize
        ensures { result ≡ open_braces (state_of self.now) }
    {
        self.depth() + self.inside()
    }
}
