//! The label of a line that doesn't spell it.

ghost use Rattle.std.specs.Prelude.{◌≡◌, cond};
ghost use Rattle.pb_local.specs.Tree.{program_of};
ghost use Rattle.pb_cread_lines.specs.Items.{item_of};
ghost use Rattle.pb_cread_statements.specs.Labels.{is_same_payload, label_for, made_relabelled, relabelled, root_relabelled};
ghost use Rattle.pb_cread_statements.specs.Views.{state_of};

use crate::reader::Reader;
use crate::wanted::Wanted;
use crate::{Item, Local, Payload};

fn is_same_payload(a: Payload, b: Payload) -> bool
    ensures { result ≡ is_same_payload a b }
{
    match (a, b) {
        (Payload::Unit, Payload::Unit) => true,
        (Payload::Int32(a), Payload::Int32(b)) => a == b,
        (Payload::Uint32(a), Payload::Uint32(b)) => a == b,
        (Payload::Unit | Payload::Int32(_) | Payload::Uint32(_), _) => false,
    }
}

fn label_for(local: &Local, same: u32, label: u32) -> u32
    ensures { result ≡ label_for (program_of local.now) same label }
{
    if is_same_payload(local.payload(label), local.payload(same)) {
        same
    } else {
        label
    }
}

fn behind_words(local: &Local, same: u32, item: Item) -> Item
    ensures { item_of result ≡ made_relabelled (program_of local.now) same (item_of item) }
{
    match item {
        Item::Reduces { label, op, root } => {
            let label = label_for(local, same, label);
            Item::Reduces { label, op, root }
        }
        Item::Allreduces { label, op } => {
            let label = label_for(local, same, label);
            Item::Allreduces { label, op }
        }
        other => other,
    }
}

fn behind_root_words(local: &Local, same: u32, item: Item) -> Item
    ensures { item_of result ≡ root_relabelled (program_of local.now) same (item_of item) }
{
    match item {
        Item::Broadcasts { label, root } => {
            let label = label_for(local, same, label);
            Item::Broadcasts { label, root }
        }
        other => other,
    }
}

impl Reader {
    /// The line with the label of the statement that it belongs to, where that label's payload is spelled in the same way.
    /// A broadcast, a reduction and a reduction for all don't spell their labels; all other lines stay as they are. Of
    /// `local` only the tables count.
    pub fn relabelled(&self, local: &Local, item: Item) -> Item
        ensures { item_of result ≡ relabelled (program_of local.now) (state_of self.now).wanted (item_of item) }
    {
        match &self.wanted {
            Wanted::Made { label } => behind_words(local, *label, item),
            Wanted::Rooted { label, .. } => behind_root_words(local, *label, item),
            Wanted::Statement
            | Wanted::Cast { .. }
            | Wanted::Reduced { .. }
            | Wanted::Allreduced { .. }
            | Wanted::Received { .. }
            | Wanted::Chosen { .. }
            | Wanted::Asked { .. }
            | Wanted::Relaying { .. }
            | Wanted::Relayed { .. }
            | Wanted::Sourced { .. }
            | Wanted::Probed { .. }
            | Wanted::Untested { .. }
            | Wanted::Testing { .. }
            | Wanted::Tested { .. }
            | Wanted::Aborting { .. }
            | Wanted::Aborted { .. }
            | Wanted::AllTested { .. }
            | Wanted::Answered { .. } => item,
        }
    }
}
