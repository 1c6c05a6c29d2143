ghost use Rattle.std.specs.Prelude.{◌≡◌};
ghost use Rattle.pb_local.specs.Tree.{program_of};
ghost use Rattle.pb_local.specs.Tables.{label_at};
ghost use Rattle.pb_local.specs.Collectives.{word_count, words_of, weight};
ghost use Rattle.pb_sim_collectives.specs.Calls.{collective_of};

use pb_machine::CTree;
use pb_sim_collectives::{Call, Payload};

/// What a label carries.
pub fn payload(tree: &CTree, label: u32) -> Payload
    ensures { result ≡ (label_at (program_of tree.now.local) label).payload }
{
    match tree.local.labels.get(label as usize) {
        None => Payload::Unit,
        Some(row) => row.payload,
    }
}

fn word_count(payload: Payload) -> u32
    ensures { result ≡ word_count payload }
{
    match payload {
        Payload::Unit => 0,
        Payload::Int32(count) => count,
        Payload::Uint32(count) => count,
    }
}

/// How many words a message with the label has.
pub fn words_of(tree: &CTree, n: i64, label: u32) -> u32
    ensures { result ≡ words_of (program_of tree.now.local) n label }
{
    word_count(payload(tree, label))
}

/// With how many words a rank enters a collective.
pub fn weight(tree: &CTree, n: i64, rank: u32, call: Call) -> u32
    ensures { result ≡ weight (program_of tree.now.local) n (collective_of call) rank }
{
    match call {
        Call::Barrier => 0,
        Call::Broadcast { label, root } => {
            if rank == root {
                words_of(tree, n, label)
            } else {
                0
            }
        }
        Call::Reduce { label, .. } => words_of(tree, n, label),
        Call::Allreduce { label, .. } => words_of(tree, n, label),
    }
}
