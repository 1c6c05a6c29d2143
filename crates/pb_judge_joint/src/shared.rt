//! The words with which ranks leave a collective.

ghost use Rattle.std.specs.Prelude.{◌≡◌, ◌+◌, ℕ, List, [], cond, nat_lt, IfOk};
ghost use Rattle.pb_core_language.specs.Collectives.{combined_of};
ghost use Rattle.pb_core_language.specs.FlatOf.{operation_of};
ghost use Rattle.pb_judge_steps.specs.Made.{list_of};
ghost use Rattle.pb_judge_joint.specs.Setting.{collective_of, operate_with};
ghost use Rattle.pb_judge_joint.specs.Joined.{joined, gets};

use crate::combine::word_by_word;
use crate::setting::{Collective, Setting};
use pb_core_language::Op;
use pb_judge_steps::Made;
use pb_text::NoMemory;
use std::alloc::Global;

/// The words that are shared, with those with which this rank entered behind all lower ones.
pub fn gather(
    alloc: Global,
    setting: &Setting,
    joint: &Collective,
    rank: u32,
    all: Vec<u32>,
    words: &Made,
) -> Result<Vec<u32>, NoMemory>
    ensures { IfOk result (λ v. (lists : ℕ → List ℕ) → all.items ≡ joined (operate_with setting.now.labels.now) (collective_of joint.now) rank lists → list_of words.now ≡ lists rank → v.items ≡ joined (operate_with setting.now.labels.now) (collective_of joint.now) (rank + 1) lists) }
{
    match joint {
        Collective::Barrier => Ok(all),
        Collective::Broadcast { root, .. } => broadcast(alloc, *root, rank, all, words),
        Collective::Reduce { label, op, .. } => {
            combined(alloc, setting, *label, *op, rank, all, words)
        }
        Collective::Allreduce { label, op } => {
            combined(alloc, setting, *label, *op, rank, all, words)
        }
    }
}

/// The root's words, once it has entered.
fn broadcast(
    alloc: Global,
    root: u32,
    rank: u32,
    all: Vec<u32>,
    words: &Made,
) -> Result<Vec<u32>, NoMemory>
    ensures { IfOk result (λ v. (lists : ℕ → List ℕ) → all.items ≡ cond (nat_lt root rank) (lists root) [] → list_of words.now ≡ lists rank → v.items ≡ cond (nat_lt root (rank + 1)) (lists root) []) }
{
    if rank == root {
        copied(alloc, words)
    } else {
        Ok(all)
    }
}

/// The words combined with those of this rank.
fn combined(
    alloc: Global,
    setting: &Setting,
    label: u32,
    op: Op,
    rank: u32,
    all: Vec<u32>,
    words: &Made,
) -> Result<Vec<u32>, NoMemory>
    ensures { IfOk result (λ v. (lists : ℕ → List ℕ) → all.items ≡ combined_of (operate_with setting.now.labels.now (operation_of op) label) rank lists → list_of words.now ≡ lists rank → v.items ≡ combined_of (operate_with setting.now.labels.now (operation_of op) label) (rank + 1) lists) }
{
    let own = copied(alloc, words)?;
    if rank == 0 {
        return Ok(own);
    }
    word_by_word(alloc, &setting.payload(label), op, &all, &own)
}

/// Whether this rank leaves with the words that are shared.
pub fn gets(joint: &Collective, rank: u32) -> bool
    ensures { result ≡ gets (collective_of joint.now) rank }
{
    match joint {
        Collective::Barrier => false,
        Collective::Broadcast { .. } => true,
        Collective::Reduce { root, .. } => rank == *root,
        Collective::Allreduce { .. } => true,
    }
}

/// The words as a list of their own.
fn copied(alloc: Global, words: &Made) -> Result<Vec<u32>, NoMemory>
    ensures { IfOk result (λ v. v.items ≡ list_of words.now) }
{
    match words {
        Made::Given(list) => Ok(list.iter().copied().collect(alloc)?),
        Made::Zeros(count) => Ok(vec![in alloc; 0; *count as usize]?),
    }
}
