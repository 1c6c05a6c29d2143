ghost use Rattle.std.specs.Prelude.{◌≡◌, ◌<◌, ℕ, List, [], length, get_or, IfOk, IfSome};
ghost use Rattle.pb_local.specs.Collectives.{operation_of, combine, combined_of};
ghost use Rattle.pb_sim_collectives.specs.Lists.{items_of, IsKept, words_in};
ghost use Rattle.pb_sim_collectives.specs.Outcomes.{outcome_of};
ghost use Rattle.pb_sim_collectives.specs.Results.{AreResults};

use crate::call::Call;
use crate::lists::Lists;
use pb_syntax::{Op, Payload};
use pb_text::{NoMemory, Words};
use std::alloc::Global;

/// The words that all ranks get at the collective with this number, and how theirs were combined.
#[derive(Drop)]
pub struct Combination {
    pub number: usize,
    pub payload: Payload,
    pub op: Op,
    pub words: Vec<u32>,
}

/// What all ranks get at the last collective that all have entered, if words are combined there.
#[derive(Drop)]
pub struct Results {
    pub last: Option<Combination>,
}

impl Results {
    /// The words of all ranks at the collective with this number, where they are there and were combined in this way.
    fn found(&self, payload: Payload, op: Op, k: usize) -> Option<&[u32]>
        ensures { IfSome result (λ words. (lists : List (List (List ℕ))) → AreResults lists self.now.last → words.now ≡ combined_of (combine payload (operation_of op)) (length lists) (words_in lists k)) }
    {
        match &self.last {
            None => None,
            Some(combination) => combination.in_way(payload, op, k),
        }
    }

    /// The words with which a rank leaves the collective with this number, whose words aren't forgotten, by its label's
    /// payload.
    pub fn outcome(
        &self,
        alloc: Global,
        lists: &Lists,
        payload: Payload,
        call: Call,
        rank: u32,
        k: usize,
    ) -> Result<Words, NoMemory>
        requires right { AreResults (items_of lists.now) self.now.last }
        requires kept { IsKept lists.now k }
        ensures { IfOk result (λ w. w ≡ outcome_of payload (length (items_of lists.now)) call rank (words_in (items_of lists.now) k)) }
    {
        match call {
            Call::Barrier => Ok(Words::of(Vec::new(alloc))),
            Call::Broadcast { root, .. } => Ok(Words::of(lists.copied(alloc, root, k)?)),
            Call::Reduce { op, root, .. } => {
                if rank == root {
                    Ok(Words::of(self.combined(alloc, lists, payload, op, k)?))
                } else {
                    Ok(Words::of(Vec::new(alloc)))
                }
            }
            Call::Allreduce { op, .. } => {
                Ok(Words::of(self.combined(alloc, lists, payload, op, k)?))
            }
        }
    }

    /// The words of all ranks at the collective with this number, combined from rank 0 on.
    fn combined(
        &self,
        alloc: Global,
        lists: &Lists,
        payload: Payload,
        op: Op,
        k: usize,
    ) -> Result<Vec<u32>, NoMemory>
        requires right { AreResults (items_of lists.now) self.now.last }
        requires kept { IsKept lists.now k }
        ensures { IfOk result (λ v. v.items ≡ combined_of (combine payload (operation_of op)) (length (items_of lists.now)) (words_in (items_of lists.now) k)) }
    {
        match self.found(payload, op, k) {
            Some(words) => Ok(words.to_vec(alloc)?),
            None => lists.combined(alloc, payload, op, k),
        }
    }

    /// All ranks have entered the collective with this number, whose words aren't forgotten. What they get is kept until the
    /// next one, where there is memory for it.
    pub fn add(&mut self, alloc: Global, lists: &Lists, payload: Payload, call: Call, k: usize)
        requires closed { (r : ℕ) → r < length (items_of lists.now) → k < length (get_or (items_of lists.now) r []) }
        requires kept { IsKept lists.now k }
        ensures { AreResults (items_of lists.now) self.new.last }
    {
        self.last = result_of(alloc, lists, payload, call, k);
    }
}

impl Combination {
    /// The words, where they are those of this number and were combined in this way.
    fn in_way(&self, payload: Payload, op: Op, k: usize) -> Option<&[u32]>
        ensures { IfSome result (λ words. (words.now ≡ self.now.words.items) × (self.now.payload ≡ payload) × (self.now.op ≡ op) × (self.now.number ≡ k)) }
    {
        if self.payload == payload && self.op == op && self.number == k {
            Some(&self.words)
        } else {
            None
        }
    }
}

/// What all ranks get, where the collective combines words and there is memory for them.
fn result_of(
    alloc: Global,
    lists: &Lists,
    payload: Payload,
    call: Call,
    k: usize,
) -> Option<Combination>
    requires closed { (r : ℕ) → r < length (items_of lists.now) → k < length (get_or (items_of lists.now) r []) }
    requires kept { IsKept lists.now k }
    ensures { AreResults (items_of lists.now) result }
{
    let op = match call {
        Call::Barrier => return None,
        Call::Broadcast { .. } => return None,
        Call::Reduce { op, .. } => op,
        Call::Allreduce { op, .. } => op,
    };
    match lists.combined(alloc, payload, op, k) {
        Ok(words) => Some(Combination {
            number: k,
            payload,
            op,
            words,
        }),
        Err(_) => None,
    }
}
