ghost use Rattle.std.specs.Prelude.{◌≡◌, ℕ, ◌<◌, ◌≤◌, ◌+◌, true, IfOk, OnOk, OnErr, [], length, map, option_map, slice_get};
ghost use Rattle.pb_sim_collectives.specs.Calls.{collective_of};
ghost use Rattle.pb_sim_collectives.specs.Joined.{words_of, number, agrees, has_entered, all_entered, entered, IsJoined};
ghost use Rattle.pb_sim_collectives.specs.Outcomes.{words_at, outcome_of};
ghost use Rattle.pb_sim_collectives.specs.Lists.{replicated};

use crate::call::Call;
use crate::lists::Lists;
use crate::results::Results;
use crate::rounds::Rounds;
use pb_syntax::Payload;
use pb_text::{NoMemory, Words};
use std::alloc::Global;
use std::marker::Model;

/// The collectives that ranks have entered, with their words. A rank's k-th collective belongs to the k-th of each other. Once
/// all ranks have entered one, each has left those before it, and their words take no more memory.
#[derive(Drop)]
pub struct Joins {
    rounds: Rounds,
    lists: Lists,
    /// What all get at the last one that all have entered.
    results: Results,
    total: u32,
}

impl Model for Joins {
    ghost use Rattle.std.specs.Prelude.{◌≡◌, ◌≤◌, ◌<◌, ℕ, length};
    ghost use Rattle.pb_sim_collectives.specs.Joined.{Joined};
    ghost use Rattle.pb_sim_collectives.specs.Lists.{items_of, AreKept};
    ghost use Rattle.pb_sim_collectives.specs.Results.{AreResults};
    ghost use Rattle.pb_sim_collectives.specs.Seen.{shown, IsSeen};

    ghost Value = { Joined };

    ghost view = { λ a. shown a.rounds a.lists };

    ghost invariant = { λ a. IsSeen a.rounds a.lists a.total × AreResults (items_of a.lists) a.results.last × AreKept a.lists };
}

impl Joins {
    /// Nothing was entered, by so many ranks.
    pub fn new(alloc: Global, total: u32) -> Result<Joins, NoMemory>
        ensures calls { IfOk result (λ x. x.calls ≡ []) }
        ensures words { IfOk result (λ x. x.words ≡ replicated total) }
    {
        let lists = Lists::new(alloc, total)?;
        let rounds = Rounds {
            list: Vec::new(alloc),
        };
        let results = Results { last: None };
        Ok(Joins {
            rounds,
            lists,
            results,
            total,
        })
    }

    /// How many collectives the rank has entered. Takes no memory.
    pub fn number(&self, rank: u32) -> usize
        ensures { result ≡ number self.now rank }
    {
        self.lists.number(rank)
    }

    /// The collective with this number, counted from 0, if some rank has entered it. Takes no memory.
    pub fn call(&self, k: usize) -> Option<Call>
        ensures { result ≡ slice_get self.now.calls k }
    {
        self.rounds.call(k)
    }

    /// Whether the rank may enter this collective: nobody has entered another as the one with that number. Takes no memory.
    pub fn agrees(&self, rank: u32, call: Call) -> bool
        ensures { result ≡ agrees self.now rank (collective_of call) }
    {
        match self.rounds.call(self.lists.number(rank)) {
            None => true,
            Some(other) => other.is_same(call),
        }
    }

    /// Whether the rank has entered its collective with this number. Takes no memory.
    pub fn has_entered(&self, rank: u32, k: usize) -> bool
        ensures { result ≡ has_entered self.now rank k }
    {
        k < self.lists.number(rank)
    }

    /// Whether all ranks have entered their collective with this number. Takes no memory.
    pub fn all_entered(&self, k: usize) -> bool
        ensures { result ≡ all_entered self.now k }
    {
        self.rounds.came(k) == self.total as usize
    }

    /// The rank enters this collective, whose label carries this, with these words. After `NoMemory` all is as before, and
    /// the words are given up. The last entry combines the words of all, and ends what is kept of the collective before.
    pub fn enter(
        &mut self,
        alloc: Global,
        payload: Payload,
        rank: u32,
        call: Call,
        words: Words,
    ) -> Result<(), NoMemory>
        requires { rank < length self.old.words }
        ensures ok { OnOk result (self.new ≡ entered self.old rank call words) }
        ensures err { OnErr result (self.new ≡ self.old) }
    {
        let k = self.lists.number(rank);
        self.rounds.reserve()?;
        self.lists.push(rank, words)?;
        self.rounds.count(k, call);
        self.gather(alloc, payload, call, rank);
        Ok(())
    }

    /// Combines the words of all, where all have entered what this rank has entered last. The words of the collectives before
    /// are forgotten then.
    fn gather(&mut self, alloc: Global, payload: Payload, call: Call, rank: u32)
        requires { 0 < number self.old rank }
        ensures { self.new ≡ self.old }
    {
        let number = self.number(rank);
        let k = number - 1;
        if self.all_entered(k) {
            self.results.add(alloc, &self.lists, payload, call, k);
            self.lists.forget(k);
        }
    }

    /// The words with which a rank leaves its last collective, which has this number, by its label's payload, where the
    /// entries that it needs were made. Changes nothing.
    pub fn outcome(
        &self,
        alloc: Global,
        payload: Payload,
        call: Call,
        rank: u32,
        k: usize,
    ) -> Result<Words, NoMemory>
        requires { number self.now rank ≡ k + 1 }
        ensures { IfOk result (λ w. w ≡ outcome_of payload (length self.now.words) call rank (words_at self.now k)) }
    {
        self.results
            .outcome(alloc, &self.lists, payload, call, rank, k)
    }
}
