ghost use Rattle.std.specs.Prelude.{◌≡◌, ◌≤◌, ◌<◌, OnOk, OnErr, [], ◌∷◌, ◌++◌, length, get_or};

use pb_text::{NoMemory, Words};
use std::alloc::Global;
use std::collections::VecDeque;
use std::marker::Model;
use std::snapshot::Snapshot;

/// The words with which a rank entered its collectives, in order. Those of the first ones may be forgotten: then they take no
/// memory, and clauses alone still speak of them.
#[derive(Drop)]
pub struct Window {
    /// The words of all of them, for clauses. It has a length and no bytes.
    said: Vec<Snapshot<Words>>,
    /// The words of those that aren't forgotten.
    kept: VecDeque<Words>,
    /// How many are forgotten.
    from: usize,
}

impl Model for Window {
    ghost use Rattle.std.specs.Prelude.{◌≡◌, ◌≤◌, drop, length, map};
    ghost use Rattle.pb_sim_collectives.specs.Past.{Past};

    ghost Value = { Past };

    ghost view = { λ w. record { all = map (λ x. x.value) w.said.items; from = w.from } };

    ghost invariant = { λ w. (w.from ≤ length (map (λ x. x.value) w.said.items)) × (w.kept.items ≡ drop w.from (map (λ x. x.value) w.said.items)) };
}

impl Window {
    /// Nothing was entered. Takes no memory.
    pub fn new(alloc: Global) -> Window
        ensures all { result.all ≡ [] }
        ensures from { result.from ≡ 0 }
    {
        Window {
            said: Vec::new(alloc),
            kept: VecDeque::new(alloc),
            from: 0,
        }
    }

    /// How many collectives the rank has entered.
    pub fn number(&self) -> usize
        ensures { result ≡ length self.now.all }
    {
        self.said.len()
    }

    /// The words at the collective with this number, which isn't forgotten; none where the rank entered no such one.
    pub fn words(&self, k: usize) -> &[u32]
        requires { self.now.from ≤ k }
        ensures { result.now ≡ get_or self.now.all k [] }
    {
        match self.kept.get(k - self.from) {
            None => &[],
            Some(words) => words.list(),
        }
    }

    /// The words at the next collective. After `NoMemory` all is as before, and the words are given up.
    pub fn push(&mut self, words: Words) -> Result<(), NoMemory>
        ensures ok { OnOk result (self.new.all ≡ self.old.all ++ words ∷ []) }
        ensures err { OnErr result (self.new.all ≡ self.old.all) }
        ensures from { self.new.from ≡ self.old.from }
    {
        self.said.reserve(1)?;
        let said = Snapshot::of(&words);
        let kept = self.kept.push_back(words).is_ok();
        if !kept {
            return Err(NoMemory);
        }
        self.said.push(said).unwrap();
        Ok(())
    }

    /// The words of the collectives below this number are forgotten from now on.
    pub fn forget(&mut self, k: usize)
        requires order { self.old.from ≤ k }
        requires there { k ≤ length self.old.all }
        ensures all { self.new.all ≡ self.old.all }
        ensures from { self.new.from ≡ k }
    {
        while self.from < k {
            let _ = self.kept.pop_front();
            self.from += 1;
        }
    }
}
