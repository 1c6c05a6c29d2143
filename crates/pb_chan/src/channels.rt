ghost use Rattle.std.specs.Prelude.{◌≡◌, ℕ, ◌<◌, ◌+◌, ◌^◌, ◌∷◌, ◌++◌, [], OnOk, OnErr, if◌then◌else◌, nat_eq, ◌&&◌, length, slice_get, Some, None, remove, IfSome};
ghost use Rattle.pb_chan.specs.Lists.{messages, label_of, position, words_in, IsFirstLeft};

use crate::queues::Queues;
use pb_text::{NoMemory, Words};
use std::alloc::Global;
use std::marker::Model;

/// A list of messages for each sender and receiver, all of which are empty at first.
#[derive(Drop)]
pub struct Channels {
    queues: Queues,
    /// The number of words in all messages.
    words: u64,
}

impl Model for Channels {
    ghost use Rattle.std.specs.Prelude.{◌≡◌, List};
    ghost use Rattle.pb_chan.specs.Lists.{Entry, words_in};
    ghost use Rattle.pb_chan.specs.Shown.{shown};

    ghost Value = { List Entry };

    ghost view = { λ a. shown a.queues.map };

    ghost invariant = { λ a. a.words ≡ words_in (shown a.queues.map) };
}

impl Channels {
    /// No messages. Takes no memory.
    pub fn new(alloc: Global) -> Channels
        ensures empty { (p q : ℕ) → messages result p q ≡ [] }
        ensures words { words_in result ≡ 0 }
    {
        Channels {
            queues: Queues::new(alloc),
            words: 0,
        }
    }

    /// Appends a message. After `NoMemory` the lists are as before, and the words are given up.
    pub fn put(
        &mut self,
        alloc: Global,
        from: u32,
        to: u32,
        label: u32,
        words: Words,
    ) -> Result<(), NoMemory>
        requires { words_in self.old + length words < 2 ^ 63 }
        ensures put { OnOk result ((p q : ℕ) → messages self.new p q ≡ (if nat_eq from p && nat_eq to q then messages self.old p q ++ (record { label = label; words = words }) ∷ [] else messages self.old p q)) }
        ensures kept { OnErr result ((p q : ℕ) → messages self.new p q ≡ messages self.old p q) }
        ensures words { OnOk result (words_in self.new ≡ (words_in self.old + length words)) }
        ensures kept_words { OnErr result (words_in self.new ≡ words_in self.old) }
    {
        let count = words.list().len() as u64;
        self.queues.put(alloc, from, to, label, words)?;
        self.words += count;
        Ok(())
    }

    /// The label of the first message, or `None` exactly where the list is empty. Takes no memory.
    pub fn head(&self, from: u32, to: u32) -> Option<u32>
        ensures { result ≡ label_of (messages self.now from to) }
    {
        self.queues.head(from, to)
    }

    /// The least position of a message with this label, or `None` exactly where there is none.
    /// Takes no memory.
    pub fn first(&self, from: u32, to: u32, label: u32) -> Option<usize>
        ensures { result ≡ position label 0 (messages self.now from to) }
    {
        self.queues.first(from, to, label)
    }

    /// Takes the message at a position out, counted from 0. Takes no memory.
    pub fn take(&mut self, from: u32, to: u32, at: usize) -> Words
        requires { at < length (messages self.old from to) }
        ensures taken { (label : ℕ) × (slice_get (messages self.old from to) at ≡ Some (record { label = label; words = result })) }
        ensures left { (p q : ℕ) → messages self.new p q ≡ (if nat_eq from p && nat_eq to q then remove (messages self.old p q) at else messages self.old p q) }
        ensures words { (words_in self.new + length result) ≡ words_in self.old }
    {
        let words = self.queues.take(from, to, at);
        self.words -= words.list().len() as u64;
        words
    }

    /// The number of words in all lists. Takes no memory.
    pub fn in_flight(&self) -> u64
        ensures { result ≡ words_in self.now }
    {
        self.words
    }

    /// The receiver, the sender and the first label of the list with the least receiver, then the
    /// least sender, that isn't empty; `None` exactly where all are empty. Takes no memory.
    pub fn any(&self) -> Option<(u32, u32, u32)>
        ensures some { IfSome result (λ x. IsFirstLeft self.now x.0 x.1 x.2) }
        ensures none { result ≡ None → (p q : ℕ) → messages self.now p q ≡ [] }
    {
        self.queues.any()
    }
}
