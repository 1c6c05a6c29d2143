ghost use Rattle.std.specs.Prelude.{◌≡◌, ℕ, ◌<◌, ◌+◌, ◌∷◌, ◌++◌, [], OnOk, OnErr, if◌then◌else◌, nat_eq, ◌&&◌, length, slice_get, Some, None, remove, IfSome};
ghost use Rattle.pb_chan.specs.Lists.{messages, label_of, position, words_in, IsFirstLeft};
ghost use Rattle.pb_chan.specs.Shown.{shown, list_at, left_of, lesser};

use crate::message::Message;
use pb_text::{NoMemory, Words};
use std::alloc::Global;
use std::collections::{HashMap, VecDeque};

/// A queue of messages for each sender and receiver that had one.
#[derive(Drop)]
pub struct Queues {
    /// By sender and receiver.
    pub map: HashMap<(u32, u32), VecDeque<Message>>,
}

impl Queues {
    /// No messages.
    pub fn new(alloc: Global) -> Queues
        ensures empty { shown result.map ≡ [] }
    {
        Queues {
            map: HashMap::new(alloc),
        }
    }

    /// Appends a message. After `NoMemory` the lists are as before, and the words are given up.
    pub fn put(
        &mut self,
        alloc: Global,
        from: u32,
        to: u32,
        label: u32,
        words: Words,
    ) -> Result<(), NoMemory>
        ensures put { OnOk result ((p q : ℕ) → messages (shown self.new.map) p q ≡ (if nat_eq from p && nat_eq to q then messages (shown self.old.map) p q ++ (record { label = label; words = words }) ∷ [] else messages (shown self.old.map) p q)) }
        ensures words { OnOk result (words_in (shown self.new.map) ≡ (words_in (shown self.old.map) + length words)) }
        ensures kept_words { OnErr result (words_in (shown self.new.map) ≡ words_in (shown self.old.map)) }
        ensures kept { OnErr result ((p q : ℕ) → messages (shown self.new.map) p q ≡ messages (shown self.old.map) p q) }
    {
        let message = Message { label, words };
        match self.map.get_mut(&(from, to)) {
            Some(queue) => {
                queue.push_back(message)?;
            }
            None => {
                let mut queue = VecDeque::new(alloc);
                queue.push_back(message)?;
                self.map.insert((from, to), queue)?;
            }
        }
        Ok(())
    }

    /// The label of the first message, or `None` exactly where the list is empty.
    pub fn head(&self, from: u32, to: u32) -> Option<u32>
        ensures { result ≡ label_of (list_at self.now.map from to) }
    {
        let queue = self.map.get(&(from, to))?;
        let message = queue.front()?;
        Some(message.label)
    }

    /// The least position of a message with this label, or `None` exactly where there is none.
    pub fn first(&self, from: u32, to: u32, label: u32) -> Option<usize>
        ensures { result ≡ position label 0 (list_at self.now.map from to) }
    {
        first_in(self.map.get(&(from, to))?, label)
    }

    /// Takes the message at a position out.
    pub fn take(&mut self, from: u32, to: u32, at: usize) -> Words
        requires { at < length (list_at self.old.map from to) }
        ensures taken { (label : ℕ) × (slice_get (list_at self.old.map from to) at ≡ Some (record { label = label; words = result })) }
        ensures words { (words_in (shown self.new.map) + length result) ≡ words_in (shown self.old.map) }
        ensures left { (p q : ℕ) → messages (shown self.new.map) p q ≡ (if nat_eq from p && nat_eq to q then remove (messages (shown self.old.map) p q) at else messages (shown self.old.map) p q) }
    {
        let queue = self.map.get_mut(&(from, to)).unwrap();
        let message = queue.remove(at).unwrap();
        message.words
    }

    /// The receiver, the sender and the first label of the list with the least receiver, then
    /// sender, that isn't empty; `None` exactly where all are empty.
    pub fn any(&self) -> Option<(u32, u32, u32)>
        ensures some { IfSome result (λ x. IsFirstLeft (shown self.now.map) x.0 x.1 x.2) }
        ensures none { result ≡ None → (p q : ℕ) → messages (shown self.now.map) p q ≡ [] }
    {
        let mut least = None;
        for (pair, queue) in self.map.iter() {
            least = lesser(least, left_at(pair, queue));
        }
        least
    }
}

/// The receiver, the sender and the first label, if there is a message.
fn left_at(pair: &(u32, u32), queue: &VecDeque<Message>) -> Option<(u32, u32, u32)>
    ensures { result ≡ left_of pair.now queue.now.items }
{
    let message = queue.front()?;
    Some((pair.1, pair.0, message.label))
}

fn lesser(one: Option<(u32, u32, u32)>, other: Option<(u32, u32, u32)>) -> Option<(u32, u32, u32)>
    ensures { result ≡ lesser one other }
{
    match (one, other) {
        (None, other) => other,
        (one, None) => one,
        (Some(x), Some(y)) => {
            if y.0 < x.0 || (y.0 == x.0 && y.1 < x.1) {
                Some(y)
            } else {
                Some(x)
            }
        }
    }
}

#[tactic(auto, using(crate::proofs::Positions::found, crate::proofs::Positions::passed, crate::proofs::Positions::ended))]
fn first_in(queue: &VecDeque<Message>, label: u32) -> Option<usize>
    ensures { result ≡ position label 0 queue.now.items }
{
    let mut at = 0usize;
    while at < queue.len() {
        if let Some(message) = queue.get(at) {
            if message.label == label {
                return Some(at);
            }
        }
        at += 1;
    }
    None
}
