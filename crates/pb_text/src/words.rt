ghost use Rattle.std.specs.Prelude.{◌≡◌, List, ℕ};

use std::marker::Model;

/// The words of a message, in order.
#[derive(Drop)]
pub struct Words {
    list: Vec<u32>,
}

impl Model for Words {
    ghost Value = { List ℕ };

    ghost view = { λ w. w.list.items };
}

impl Words {
    /// The words of the vector. Takes no memory.
    pub fn of(list: Vec<u32>) -> Words
        ensures { result ≡ list.items }
    {
        Words { list }
    }

    /// The words in order.
    pub fn list(&self) -> &[u32]
        ensures { result.now ≡ self.now }
    {
        &self.list
    }
}
