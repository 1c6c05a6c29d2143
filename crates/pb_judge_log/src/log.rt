ghost use Rattle.std.specs.Prelude.{◌≡◌, ◌++◌, ◌∷◌, [], OnOk};

use pb_text::{Action, NoMemory};
use std::alloc::Global;
use std::marker::Model;

/// The actions of a log in order, each with the number of its line.
#[derive(Drop)]
pub struct Log {
    entries: Vec<(u32, Action)>,
}

impl Model for Log {
    ghost use Rattle.std.specs.Prelude.{List, ℕ};
    ghost use Rattle.pb_text.specs.declared.action.Action.{Action};

    ghost Value = { List (ℕ × Action) };

    ghost view = { λ l. l.entries.items };
}

impl Log {
    /// No actions. Takes no memory.
    pub fn new(alloc: Global) -> Log
        ensures { result ≡ [] }
    {
        Log {
            entries: Vec::new(alloc),
        }
    }

    /// An action goes last.
    pub fn push(&mut self, line: u32, action: Action) -> Result<(), NoMemory>
        ensures { OnOk result (self.new ≡ self.old ++ (line, action) ∷ []) }
    {
        self.entries.push((line, action))?;
        Ok(())
    }

    /// The actions in order, each behind the number of its line.
    pub fn entries(&self) -> &[(u32, Action)]
        ensures { result.now ≡ self.now }
    {
        &self.entries
    }
}
