ghost use Rattle.std.specs.Prelude.{◌≡◌, ◌+◌, IfOk, OnOk, Some, None, cond, map, option_map};
ghost use Rattle.pb_local.specs.Tree.{plain, program_of};
ghost use Rattle.pb_cread_lines.specs.Items.{item_of};
ghost use Rattle.pb_cread_statements.specs.Reading.{begin, ended, finished, later, nothing_read, state, step, turned, whole};
ghost use Rattle.pb_cread_statements.specs.Views.{Went, kind_of, state_of, wanted_of};

use crate::brace::{Brace, Part};
use crate::wanted::Wanted;
use crate::{Item, Local, NoMemory, Stmt};
use std::alloc::Global;
use std::mem;

/// Reads the statements of main, one line after the other.
#[derive(Drop)]
pub struct Reader {
    pub(crate) wanted: Wanted,
    pub(crate) done: Vec<Stmt>,
    pub(crate) stack: Vec<Brace>,
    pub(crate) loops: u32,
    pub(crate) begun: u32,
}

impl Reader {
    /// Nothing is read yet.
    pub fn new(alloc: Global) -> Reader
        ensures { state_of result ≡ nothing_read }
    {
        Reader {
            wanted: Wanted::Statement,
            done: Vec::new(alloc),
            stack: Vec::new(alloc),
            loops: 0,
            begun: 0,
        }
    }

    /// How many statements have begun.
    pub fn statements(&self) -> u32
        ensures { result ≡ (state_of self.now).begun }
    {
        self.begun
    }

    /// Takes the next line, and says whether it goes on from the lines before. Of `local` only the tables count. After
    /// `false` or an error the reader is of no further use. More than 4,294,967,295 statements are no memory.
    pub fn take(
        &mut self,
        alloc: Global,
        local: &Local,
        depth: u32,
        item: Item,
    ) -> Result<bool, NoMemory>
        ensures { IfOk result (λ went. Went (program_of local.now) (state_of self.old) depth (item_of item) went (state_of self.new)) }
    {
        if depth as usize != self.place(&item) || !self.keeps_rule(local, &item) {
            return Ok(false);
        }
        self.step(alloc, local, item)
    }

    /// The statements that were read, where nothing is open or half spelled.
    pub fn finish(self) -> Option<Vec<Stmt>>
        ensures { option_map (λ v. map plain v.items) result ≡ finished (state_of self) }
    {
        if !self.stack.is_empty() {
            return None;
        }
        match self.wanted {
            Wanted::Statement => Some(self.done),
            _ => None,
        }
    }

    fn step(&mut self, alloc: Global, local: &Local, item: Item) -> Result<bool, NoMemory>
        ensures { IfOk result (λ went. step (program_of local.now) (state_of self.old) (item_of item) ≡ cond went (Some (state_of self.new)) None) }
    {
        match mem::replace(&mut self.wanted, Wanted::Statement) {
            Wanted::Statement => self.free(alloc, local, item),
            Wanted::Made { label } => self.behind_make(label, item),
            Wanted::Rooted { label, root } => Ok(self.behind_root(label, root, item)),
            Wanted::Cast { label, root } => {
                self.take_sent(label, Stmt::Broadcast { label, root }, item)
            }
            Wanted::Reduced { label, op, root } => self.root_takes(label, op, root, item),
            Wanted::Allreduced { label, op } => {
                self.take_received(label, Stmt::Allreduce { label, op }, item)
            }
            Wanted::Received { label, from } => {
                self.take_received(label, Stmt::Recv { label, from }, item)
            }
            Wanted::Chosen { who, kernel } => Ok(self.behind_call(alloc, who, kernel, item)),
            Wanted::Asked { who, kernel } => Ok(self.behind_ask(alloc, who, kernel, item)),
            Wanted::Relaying {
                who,
                kernel,
                relays,
                guards,
            } => self.probe_relay(who, kernel, relays, guards, item),
            Wanted::Relayed {
                who,
                kernel,
                relays,
            } => Ok(self.behind_relay(who, kernel, relays, item)),
            Wanted::Sourced {
                who,
                kernel,
                relays,
            } => Ok(self.probe_source(who, kernel, relays, item)),
            Wanted::Probed {
                who,
                kernel,
                relays,
                from,
            } => Ok(self.behind_probes(who, kernel, relays, from, item)),
            Wanted::Untested {
                who,
                kernel,
                relays,
                from,
            } => Ok(self.first_test(alloc, who, kernel, relays, from, item)),
            Wanted::Testing {
                told,
                label,
                guards,
            } => self.pick_branch(told, label, guards, item),
            Wanted::Tested { told } => Ok(self.behind_test(told, item)),
            Wanted::Aborting { told } => Ok(self.abort(told, item)),
            Wanted::Aborted { told } => Ok(self.behind_abort(told, item)),
            Wanted::AllTested { told } => Ok(self.behind_tests(told, item)),
            Wanted::Answered { told } => self.first_branch(alloc, told, item),
        }
    }

    pub(crate) fn want(&mut self, wanted: Wanted)
        ensures { state_of self.new ≡ later (state_of self.old) (wanted_of wanted) }
    {
        self.wanted = wanted;
    }

    /// Ends a statement.
    pub(crate) fn end(&mut self, stmt: Stmt) -> Result<(), NoMemory>
        ensures { OnOk result (state_of self.new ≡ ended (state_of self.old) (plain stmt)) }
    {
        self.wanted = Wanted::Statement;
        self.done.push(stmt)?;
        Ok(())
    }

    /// Counts a statement.
    pub(crate) fn count(&mut self) -> Result<(), NoMemory>
        ensures { OnOk result (state_of self.new ≡ record (state_of self.old) { begun = (state_of self.old).begun + 1 }) }
    {
        self.begun = self.begun.checked_add(1).ok_or(NoMemory)?;
        Ok(())
    }

    /// Begins a statement of which more lines follow.
    pub(crate) fn begin(&mut self, wanted: Wanted) -> Result<(), NoMemory>
        ensures { OnOk result (state_of self.new ≡ begin (state_of self.old) (wanted_of wanted)) }
    {
        self.count()?;
        self.want(wanted);
        Ok(())
    }

    /// Adds a statement of one line.
    pub(crate) fn add(&mut self, stmt: Stmt) -> Result<(), NoMemory>
        ensures { OnOk result (state_of self.new ≡ whole (state_of self.old) (plain stmt)) }
    {
        self.count()?;
        self.end(stmt)
    }

    /// Opens a brace behind these statements.
    #[tactic(auto, using(crate::proofs::Stacks::pushed))]
    pub(crate) fn put_brace(
        &mut self,
        alloc: Global,
        part: Part,
        outer: Vec<Stmt>,
    ) -> Result<(), NoMemory>
        ensures { OnOk result (state_of self.new ≡ turned (state_of self.old) (kind_of part) (map plain outer.items) (state_of self.old).stack) }
    {
        self.wanted = Wanted::Statement;
        self.done = Vec::new(alloc);
        self.stack.push(Brace { part, outer })?;
        Ok(())
    }
}
