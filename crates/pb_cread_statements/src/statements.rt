//! The lines where no statement is half spelled.

ghost use Rattle.std.specs.Prelude.{◌≡◌, ◌++◌, ◌∷◌, [], suc, nat_eq, length, ◌+◌, IfOk, OnOk, Some, None, cond, map};
ghost use Rattle.pb_local.specs.Tree.{plain, program_of, recv, send};
ghost use Rattle.pb_cread_lines.specs.Items.{item_of};
ghost use Rattle.pb_cread_statements.specs.Reading.{begin, branch_in, branch_step, choose_in, choose_step, chosen_of, close_in, close_step, else_in, else_step, entered, free_step, in_loop_of, made, received, state, statement, whole};
ghost use Rattle.pb_cread_statements.specs.Views.{frames_of, kind_of, plains, state_of, told_of};

use crate::brace::{Brace, Part};
use crate::reader::Reader;
use crate::told::Told;
use crate::wanted::Wanted;
use crate::{Item, Local, NoMemory, Peer, Stmt};
use pb_ctree::is_wordy;
use std::alloc::Global;
use std::mem;

/// The branches and one more.
#[tactic(auto, using(crate::proofs::Plains::part_added))]
fn with_part(mut parts: Vec<Vec<Stmt>>, part: Vec<Stmt>) -> Result<Vec<Vec<Stmt>>, NoMemory>
    ensures { IfOk result (λ all. plains all.items ≡ plains parts.items ++ map plain part.items ∷ []) }
{
    parts.push(part)?;
    Ok(parts)
}

/// Whether a branch of this number comes behind these and one more.
#[tactic(auto, using(crate::proofs::Plains::plains_length))]
fn is_next(parts: &Vec<Vec<Stmt>>, branch: u32) -> bool
    ensures { result ≡ nat_eq branch (suc (length (plains parts.now.items))) }
{
    branch as usize == parts.len() + 1
}

#[tactic(auto, using(pb_local::proofs::Plains::choice_plain))]
fn choice_of(told: Told, branches: Vec<Vec<Stmt>>) -> Stmt
    ensures { plain result ≡ chosen_of (told_of told) (plains branches.items) }
{
    Stmt::Choice {
        who: told.who,
        kernel: told.kernel,
        relays: told.relays,
        from: told.from,
        tests: told.tests,
        branches,
    }
}

impl Reader {
    /// Opens a brace with which a statement begins.
    fn enter(&mut self, alloc: Global, part: Part, loops: u32) -> Result<(), NoMemory>
        ensures { OnOk result (state_of self.new ≡ entered (state_of self.old) (kind_of part) loops) }
    {
        self.count()?;
        let outer = mem::replace(&mut self.done, Vec::new(alloc));
        self.put_brace(alloc, part, outer)?;
        self.loops = loops;
        Ok(())
    }

    /// Ends the statement that a closed brace belongs to.
    fn close_part(&mut self, alloc: Global, part: Part, done: Vec<Stmt>) -> Result<bool, NoMemory>
        ensures { IfOk result (λ went. close_in (state statement (map plain done.items) [] (state_of self.old).loops (state_of self.old).begun) (kind_of part) (state_of self.old).done (state_of self.old).stack ≡ cond went (Some (state_of self.new)) None) }
    {
        match part {
            Part::First { guards } => {
                let other = Vec::new(alloc);
                self.end(Stmt::If {
                    guards,
                    first: done,
                    other,
                })?;
            }
            Part::Other { guards, first } => {
                if done.is_empty() {
                    return Ok(false);
                }
                self.end(Stmt::If {
                    guards,
                    first,
                    other: done,
                })?;
            }
            Part::For { low, high } => self.end(Stmt::For {
                low,
                high,
                body: done,
            })?,
            Part::Loop { id } => self.end(Stmt::Loop { id, body: done })?,
            Part::Branch { .. } => return Ok(false),
            Part::Last {
                told,
                parts,
                previous,
            } => {
                let branches = with_part(with_part(parts, previous)?, done)?;
                self.end(choice_of(told, branches))?;
            }
        }
        Ok(true)
    }

    #[tactic(auto, using(crate::proofs::Stacks::popped, crate::proofs::Stacks::empty))]
    fn close(&mut self, alloc: Global) -> Result<bool, NoMemory>
        ensures { IfOk result (λ went. close_step (state_of self.old) (state_of self.old).stack ≡ cond went (Some (state_of self.new)) None) }
    {
        match self.stack.pop() {
            None => Ok(false),
            Some(Brace { part, outer }) => {
                let done = mem::replace(&mut self.done, outer);
                self.close_part(alloc, part, done)
            }
        }
    }

    fn turn_part(&mut self, alloc: Global, part: Part, outer: Vec<Stmt>) -> Result<bool, NoMemory>
        ensures { IfOk result (λ went. else_in (state_of self.old) (kind_of part) (map plain outer.items) (state_of self.old).stack ≡ cond went (Some (state_of self.new)) None) }
    {
        let done = mem::replace(&mut self.done, Vec::new(alloc));
        match part {
            Part::First { guards } => {
                let part = Part::Other {
                    guards,
                    first: done,
                };
                self.put_brace(alloc, part, outer)?;
                Ok(true)
            }
            Part::Branch { told, parts } => {
                let part = Part::Last {
                    told,
                    parts,
                    previous: done,
                };
                self.put_brace(alloc, part, outer)?;
                Ok(true)
            }
            Part::Other { .. } | Part::For { .. } | Part::Loop { .. } | Part::Last { .. } => {
                Ok(false)
            }
        }
    }

    /// Goes to the other part, or to the last branch.
    #[tactic(auto, using(crate::proofs::Stacks::popped, crate::proofs::Stacks::empty))]
    fn turn(&mut self, alloc: Global) -> Result<bool, NoMemory>
        ensures { IfOk result (λ went. else_step (state_of self.old) (state_of self.old).stack ≡ cond went (Some (state_of self.new)) None) }
    {
        match self.stack.pop() {
            None => Ok(false),
            Some(Brace { part, outer }) => self.turn_part(alloc, part, outer),
        }
    }

    fn branch_part(
        &mut self,
        alloc: Global,
        branch: u32,
        part: Part,
        outer: Vec<Stmt>,
    ) -> Result<bool, NoMemory>
        ensures { IfOk result (λ went. branch_in (state_of self.old) branch (kind_of part) (map plain outer.items) (state_of self.old).stack ≡ cond went (Some (state_of self.new)) None) }
    {
        match part {
            Part::Branch { told, parts } => {
                if !is_next(&parts, branch) {
                    return Ok(false);
                }
                let done = mem::replace(&mut self.done, Vec::new(alloc));
                let parts = with_part(parts, done)?;
                self.put_brace(alloc, Part::Branch { told, parts }, outer)?;
                Ok(true)
            }
            Part::First { .. }
            | Part::Other { .. }
            | Part::For { .. }
            | Part::Loop { .. }
            | Part::Last { .. } => Ok(false),
        }
    }

    /// Goes to the next branch.
    #[tactic(auto, using(crate::proofs::Stacks::popped, crate::proofs::Stacks::empty))]
    fn next_branch(&mut self, alloc: Global, branch: u32) -> Result<bool, NoMemory>
        ensures { IfOk result (λ went. branch_step (state_of self.old) branch (state_of self.old).stack ≡ cond went (Some (state_of self.new)) None) }
    {
        match self.stack.pop() {
            None => Ok(false),
            Some(Brace { part, outer }) => self.branch_part(alloc, branch, part, outer),
        }
    }

    fn choose_part(&mut self, kernel: u32, part: Part, outer: Vec<Stmt>) -> bool
        ensures { choose_in (state_of self.old) kernel (kind_of part) (state_of self.old).done (map plain outer.items) (state_of self.old).stack ≡ cond result (Some (state_of self.new)) None }
    {
        match part {
            Part::First { guards } => match guards.list() {
                [who] => {
                    if !self.done.is_empty() {
                        return false;
                    }
                    let who = *who;
                    self.done = outer;
                    self.wanted = Wanted::Chosen { who, kernel };
                    true
                }
                _ => false,
            },
            Part::Other { .. }
            | Part::For { .. }
            | Part::Loop { .. }
            | Part::Branch { .. }
            | Part::Last { .. } => false,
        }
    }

    /// An if of one guard becomes a choice.
    #[tactic(auto, using(crate::proofs::Stacks::popped, crate::proofs::Stacks::empty))]
    fn choose(&mut self, kernel: u32) -> bool
        ensures { choose_step (state_of self.old) kernel (state_of self.old).stack ≡ cond result (Some (state_of self.new)) None }
    {
        match self.stack.pop() {
            None => false,
            Some(Brace { part, outer }) => self.choose_part(kernel, part, outer),
        }
    }

    fn enter_loop(&mut self, alloc: Global, id: u32) -> Result<(), NoMemory>
        ensures { OnOk result (state_of self.new ≡ entered (state_of self.old) (in_loop_of id) ((state_of self.old).loops + 1)) }
    {
        let loops = self.loops.checked_add(1).ok_or(NoMemory)?;
        self.enter(alloc, Part::Loop { id }, loops)
    }

    fn make(&mut self, wordy: bool, label: u32) -> Result<bool, NoMemory>
        ensures { IfOk result (λ went. cond wordy (Some (begin (state_of self.old) (made label))) None ≡ cond went (Some (state_of self.new)) None) }
    {
        if !wordy {
            return Ok(false);
        }
        self.begin(Wanted::Made { label })?;
        Ok(true)
    }

    /// Only a message without words is sent where no words were made.
    fn send(&mut self, wordy: bool, label: u32, to: Peer) -> Result<bool, NoMemory>
        ensures { IfOk result (λ went. cond wordy None (Some (whole (state_of self.old) (send label to))) ≡ cond went (Some (state_of self.new)) None) }
    {
        if wordy {
            return Ok(false);
        }
        self.add(Stmt::Send { label, to })?;
        Ok(true)
    }

    fn receive(&mut self, wordy: bool, label: u32, from: Peer) -> Result<bool, NoMemory>
        ensures { IfOk result (λ went. cond wordy (Some (begin (state_of self.old) (received label from))) (Some (whole (state_of self.old) (recv label from))) ≡ cond went (Some (state_of self.new)) None) }
    {
        if wordy {
            self.begin(Wanted::Received { label, from })?;
        } else {
            self.add(Stmt::Recv { label, from })?;
        }
        Ok(true)
    }

    /// Takes a line where no statement is half spelled.
    pub(crate) fn free(
        &mut self,
        alloc: Global,
        local: &Local,
        item: Item,
    ) -> Result<bool, NoMemory>
        ensures { IfOk result (λ went. free_step (program_of local.now) (state_of self.old) (item_of item) ≡ cond went (Some (state_of self.new)) None) }
    {
        match item {
            Item::Close => return self.close(alloc),
            Item::ElseOpen => return self.turn(alloc),
            Item::ElsePickOpen { branch } => return self.next_branch(alloc, branch),
            Item::Chooses { kernel } => return Ok(self.choose(kernel)),
            Item::IfOpen { guards } => self.enter(alloc, Part::First { guards }, self.loops)?,
            Item::ForOpen { low, high } => {
                self.enter(alloc, Part::For { low, high }, self.loops)?
            }
            Item::LoopOpen { id } => self.enter_loop(alloc, id)?,
            Item::OwnIs { off } => self.add(Stmt::Own { off })?,
            Item::Goto { id } => self.add(Stmt::Again { id })?,
            Item::Barrier => self.add(Stmt::Barrier)?,
            Item::Calls { kernel } => self.add(Stmt::Run { kernel })?,
            Item::RootMakes { root, label } => self.begin(Wanted::Rooted { label, root })?,
            Item::Makes { label } => return self.make(is_wordy(local, label), label),
            Item::Sends { label, to } => return self.send(is_wordy(local, label), label, to),
            Item::Receives { label, from } => {
                return self.receive(is_wordy(local, label), label, from);
            }
            _ => return Ok(false),
        }
        Ok(true)
    }
}
