//! The lines of messages and collectives behind the first.

ghost use Rattle.std.specs.Prelude.{◌≡◌, IfOk, Some, None, cond};
ghost use Rattle.pb_local.specs.Tree.{plain};
ghost use Rattle.pb_cread_lines.specs.Items.{item_of};
ghost use Rattle.pb_cread_statements.specs.Reading.{made_step, root_take_step, rooted_step, take_in_step, take_out_step};
ghost use Rattle.pb_cread_statements.specs.Views.{state_of};

use crate::reader::Reader;
use crate::rules::is_same_peer;
use crate::wanted::Wanted;
use crate::{Item, NoMemory, Op, Peer, Side, Stmt};

impl Reader {
    /// A label's words were made: to be sent, reduced or reduced for all.
    pub(crate) fn behind_make(&mut self, made: u32, item: Item) -> Result<bool, NoMemory>
        ensures { IfOk result (λ went. made_step (state_of self.old) made (item_of item) ≡ cond went (Some (state_of self.new)) None) }
    {
        match item {
            Item::Sends { label, to } => {
                if label != made {
                    return Ok(false);
                }
                self.end(Stmt::Send { label, to })?;
                Ok(true)
            }
            Item::Reduces { label, op, root } => {
                if label != made {
                    return Ok(false);
                }
                self.want(Wanted::Reduced { label, op, root });
                Ok(true)
            }
            Item::Allreduces { label, op } => {
                if label != made {
                    return Ok(false);
                }
                self.want(Wanted::Allreduced { label, op });
                Ok(true)
            }
            _ => Ok(false),
        }
    }

    pub(crate) fn behind_root(&mut self, made: u32, by: Peer, item: Item) -> bool
        ensures { rooted_step (state_of self.old) made by (item_of item) ≡ cond result (Some (state_of self.new)) None }
    {
        match item {
            Item::Broadcasts { label, root } => {
                if label != made || !is_same_peer(root, by) {
                    return false;
                }
                self.want(Wanted::Cast { label, root });
                true
            }
            _ => false,
        }
    }

    /// The words are taken from where they were sent from, and the statement is whole.
    pub(crate) fn take_sent(&mut self, cast: u32, stmt: Stmt, item: Item) -> Result<bool, NoMemory>
        ensures { IfOk result (λ went. take_out_step (state_of self.old) cast (plain stmt) (item_of item) ≡ cond went (Some (state_of self.new)) None) }
    {
        match item {
            Item::Takes { label, side } => match side {
                Side::Outgoing => {
                    if label != cast {
                        return Ok(false);
                    }
                    self.end(stmt)?;
                    Ok(true)
                }
                Side::Incoming => Ok(false),
            },
            _ => Ok(false),
        }
    }

    /// The words are taken from where they were received, and the statement is whole.
    pub(crate) fn take_received(
        &mut self,
        received: u32,
        stmt: Stmt,
        item: Item,
    ) -> Result<bool, NoMemory>
        ensures { IfOk result (λ went. take_in_step (state_of self.old) received (plain stmt) (item_of item) ≡ cond went (Some (state_of self.new)) None) }
    {
        match item {
            Item::Takes { label, side } => match side {
                Side::Outgoing => Ok(false),
                Side::Incoming => {
                    if label != received {
                        return Ok(false);
                    }
                    self.end(stmt)?;
                    Ok(true)
                }
            },
            _ => Ok(false),
        }
    }

    pub(crate) fn root_takes(
        &mut self,
        reduced: u32,
        op: Op,
        by: Peer,
        item: Item,
    ) -> Result<bool, NoMemory>
        ensures { IfOk result (λ went. root_take_step (state_of self.old) reduced op by (item_of item) ≡ cond went (Some (state_of self.new)) None) }
    {
        match item {
            Item::RootTakes { root, label } => {
                if label != reduced || !is_same_peer(root, by) {
                    return Ok(false);
                }
                self.end(Stmt::Reduce { label, op, root })?;
                Ok(true)
            }
            _ => Ok(false),
        }
    }
}
