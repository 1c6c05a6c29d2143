//! The lines that tell the branch of a choice.

ghost use Rattle.std.specs.Prelude.{◌≡◌, IfOk, Some, None, cond, []};
ghost use Rattle.pb_cread_lines.specs.Items.{item_of};
ghost use Rattle.pb_cread_statements.specs.Reading.{aborted_step, aborting_step, all_tested_step, answered_step, asked_step, chosen_step, probed_step, relayed_step, relaying_step, sourced_step, tested_step, testing_step, told, untested_step, untold};
ghost use Rattle.pb_cread_statements.specs.Views.{state_of, told_of};

use crate::brace::Part;
use crate::reader::Reader;
use crate::told::Told;
use crate::wanted::Wanted;
use crate::{Guard, Guards, Item, NoMemory, Peer, Relay, Test};
use std::alloc::Global;
use std::mem;

impl Reader {
    /// Nobody asks for the branch, so the source is the chooser.
    fn untold(&mut self, alloc: Global, who: Guard, kernel: u32) -> bool
        ensures { untold (state_of self.old) who kernel who.low ≡ cond result (Some (state_of self.new)) None }
    {
        match who.low {
            None => false,
            Some(at) => {
                let from = Peer { role: who.role, at };
                let told = Told {
                    who,
                    kernel,
                    relays: Vec::new(alloc),
                    from,
                    tests: Vec::new(alloc),
                };
                self.want(Wanted::Answered { told });
                true
            }
        }
    }

    pub(crate) fn behind_call(&mut self, alloc: Global, who: Guard, kernel: u32, item: Item) -> bool
        ensures { chosen_step (state_of self.old) who kernel (item_of item) ≡ cond result (Some (state_of self.new)) None }
    {
        match item {
            Item::Close => self.untold(alloc, who, kernel),
            Item::ElseOpen => {
                self.want(Wanted::Asked { who, kernel });
                true
            }
            _ => false,
        }
    }

    pub(crate) fn behind_ask(&mut self, alloc: Global, who: Guard, kernel: u32, item: Item) -> bool
        ensures { asked_step (state_of self.old) who kernel (item_of item) ≡ cond result (Some (state_of self.new)) None }
    {
        let relays = Vec::new(alloc);
        match item {
            Item::Probe { from } => {
                self.want(Wanted::Untested {
                    who,
                    kernel,
                    relays,
                    from,
                });
                true
            }
            Item::IfOpen { guards } => {
                self.want(Wanted::Relaying {
                    who,
                    kernel,
                    relays,
                    guards,
                });
                true
            }
            _ => false,
        }
    }

    pub(crate) fn probe_relay(
        &mut self,
        who: Guard,
        kernel: u32,
        mut relays: Vec<Relay>,
        guards: Guards,
        item: Item,
    ) -> Result<bool, NoMemory>
        ensures { IfOk result (λ went. relaying_step (state_of self.old) who kernel relays.items guards (item_of item) ≡ cond went (Some (state_of self.new)) None) }
    {
        match item {
            Item::Probe { from } => {
                relays.push(Relay { guards, from })?;
                self.want(Wanted::Relayed {
                    who,
                    kernel,
                    relays,
                });
                Ok(true)
            }
            _ => Ok(false),
        }
    }

    pub(crate) fn behind_relay(
        &mut self,
        who: Guard,
        kernel: u32,
        relays: Vec<Relay>,
        item: Item,
    ) -> bool
        ensures { relayed_step (state_of self.old) who kernel relays.items (item_of item) ≡ cond result (Some (state_of self.new)) None }
    {
        match item {
            Item::ElseIfOpen { guards } => {
                self.want(Wanted::Relaying {
                    who,
                    kernel,
                    relays,
                    guards,
                });
                true
            }
            Item::ElseOpen => {
                self.want(Wanted::Sourced {
                    who,
                    kernel,
                    relays,
                });
                true
            }
            _ => false,
        }
    }

    pub(crate) fn probe_source(
        &mut self,
        who: Guard,
        kernel: u32,
        relays: Vec<Relay>,
        item: Item,
    ) -> bool
        ensures { sourced_step (state_of self.old) who kernel relays.items (item_of item) ≡ cond result (Some (state_of self.new)) None }
    {
        match item {
            Item::Probe { from } => {
                self.want(Wanted::Probed {
                    who,
                    kernel,
                    relays,
                    from,
                });
                true
            }
            _ => false,
        }
    }

    pub(crate) fn behind_probes(
        &mut self,
        who: Guard,
        kernel: u32,
        relays: Vec<Relay>,
        from: Peer,
        item: Item,
    ) -> bool
        ensures { probed_step (state_of self.old) who kernel relays.items from (item_of item) ≡ cond result (Some (state_of self.new)) None }
    {
        match item {
            Item::Close => {
                self.want(Wanted::Untested {
                    who,
                    kernel,
                    relays,
                    from,
                });
                true
            }
            _ => false,
        }
    }

    pub(crate) fn first_test(
        &mut self,
        alloc: Global,
        who: Guard,
        kernel: u32,
        relays: Vec<Relay>,
        from: Peer,
        item: Item,
    ) -> bool
        ensures { untested_step (state_of self.old) (told who kernel relays.items from []) (item_of item) ≡ cond result (Some (state_of self.new)) None }
    {
        match item {
            Item::TestOpen { label, guards } => {
                let told = Told {
                    who,
                    kernel,
                    relays,
                    from,
                    tests: Vec::new(alloc),
                };
                self.want(Wanted::Testing {
                    told,
                    label,
                    guards,
                });
                true
            }
            _ => false,
        }
    }

    pub(crate) fn pick_branch(
        &mut self,
        mut told: Told,
        label: u32,
        guards: Guards,
        item: Item,
    ) -> Result<bool, NoMemory>
        ensures { IfOk result (λ went. testing_step (state_of self.old) (told_of told) label guards (item_of item) ≡ cond went (Some (state_of self.new)) None) }
    {
        match item {
            Item::Picks { branch } => {
                told.tests.push(Test {
                    branch,
                    label,
                    guards,
                })?;
                self.want(Wanted::Tested { told });
                Ok(true)
            }
            _ => Ok(false),
        }
    }

    pub(crate) fn behind_test(&mut self, told: Told, item: Item) -> bool
        ensures { tested_step (state_of self.old) (told_of told) (item_of item) ≡ cond result (Some (state_of self.new)) None }
    {
        match item {
            Item::ElseTestOpen { label, guards } => {
                self.want(Wanted::Testing {
                    told,
                    label,
                    guards,
                });
                true
            }
            Item::ElseOpen => {
                self.want(Wanted::Aborting { told });
                true
            }
            _ => false,
        }
    }

    pub(crate) fn abort(&mut self, told: Told, item: Item) -> bool
        ensures { aborting_step (state_of self.old) (told_of told) (item_of item) ≡ cond result (Some (state_of self.new)) None }
    {
        match item {
            Item::Aborts => {
                self.want(Wanted::Aborted { told });
                true
            }
            _ => false,
        }
    }

    pub(crate) fn behind_abort(&mut self, told: Told, item: Item) -> bool
        ensures { aborted_step (state_of self.old) (told_of told) (item_of item) ≡ cond result (Some (state_of self.new)) None }
    {
        match item {
            Item::Close => {
                self.want(Wanted::AllTested { told });
                true
            }
            _ => false,
        }
    }

    pub(crate) fn behind_tests(&mut self, told: Told, item: Item) -> bool
        ensures { all_tested_step (state_of self.old) (told_of told) (item_of item) ≡ cond result (Some (state_of self.new)) None }
    {
        match item {
            Item::Close => {
                self.want(Wanted::Answered { told });
                true
            }
            _ => false,
        }
    }

    pub(crate) fn first_branch(
        &mut self,
        alloc: Global,
        told: Told,
        item: Item,
    ) -> Result<bool, NoMemory>
        ensures { IfOk result (λ went. answered_step (state_of self.old) (told_of told) (item_of item) ≡ cond went (Some (state_of self.new)) None) }
    {
        match item {
            Item::PickOpen { branch } => {
                if branch != 0 {
                    return Ok(false);
                }
                let outer = mem::replace(&mut self.done, Vec::new(alloc));
                let parts = Vec::new(alloc);
                self.put_brace(alloc, Part::Branch { told, parts }, outer)?;
                Ok(true)
            }
            _ => Ok(false),
        }
    }
}
