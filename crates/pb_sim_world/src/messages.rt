ghost use Rattle.std.specs.Prelude.{◌≡◌, ◌≤◌, ◌<◌, ◌+◌, ◌^◌, [], ◌∷◌, length, OnOk, OnErr, true};
ghost use Rattle.pb_world.specs.Actions.{Send, Recv};
ghost use Rattle.pb_local.specs.Collectives.{words_of};
ghost use Rattle.pb_chan.specs.Lists.{words_in, messages, position};
ghost use Rattle.pb_machine.specs.Steps.{is_there};
ghost use Rattle.pb_machine.specs.declared.act.Act.TheVariants as A;
ghost use Rattle.pb_machine.specs.declared.act.Next.TheVariants.{Acts};
ghost use Rattle.pb_sim_world.specs.States.{program, stand};
ghost use Rattle.pb_sim_world.specs.Worlds.{waits_for, is_for, released};
ghost use Rattle.pb_sim_world.specs.Events.{IsEvent, IsOtherThan, MayStep, IsAsked, IsSame};

use crate::stand::{Stand, Waits};
use crate::state::State;
use pb_machine::Input;
use pb_text::{Mode, NoMemory, Words};
use std::alloc::Global;

/// What a sender waits for in this mode.
fn waits_for(mode: Mode, by: u32, label: u32) -> Option<Waits>
    ensures { result ≡ waits_for mode by label }
{
    match mode {
        Mode::Eager => None,
        Mode::Waiting => Some(Waits { by, label }),
    }
}

/// Whether it waits for a message to this rank with this label.
fn is_for(waits: Option<Waits>, by: u32, label: u32) -> bool
    ensures { result ≡ is_for waits by label }
{
    match waits {
        None => false,
        Some(waits) => waits.by == by && waits.label == label,
    }
}

/// What a sender waits for once a message with this label was taken by this rank, and where another one is left.
fn released(waits: Option<Waits>, by: u32, label: u32, left: bool) -> Option<Waits>
    ensures { result ≡ released waits by label left }
{
    if is_for(waits, by, label) && !left {
        None
    } else {
        waits
    }
}

impl State {
    /// A rank sends a message. After `NoMemory` all is as before.
    pub fn send(
        &mut self,
        alloc: Global,
        rank: u32,
        to: u32,
        label: u32,
        words: Words,
        mode: Mode,
    ) -> Result<(), NoMemory>
        requires may { MayStep self.old rank (Acts (A.Send to label)) }
        requires long { length words ≡ words_of (program self.old) self.old.n label }
        requires few { words_in self.old.channels + length words ≤ 16777216 }
        requires asked { (stand self.old rank).asked < 2 ^ 62 }
        ensures event { OnOk result (IsEvent self.old rank (Send to label words ∷ []) self.new × IsOtherThan self.old rank to self.new) }
        ensures mode { OnOk result ((stand self.new rank).waits ≡ waits_for mode to label) }
        ensures asked { OnOk result (IsAsked self.old rank (length words) self.new) }
        ensures same { OnErr result (IsSame self.old self.new) }
    {
        let kept = self.kept_of(rank);
        let count = words.list().len() as u64;
        let sent = self.channels.put(alloc, rank, to, label, words).is_ok();
        if !sent {
            return Err(NoMemory);
        }
        self.advance(rank, Input::Plain);
        self.keep(
            rank,
            Stand {
                waits: waits_for(mode, to, label),
                left: kept.left,
                mode: kept.mode,
                asked: kept.asked + count,
            },
        );
        Ok(())
    }

    /// What a sender waits for once a message with this label was taken by this rank. The messages that are left are looked
    /// at only where it waited for one like it.
    fn waits_behind(&self, waits: Option<Waits>, from: u32, by: u32, label: u32) -> Option<Waits>
        ensures { result ≡ released waits by label (is_there (position label 0 (messages self.now.channels from by))) }
    {
        if is_for(waits, by, label) {
            let left = self.channels.first(from, by, label).is_some();
            released(waits, by, label, left)
        } else {
            waits
        }
    }

    /// A rank takes the first message with the label. Its sender goes on where it waited for that.
    pub fn receive(&mut self, rank: u32, from: u32, label: u32) -> Words
        requires may { MayStep self.old rank (Acts (A.Recv from label)) }
        requires found { is_there (position label 0 (messages self.old.channels from rank)) ≡ true }
        ensures event { IsEvent self.old rank (Recv from label result ∷ []) self.new × IsOtherThan self.old rank from self.new }
        ensures asked { IsAsked self.old rank 0 self.new }
    {
        let at = self.channels.first(from, rank, label).unwrap();
        let kept = self.kept_of(from);
        self.advance(rank, Input::Plain);
        let words = self.channels.take(from, rank, at);
        let waits = self.waits_behind(kept.waits, from, rank, label);
        self.keep(
            from,
            Stand {
                waits,
                left: kept.left,
                mode: kept.mode,
                asked: kept.asked,
            },
        );
        words
    }
}
