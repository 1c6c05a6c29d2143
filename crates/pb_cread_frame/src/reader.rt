//! Reads the lines before the statements, one after the other.

ghost use Rattle.std.specs.Prelude.{◌≡◌, ◌≤◌, ◌<◌, ◌++◌, ◌∷◌, [], true, IfOk, OnOk, MatchOption, None, Some, length, drop, map};
ghost use Rattle.std.specs.List.{All};
ghost use Rattle.pb_ctree.specs.Bodies.{is_body};
ghost use Rattle.pb_ctree.specs.Functions.{has_words};
ghost use Rattle.pb_ctree.specs.Sums.{HasSmallEnds};
ghost use Rattle.pb_cread_frame.specs.Rows.{is_line};
ghost use Rattle.pb_cread_frame.specs.Reading.{state, start_with, same_line, title_text, number_texts, main_texts, first_wordy, words_state, ended, body_step, protocol_step, range_step, buffers_step, label_step, with_role, main_step, with_kernel, free_step, step, at_protocol, at_range, at_roles, at_labels, in_body, at_kernels, at_statements};
ghost use Rattle.pb_cread_frame.specs.Views.{texts_of, owner_of, phase_of, read_of, state_of, IsReader};

use crate::lines::{
    push_all, push_fixed, push_kernel_opening, push_main, push_make_opening, push_numbers,
    push_take_opening,
};
use pb_cread_rows::{has_size, read_kernel, read_label, read_protocol, read_range, read_role};
use pb_ctree::{Body, CoreLabel, Local, NRange, Name, NoMemory, Role, has_words, number_roles};
use pb_text::Names;
use std::alloc::Global;
use std::mem;

/// Whose body is open.
#[derive(Clone, Copy)]
pub enum Owner {
    Prelude,
    /// The function that makes a label's words, and the number of the label behind it.
    Make(CoreLabel, usize),
    Take(usize),
    Kernel,
}

/// What comes next.
#[derive(Clone, Copy)]
pub enum Phase {
    Protocol,
    Range,
    Roles,
    Labels,
    Body(Owner),
    Kernels,
    Statements,
}

/// What was read of the lines before the statements.
#[derive(Drop)]
pub struct FrameReader {
    pub local: Local,
    pub prelude: Body,
    pub bodies: Vec<Body>,
    pub(crate) role_names: Names,
    pub(crate) label_names: Names,
    pub(crate) kernel_names: Names,
    pub(crate) text: Vec<u8>,
    pub(crate) awaited: Vec<Vec<u8>>,
    pub(crate) at: usize,
    pub(crate) phase: Phase,
}

/// Whether both have the same bytes.
pub fn is_same(text: &[u8], line: &[u8]) -> bool
    ensures { result ≡ same_line text.now line.now }
{
    text == line
}

/// The first label with words from a number on, and the number of the label behind it.
fn first_wordy(labels: &[CoreLabel], from: usize) -> Option<(CoreLabel, usize)>
    ensures { MatchOption result (first_wordy (drop from labels.now) ≡ None) (λ x. first_wordy (drop from labels.now) ≡ Some (x.0, drop x.1 labels.now)) }
{
    for at in from..labels.len() {
        let label = labels[at];
        if has_words(label.payload) {
            return Some((label, at + 1));
        }
    }
    None
}

/// The lines of the functions that number the ranks.
#[tactic(auto, using(crate::proofs::Texts::places_many))]
pub fn number_texts(alloc: Global, roles: &[Role]) -> Result<Vec<Vec<u8>>, NoMemory>
    requires few { length roles.now ≤ 64 }
    requires small { All HasSmallEnds roles.now }
    ensures { IfOk result (λ lines. texts_of lines.items ≡ number_texts roles.now) }
{
    let mut bases = Vec::new(alloc);
    let mut places = Vec::new(alloc);
    number_roles(roles, &mut bases, &mut places)?;
    let mut lines = Vec::new(alloc);
    push_numbers(alloc, &mut lines, roles, &places)?;
    Ok(lines)
}

/// Main's lines before the statements, but for its head.
#[tactic(auto, using(crate::proofs::Texts::seats_many, crate::proofs::Texts::main_opened))]
pub fn main_texts(alloc: Global, range: NRange, roles: &[Role]) -> Result<Vec<Vec<u8>>, NoMemory>
    requires few { length roles.now ≤ 64 }
    requires small { All HasSmallEnds roles.now }
    ensures { IfOk result (λ lines. texts_of lines.items ≡ drop 1 (main_texts range roles.now)) }
{
    let mut bases = Vec::new(alloc);
    let mut places = Vec::new(alloc);
    let size = number_roles(roles, &mut bases, &mut places)?;
    let mut lines = Vec::new(alloc);
    push_main(alloc, &mut lines, range, size, &bases, &places)?;
    Ok(lines)
}

fn some_name() -> Name {
    match Name::of(b"P") {
        Some(name) => name,
        None => unreachable!(),
    }
}

fn no_body(alloc: Global) -> Body
    ensures { result ≡ [] }
{
    match Body::of(Vec::new(alloc)) {
        Some(body) => body,
        None => unreachable!(),
    }
}

fn title(alloc: Global) -> Result<Vec<Vec<u8>>, NoMemory>
    ensures { IfOk result (λ lines. texts_of lines.items ≡ title_text ∷ []) }
{
    let mut lines = Vec::new(alloc);
    push_fixed(alloc, &mut lines, b"/* pabble 1 */\n")?;
    Ok(lines)
}

impl FrameReader {
    /// Nothing is read.
    pub fn new(alloc: Global) -> Result<FrameReader, NoMemory>
        ensures start { IfOk result (λ reader. state_of reader ≡ start_with reader.local.protocol) }
        ensures reader { IfOk result IsReader }
    {
        let local = Local {
            protocol: some_name(),
            range: NRange { low: 0, high: None },
            roles: Vec::new(alloc),
            labels: Vec::new(alloc),
            kernels: Vec::new(alloc),
            body: Vec::new(alloc),
        };
        Ok(FrameReader {
            local,
            prelude: no_body(alloc),
            bodies: Vec::new(alloc),
            role_names: Names::new(alloc),
            label_names: Names::new(alloc),
            kernel_names: Names::new(alloc),
            text: Vec::new(alloc),
            awaited: title(alloc)?,
            at: 0,
            phase: Phase::Protocol,
        })
    }

    /// These lines must come, and then that phase.
    pub(crate) fn wait(&mut self, lines: Vec<Vec<u8>>, phase: Phase)
        ensures state { state_of self.new ≡ state (read_of self.old) (texts_of lines.items) (phase_of self.old.local phase) }
        ensures reader { IsReader self.old → IsReader self.new }
    {
        self.awaited = lines;
        self.at = 0;
        self.phase = phase;
    }

    /// These lines must come, and then the functions of the labels from a number on.
    #[tactic(auto, using(crate::proofs::Wordy::words_are))]
    pub(crate) fn wait_words(
        &mut self,
        alloc: Global,
        lines: Vec<Vec<u8>>,
        from: usize,
    ) -> Result<(), NoMemory>
        ensures state { OnOk result (state_of self.new ≡ words_state (read_of self.old) (texts_of lines.items) (first_wordy (drop from self.old.local.labels.items))) }
        ensures reader { OnOk result (IsReader self.old → IsReader self.new) }
    {
        let mut lines = lines;
        match first_wordy(&self.local.labels, from) {
            None => self.wait(lines, Phase::Kernels),
            Some((label, behind)) => {
                push_make_opening(alloc, &mut lines, &label)?;
                self.wait(lines, Phase::Body(Owner::Make(label, behind)));
            }
        }
        Ok(())
    }
}
