//! One line more.

ghost use Rattle.std.specs.Prelude.{◌≡◌, ◌≤◌, ◌<◌, ◌+◌, IfSome, MatchOption, if◌then◌else◌, cond, ◌++◌, ◌∷◌, [], true, false, IfOk, OnOk, None, Some, length, drop, codes};
ghost use Rattle.pb_ctree.specs.Sums.{HasSmallEnds};
ghost use Rattle.pb_ctree.specs.Bodies.{is_body, is_marker};
ghost use Rattle.pb_cread_rows.specs.Spelled.{names_of_roles, names_of_labels, names_of_kernels, IsFresh};
ghost use Rattle.pb_cread_frame.specs.Rows.{is_line};
ghost use Rattle.pb_cread_frame.specs.Reading as R;
ghost use Rattle.pb_cread_frame.specs.Reading.{state, with_body, of_make, of_take, of_prelude, of_kernel, ended, body_step, protocol_step, range_step, step_at, brace_text, kernel_opening, with_label, buffers_step, label_step, with_role, main_step, with_kernel, free_step, step, is_done, is_statements, at_protocol, at_range, at_roles, at_labels, in_body, at_kernels, at_statements};
ghost use Rattle.pb_local.specs.declared.tables.Local.{Local};
ghost use Rattle.pb_cread_frame.specs.Views.{texts_of, owner_of, phase_of, read_of, state_of, IsReader, Went};

use crate::lines::{push_all, push_fixed, push_kernel_opening, push_take_opening};
use crate::reader::{FrameReader, Owner, Phase, is_same, main_texts, number_texts};
use pb_cread_rows::{has_size, read_kernel, read_label, read_protocol, read_range, read_role};
use pb_ctree::{Body, CoreKernel, CoreLabel, NoMemory, Role};
use std::alloc::Global;
use std::mem;

fn whole_body(text: Vec<u8>) -> Body
    requires { is_body text.items ≡ true }
    ensures { result ≡ text.items }
{
    match Body::of(text) {
        Some(body) => body,
        None => unreachable!(),
    }
}

fn one_brace(alloc: Global) -> Result<Vec<Vec<u8>>, NoMemory>
    ensures { IfOk result (λ lines. texts_of lines.items ≡ brace_text ∷ []) }
{
    let mut lines = Vec::new(alloc);
    push_fixed(alloc, &mut lines, b"}\n")?;
    Ok(lines)
}

impl FrameReader {
    fn put_prelude(&mut self, alloc: Global)
        requires reader { IsReader self.old }
        ensures read { read_of self.new ≡ record (read_of self.old) { prelude = self.old.text.items; text = [] } }
        ensures reader { IsReader self.new }
    {
        let text = mem::replace(&mut self.text, Vec::new(alloc));
        self.prelude = whole_body(text);
    }

    fn end_prelude(&mut self, alloc: Global) -> Result<(), NoMemory>
        requires reader { IsReader self.old }
        ensures state { OnOk result (state_of self.new ≡ ended (read_of self.old) of_prelude) }
        ensures reader { OnOk result (IsReader self.new) }
    {
        self.put_prelude(alloc);
        let lines = number_texts(alloc, &self.local.roles)?;
        self.wait_words(alloc, lines, 0)?;
        Ok(())
    }

    fn push_body(&mut self, alloc: Global) -> Result<(), NoMemory>
        requires reader { IsReader self.old }
        ensures read { OnOk result (read_of self.new ≡ with_body (read_of self.old)) }
        ensures reader { OnOk result (IsReader self.new) }
    {
        let text = mem::replace(&mut self.text, Vec::new(alloc));
        self.bodies.push(whole_body(text))?;
        Ok(())
    }

    fn end_make(&mut self, alloc: Global, label: CoreLabel, behind: usize) -> Result<(), NoMemory>
        requires reader { IsReader self.old }
        ensures state { OnOk result (state_of self.new ≡ ended (read_of self.old) (of_make label (drop behind self.old.local.labels.items))) }
        ensures reader { OnOk result (IsReader self.new) }
    {
        self.push_body(alloc)?;
        let mut lines = Vec::new(alloc);
        push_fixed(alloc, &mut lines, b"}\n")?;
        push_take_opening(alloc, &mut lines, &label)?;
        self.wait(lines, Phase::Body(Owner::Take(behind)));
        Ok(())
    }

    fn end_take(&mut self, alloc: Global, behind: usize) -> Result<(), NoMemory>
        requires reader { IsReader self.old }
        ensures state { OnOk result (state_of self.new ≡ ended (read_of self.old) (of_take (drop behind self.old.local.labels.items))) }
        ensures reader { OnOk result (IsReader self.new) }
    {
        self.push_body(alloc)?;
        let lines = one_brace(alloc)?;
        self.wait_words(alloc, lines, behind)?;
        Ok(())
    }

    fn end_kernel(&mut self, alloc: Global) -> Result<(), NoMemory>
        requires reader { IsReader self.old }
        ensures state { OnOk result (state_of self.new ≡ ended (read_of self.old) of_kernel) }
        ensures reader { OnOk result (IsReader self.new) }
    {
        self.push_body(alloc)?;
        let mut lines = Vec::new(alloc);
        push_fixed(alloc, &mut lines, b"}\n")?;
        self.wait(lines, Phase::Kernels);
        Ok(())
    }

    fn end_body(&mut self, alloc: Global, owner: Owner) -> Result<(), NoMemory>
        requires reader { IsReader self.old }
        ensures state { OnOk result (state_of self.new ≡ ended (read_of self.old) (owner_of self.old.local owner)) }
        ensures reader { OnOk result (IsReader self.new) }
    {
        match owner {
            Owner::Prelude => self.end_prelude(alloc),
            Owner::Make(label, behind) => self.end_make(alloc, label, behind),
            Owner::Take(behind) => self.end_take(alloc, behind),
            Owner::Kernel => self.end_kernel(alloc),
        }
    }

    /// Reads a line of the body that is open, which is no marker.
    #[tactic(auto, using(crate::proofs::Bodied::body_more))]
    fn pass(&mut self, alloc: Global, owner: Owner, line: &[u8]) -> Result<(), NoMemory>
        requires reader { IsReader self.old }
        requires plain { is_marker line.now ≡ false }
        requires line { is_line line.now ≡ true }
        ensures state { OnOk result (state_of self.new ≡ state (record (read_of self.old) { text = self.old.text.items ++ line.now }) [] (in_body (owner_of self.old.local owner))) }
        ensures reader { OnOk result (IsReader self.new) }
    {
        self.text.extend_from_slice(line)?;
        self.wait(Vec::new(alloc), Phase::Body(owner));
        Ok(())
    }

    fn take_body(&mut self, alloc: Global, owner: Owner, line: &[u8]) -> Result<bool, NoMemory>
        requires reader { IsReader self.old }
        requires line { is_line line.now ≡ true }
        ensures went { IfOk result (λ went. Went (body_step (read_of self.old) (owner_of self.old.local owner) line.now) went (state_of self.new)) }
        ensures reader { OnOk result (IsReader self.new) }
    {
        if !line.starts_with(b"/*@") {
            self.pass(alloc, owner, line)?;
            return Ok(true);
        }
        if !is_same(b"/*@ end */\n", line) {
            return Ok(false);
        }
        self.end_body(alloc, owner)?;
        Ok(true)
    }

    fn take_protocol(&mut self, alloc: Global, line: &[u8]) -> Result<bool, NoMemory>
        requires reader { IsReader self.old }
        ensures went { IfOk result (λ went. Went (free_step (read_of self.old) at_protocol line.now) went (state_of self.new)) }
        ensures reader { OnOk result (IsReader self.new) }
    {
        match read_protocol(alloc, line)? {
            None => Ok(false),
            Some(name) => {
                self.local.protocol = name;
                self.wait(Vec::new(alloc), Phase::Range);
                Ok(true)
            }
        }
    }

    fn take_range(&mut self, alloc: Global, line: &[u8]) -> Result<bool, NoMemory>
        requires reader { IsReader self.old }
        ensures went { IfOk result (λ went. Went (free_step (read_of self.old) at_range line.now) went (state_of self.new)) }
        ensures reader { OnOk result (IsReader self.new) }
    {
        match read_range(alloc, line)? {
            None => Ok(false),
            Some(range) => {
                self.local.range = range;
                self.wait(Vec::new(alloc), Phase::Roles);
                Ok(true)
            }
        }
    }

    /// Reads the line behind the last label's.
    fn take_buffers(&mut self, alloc: Global, line: &[u8]) -> Result<bool, NoMemory>
        requires reader { IsReader self.old }
        ensures went { IfOk result (λ went. Went (buffers_step (read_of self.old) line.now) went (state_of self.new)) }
        ensures reader { OnOk result (IsReader self.new) }
    {
        if !is_same(b"#include <mpi.h>\n", line) {
            return Ok(false);
        }
        let mut lines = Vec::new(alloc);
        push_all(
            alloc,
            &mut lines,
            &[
                b"#include <stdint.h>\n",
                b"static int32_t is[1024], ir[1024];\n",
                b"static uint32_t us[1024], ur[1024];\n",
                b"/*@ prelude */\n",
            ],
        )?;
        self.wait(lines, Phase::Body(Owner::Prelude));
        Ok(true)
    }

    #[tactic(auto, using(crate::proofs::Named::room_label, crate::proofs::Named::label_more))]
    fn push_label(&mut self, label: CoreLabel) -> Result<(), NoMemory>
        requires reader { IsReader self.old }
        requires fresh { IsFresh 4000 (names_of_labels self.old.local.labels.items) label.name }
        ensures read { OnOk result (read_of self.new ≡ record (read_of self.old) { labels = self.old.local.labels.items ++ label ∷ [] }) }
        ensures reader { OnOk result (IsReader self.new) }
    {
        self.label_names.intern(label.name)?;
        self.local.labels.push(label)?;
        Ok(())
    }

    fn put_label(
        &mut self,
        alloc: Global,
        line: &[u8],
        found: Option<CoreLabel>,
    ) -> Result<bool, NoMemory>
        requires reader { IsReader self.old }
        requires fresh { IfSome found (λ l. IsFresh 4000 (names_of_labels self.old.local.labels.items) l.name) }
        ensures went { IfOk result (λ went. Went (with_label (read_of self.old) line.now found) went (state_of self.new)) }
        ensures reader { OnOk result (IsReader self.new) }
    {
        match found {
            None => self.take_buffers(alloc, line),
            Some(label) => {
                self.push_label(label)?;
                self.wait(Vec::new(alloc), Phase::Labels);
                Ok(true)
            }
        }
    }

    fn take_label(&mut self, alloc: Global, line: &[u8]) -> Result<bool, NoMemory>
        requires reader { IsReader self.old }
        ensures went { IfOk result (λ went. Went (label_step (read_of self.old) line.now) went (state_of self.new)) }
        ensures reader { OnOk result (IsReader self.new) }
    {
        let found = read_label(alloc, &self.local.labels, &self.label_names, line)?;
        self.put_label(alloc, line, found)
    }

    #[tactic(auto, using(crate::proofs::Waits::small_more, crate::proofs::Named::room_role, crate::proofs::Named::role_more))]
    fn push_role(&mut self, role: Role) -> Result<(), NoMemory>
        requires reader { IsReader self.old }
        requires few { length self.old.local.roles.items < 64 }
        requires fresh { IsFresh 64 (names_of_roles self.old.local.roles.items) role.name }
        requires small { HasSmallEnds role }
        ensures read { OnOk result (read_of self.new ≡ record (read_of self.old) { roles = self.old.local.roles.items ++ role ∷ [] }) }
        ensures reader { OnOk result (IsReader self.new) }
    {
        self.role_names.intern(role.name)?;
        self.local.roles.push(role)?;
        Ok(())
    }

    fn put_size(&mut self, alloc: Global, line: &[u8], size: bool) -> Result<bool, NoMemory>
        requires reader { IsReader self.old }
        ensures went { IfOk result (λ went. Went (cond size (label_step (read_of self.old) line.now) None) went (state_of self.new)) }
        ensures reader { OnOk result (IsReader self.new) }
    {
        if size {
            self.take_label(alloc, line)
        } else {
            Ok(false)
        }
    }

    /// Reads the line behind the last role's.
    fn take_no_role(&mut self, alloc: Global, line: &[u8]) -> Result<bool, NoMemory>
        requires reader { IsReader self.old }
        ensures went { IfOk result (λ went. Went (with_role (read_of self.old) line.now None) went (state_of self.new)) }
        ensures reader { OnOk result (IsReader self.new) }
    {
        let size = has_size(self.local.range, &self.local.roles);
        self.put_size(alloc, line, size)
    }

    fn put_role(
        &mut self,
        alloc: Global,
        line: &[u8],
        found: Option<Role>,
    ) -> Result<bool, NoMemory>
        requires reader { IsReader self.old }
        requires few { IfSome found (λ r. length self.old.local.roles.items < 64) }
        requires small { IfSome found HasSmallEnds }
        requires fresh { IfSome found (λ r. IsFresh 64 (names_of_roles self.old.local.roles.items) r.name) }
        ensures went { IfOk result (λ went. Went (with_role (read_of self.old) line.now found) went (state_of self.new)) }
        ensures reader { OnOk result (IsReader self.new) }
    {
        match found {
            None => self.take_no_role(alloc, line),
            Some(role) => {
                self.push_role(role)?;
                self.wait(Vec::new(alloc), Phase::Roles);
                Ok(true)
            }
        }
    }

    fn take_role(&mut self, alloc: Global, line: &[u8]) -> Result<bool, NoMemory>
        requires reader { IsReader self.old }
        ensures went { IfOk result (λ went. Went (free_step (read_of self.old) at_roles line.now) went (state_of self.new)) }
        ensures reader { OnOk result (IsReader self.new) }
    {
        let found = read_role(
            alloc,
            self.local.range,
            &self.local.roles,
            &self.role_names,
            line,
        )?;
        self.put_role(alloc, line, found)
    }

    /// Reads main's head.
    fn take_main(&mut self, alloc: Global, line: &[u8]) -> Result<bool, NoMemory>
        requires reader { IsReader self.old }
        ensures went { IfOk result (λ went. Went (main_step (read_of self.old) line.now) went (state_of self.new)) }
        ensures reader { OnOk result (IsReader self.new) }
    {
        if !is_same(b"int main(int argc, char **argv)\n", line) {
            return Ok(false);
        }
        let lines = main_texts(alloc, self.local.range, &self.local.roles)?;
        self.wait(lines, Phase::Statements);
        Ok(true)
    }

    #[tactic(auto, using(crate::proofs::Named::room_kernel, crate::proofs::Named::kernel_more))]
    fn push_kernel(&mut self, kernel: CoreKernel) -> Result<(), NoMemory>
        requires reader { IsReader self.old }
        requires fresh { IsFresh 4000 (names_of_kernels self.old.local.kernels.items) kernel.name }
        ensures read { OnOk result (read_of self.new ≡ record (read_of self.old) { kernels = self.old.local.kernels.items ++ kernel ∷ [] }) }
        ensures reader { OnOk result (IsReader self.new) }
    {
        self.kernel_names.intern(kernel.name)?;
        self.local.kernels.push(kernel)?;
        Ok(())
    }

    fn open_kernel(&mut self, alloc: Global, kernel: CoreKernel) -> Result<(), NoMemory>
        requires reader { IsReader self.old }
        requires fresh { IsFresh 4000 (names_of_kernels self.old.local.kernels.items) kernel.name }
        ensures state { OnOk result (state_of self.new ≡ state (record (read_of self.old) { kernels = self.old.local.kernels.items ++ kernel ∷ [] }) (drop 1 (kernel_opening kernel)) (in_body of_kernel)) }
        ensures reader { OnOk result (IsReader self.new) }
    {
        self.push_kernel(kernel)?;
        let mut lines = Vec::new(alloc);
        push_kernel_opening(alloc, &mut lines, &kernel)?;
        self.wait(lines, Phase::Body(Owner::Kernel));
        Ok(())
    }

    fn put_kernel(
        &mut self,
        alloc: Global,
        line: &[u8],
        found: Option<CoreKernel>,
    ) -> Result<bool, NoMemory>
        requires reader { IsReader self.old }
        requires fresh { IfSome found (λ k. IsFresh 4000 (names_of_kernels self.old.local.kernels.items) k.name) }
        ensures went { IfOk result (λ went. Went (with_kernel (read_of self.old) line.now found) went (state_of self.new)) }
        ensures reader { OnOk result (IsReader self.new) }
    {
        match found {
            None => self.take_main(alloc, line),
            Some(kernel) => {
                self.open_kernel(alloc, kernel)?;
                Ok(true)
            }
        }
    }

    fn take_kernel(&mut self, alloc: Global, line: &[u8]) -> Result<bool, NoMemory>
        requires reader { IsReader self.old }
        ensures went { IfOk result (λ went. Went (free_step (read_of self.old) at_kernels line.now) went (state_of self.new)) }
        ensures reader { OnOk result (IsReader self.new) }
    {
        let found = read_kernel(alloc, &self.local.kernels, &self.kernel_names, line)?;
        self.put_kernel(alloc, line, found)
    }

    /// Reads a line where none is awaited.
    fn take_free(&mut self, alloc: Global, line: &[u8]) -> Result<bool, NoMemory>
        requires reader { IsReader self.old }
        requires line { is_line line.now ≡ true }
        ensures went { IfOk result (λ went. Went (free_step (read_of self.old) (phase_of self.old.local self.old.phase) line.now) went (state_of self.new)) }
        ensures reader { OnOk result (IsReader self.new) }
    {
        match self.phase {
            Phase::Protocol => self.take_protocol(alloc, line),
            Phase::Range => self.take_range(alloc, line),
            Phase::Roles => self.take_role(alloc, line),
            Phase::Labels => self.take_label(alloc, line),
            Phase::Body(owner) => self.take_body(alloc, owner, line),
            Phase::Kernels => self.take_kernel(alloc, line),
            Phase::Statements => Ok(false),
        }
    }

    /// Whether the line is the one that is awaited; none where none is.
    #[tactic(auto, using(crate::proofs::Waits::none_left))]
    fn awaits(&self, line: &[u8]) -> Option<bool>
        ensures step { MatchOption result ((r : R.Read) (phase : R.Phase) → step_at r (drop self.now.at (texts_of self.now.awaited.items)) phase line.now ≡ free_step r phase line.now) (λ same. (r : R.Read) (phase : R.Phase) → step_at r (drop self.now.at (texts_of self.now.awaited.items)) phase line.now ≡ (if same then Some (state r (drop (self.now.at + 1) (texts_of self.now.awaited.items)) phase) else None)) }
        ensures within { IfSome result (λ same. self.now.at < length self.now.awaited.items) }
    {
        if self.at < self.awaited.len() {
            return Some(is_at(&self.awaited, self.at, line));
        }
        None
    }

    /// Reads one line more, given with its line feed. False exactly where it may not stand there; the reader may then be
    /// in any state.
    pub fn take(&mut self, alloc: Global, line: &[u8]) -> Result<bool, NoMemory>
        requires reader { IsReader self.old }
        requires line { is_line line.now ≡ true }
        ensures went { IfOk result (λ went. Went (step (state_of self.old) line.now) went (state_of self.new)) }
        ensures reader { OnOk result (IsReader self.new) }
    {
        match self.awaits(line) {
            Some(false) => Ok(false),
            Some(true) => {
                self.at += 1;
                Ok(true)
            }
            None => self.take_free(alloc, line),
        }
    }

    /// True where the lines before the statements are at an end.
    #[tactic(auto, using(crate::proofs::Waits::done_left, crate::proofs::Waits::some_left))]
    pub fn is_done(&self) -> bool
        ensures { result ≡ is_done (state_of self.now) }
    {
        if self.at < self.awaited.len() {
            return false;
        }
        is_statements(self.phase)
    }
}

/// Whether the line is the one that stands there.
fn is_at(lines: &[Vec<u8>], at: usize, line: &[u8]) -> bool
    requires { at < length lines.now }
    ensures { (r : R.Read) (phase : R.Phase) → step_at r (drop at (texts_of lines.now)) phase line.now ≡ (if result then Some (state r (drop (at + 1) (texts_of lines.now)) phase) else None) }
{
    let text = &lines[at];
    is_same(text, line)
}

fn is_statements(phase: Phase) -> bool
    ensures { (local : Local) → result ≡ is_statements (phase_of local phase) }
{
    match phase {
        Phase::Statements => true,
        Phase::Protocol => false,
        Phase::Range => false,
        Phase::Roles => false,
        Phase::Labels => false,
        Phase::Body(_) => false,
        Phase::Kernels => false,
    }
}
