ghost use Rattle.std.specs.Prelude.{◌≡◌, ℕ, List, IfErr, IfOk, map};
ghost use Rattle.pb_local.specs.Tree.{codes_of, plain, program_of};
ghost use Rattle.pb_ctree.specs.Texts.{Spells};
ghost use Rattle.pb_cread_frame.specs.Reading.{Read};
ghost use Rattle.pb_cread_frame.specs.Views.{read_of};
ghost use Rattle.pb_cread_lines.specs.Head.{HasHead};
ghost use Rattle.pb_cread_statements.specs.Reading.{nothing_read};
ghost use Rattle.pb_cread.specs.Faults.{IsFault};
ghost use Rattle.pb_cread.specs.Limits.{KeepsLimits};
ghost use Rattle.pb_cread.specs.Reached.{InMain, IsWhole, headed, with_body};

use crate::ending::read_ending;
use crate::fault::{CText, TextFault};
use crate::frame::read_frame;
use crate::lines::Lines;
use crate::statements::read_statements;
use pb_cread_frame::FrameReader;
use pb_ctree::{Bodies, Local, Stmt, emit};
use std::alloc::Global;

/// The C tree and the bodies that the bytes spell, where at most 256 braces of `main` are open behind each line, its own
/// with them, and there are at most 50,000 statements. `docs/FORMATS.md` has the format.
///
/// It takes time linear in the bytes, and never recurses. The faults are those of `TextFault`, and want of memory may come
/// before any of them.
pub fn read_c(alloc: Global, bytes: &[u8]) -> Result<CText, TextFault>
    ensures spells { IfOk result (λ text. Spells text.tree text.bodies bytes.now) }
    ensures limits { IfOk result (λ text. KeepsLimits (program_of text.tree.local)) }
    ensures fault { IfErr result (IsFault bytes.now) }
{
    let mut lines = Lines::of(bytes);
    let frame = match read_frame(alloc, &mut lines) {
        Ok(frame) => frame,
        Err(fault) => return Err(fault),
    };
    let (mut local, bodies) = without_statements(alloc, frame);
    match read_body(alloc, &local, &mut lines) {
        Ok(body) => local.body = body,
        Err(fault) => return Err(fault),
    }
    let tree = emit(alloc, &local)?;
    Ok(CText { tree, bodies })
}

/// The tables without a statement, and the bodies, of the lines before main's statements.
fn without_statements(alloc: Global, frame: FrameReader) -> (Local, Bodies)
    ensures tables { program_of result.0 ≡ headed (read_of frame) }
    ensures prelude { result.1.prelude ≡ (read_of frame).prelude }
    ensures list { result.1.list.items ≡ (read_of frame).bodies }
{
    let mut local = frame.local;
    local.body = Vec::new(alloc);
    let bodies = Bodies {
        prelude: frame.prelude,
        list: frame.bodies,
    };
    (local, bodies)
}

/// Reads main's statements, and the rest of the text.
fn read_body(alloc: Global, local: &Local, lines: &mut Lines) -> Result<Vec<Stmt>, TextFault>
    requires head { HasHead (program_of local.now) }
    ensures read { IfOk result (λ v. (text : List ℕ) (r : Read) → InMain text lines.old.rest.now lines.old.line r (program_of local.now) nothing_read → IsWhole text r (with_body (program_of local.now) (codes_of (map plain v.items)))) }
    ensures fault { IfErr result (λ e. (text : List ℕ) (r : Read) → InMain text lines.old.rest.now lines.old.line r (program_of local.now) nothing_read → IsFault text e) }
{
    match read_statements(alloc, local, lines) {
        Ok(body) => match read_ending(lines) {
            Ok(()) => Ok(body),
            Err(fault) => Err(fault),
        },
        Err(fault) => Err(fault),
    }
}
