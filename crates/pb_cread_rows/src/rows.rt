//! Reads the lines of the tables: each is guessed, spelled once more, and compared.

ghost use Rattle.std.specs.Prelude.{◌≡◌, ◌<◌, IfOk, IfSome, length};
ghost use Rattle.pb_local.specs.Names.{is_name};
ghost use Rattle.pb_ctree.specs.Rules.{is_range, is_role, is_label_row, is_kernel_row};
ghost use Rattle.pb_ctree.specs.Sums.{HasSmallEnds};
ghost use Rattle.pb_cread_rows.specs.Guesses.{protocol_guess, range_guess, role_guess, label_guess, kernel_guess, if_spelled};
ghost use Rattle.pb_cread_rows.specs.Spelled.{protocol_text, range_line, role_line, label_line, kernel_line, names_of_roles, names_of_labels, names_of_kernels, IsFresh};

use crate::guess::{kernel_guess, label_guess, protocol_guess, range_guess, role_guess};
use crate::names::is_name;
use crate::rules::{is_kernel_row, is_label_row, is_range, is_role};
use pb_cprint::{push_kernel_head, push_label, push_range, push_role};
use pb_ctree::{CoreKernel, CoreLabel, NRange, Name, NoMemory, Role};
use pb_local::push_pieces;
use pb_text::Names;
use std::alloc::Global;

fn protocol_line(alloc: Global, name: &Name) -> Result<Vec<u8>, NoMemory>
    ensures { IfOk result (λ line. line.items ≡ protocol_text name.now) }
{
    let mut line = Vec::new(alloc);
    push_pieces(&mut line, &[b"/* protocol ", name.bytes(), b" */"])?;
    line.push(b'\n')?;
    Ok(line)
}

/// The name in the protocol's line. `None` where the line isn't spelled so, or the word is no name.
pub fn read_protocol(alloc: Global, line: &[u8]) -> Result<Option<Name>, NoMemory>
    ensures { IfOk result (λ name. name ≡ if_spelled protocol_text is_name line.now (protocol_guess line.now)) }
{
    match protocol_guess(line) {
        None => Ok(None),
        Some(name) => {
            let text = protocol_line(alloc, &name)?;
            if text.as_slice() == line && is_name(name.bytes()) {
                return Ok(Some(name));
            }
            Ok(None)
        }
    }
}

/// The range in the line of N. `None` where the line isn't spelled so, or it is no range.
#[tactic(auto, unfolding(pb_cprint::specs::Framed::range_line))]
pub fn read_range(alloc: Global, line: &[u8]) -> Result<Option<NRange>, NoMemory>
    ensures { IfOk result (λ range. range ≡ if_spelled range_line is_range line.now (range_guess line.now)) }
{
    match range_guess(line) {
        None => Ok(None),
        Some(range) => {
            let mut text = Vec::new(alloc);
            push_range(&mut text, range)?;
            if text.as_slice() == line && is_range(range) {
                return Ok(Some(range));
            }
            Ok(None)
        }
    }
}

/// The role in a role's line, behind the roles before and their names. `None` where the line isn't spelled so, or the role
/// may not stand there.
#[tactic(auto, unfolding(pb_cprint::specs::Framed::role_line), using(crate::proofs::RuleParts::role_small, crate::proofs::RuleParts::role_few, crate::proofs::RuleParts::role_fresh))]
pub fn read_role(
    alloc: Global,
    range: NRange,
    before: &[Role],
    names: &Names,
    line: &[u8],
) -> Result<Option<Role>, NoMemory>
    requires names { names.now ≡ names_of_roles before.now }
    ensures read { IfOk result (λ role. role ≡ if_spelled role_line (is_role range (names_of_roles before.now)) line.now (role_guess line.now)) }
    ensures small { IfOk result (λ role. IfSome role HasSmallEnds) }
    ensures few { IfOk result (λ role. IfSome role (λ r. length before.now < 64)) }
    ensures fresh { IfOk result (λ role. IfSome role (λ r. IsFresh 64 (names_of_roles before.now) r.name)) }
{
    match role_guess(line) {
        None => Ok(None),
        Some(role) => {
            let mut text = Vec::new(alloc);
            push_role(&mut text, &role)?;
            if text.as_slice() == line && is_role(range, before, names, &role) {
                return Ok(Some(role));
            }
            Ok(None)
        }
    }
}

/// The label in a label's line, behind the labels before and their names. `None` where the line isn't spelled so, or the
/// label may not stand there.
#[tactic(auto, unfolding(pb_cprint::specs::Framed::label_line), using(crate::proofs::RuleParts::label_fresh))]
pub fn read_label(
    alloc: Global,
    before: &[CoreLabel],
    names: &Names,
    line: &[u8],
) -> Result<Option<CoreLabel>, NoMemory>
    requires names { names.now ≡ names_of_labels before.now }
    ensures read { IfOk result (λ label. label ≡ if_spelled label_line (is_label_row (names_of_labels before.now)) line.now (label_guess line.now)) }
    ensures fresh { IfOk result (λ label. IfSome label (λ l. IsFresh 4000 (names_of_labels before.now) l.name)) }
{
    match label_guess(line) {
        None => Ok(None),
        Some(label) => {
            let mut text = Vec::new(alloc);
            push_label(&mut text, &label)?;
            if text.as_slice() == line && is_label_row(before, names, &label) {
                return Ok(Some(label));
            }
            Ok(None)
        }
    }
}

/// The kernel in the first line of its function, behind the kernels before and their names. `None` where the line isn't
/// spelled so, or the kernel may not stand there.
#[tactic(auto, unfolding(pb_cprint::specs::Framed::kernel_line), using(crate::proofs::RuleParts::kernel_fresh))]
pub fn read_kernel(
    alloc: Global,
    before: &[CoreKernel],
    names: &Names,
    line: &[u8],
) -> Result<Option<CoreKernel>, NoMemory>
    requires names { names.now ≡ names_of_kernels before.now }
    ensures read { IfOk result (λ kernel. kernel ≡ if_spelled kernel_line (is_kernel_row (names_of_kernels before.now)) line.now (kernel_guess line.now)) }
    ensures fresh { IfOk result (λ kernel. IfSome kernel (λ k. IsFresh 4000 (names_of_kernels before.now) k.name)) }
{
    match kernel_guess(line) {
        None => Ok(None),
        Some(kernel) => {
            let mut text = Vec::new(alloc);
            push_kernel_head(&mut text, &kernel)?;
            if text.as_slice() == line && is_kernel_row(before, names, &kernel) {
                return Ok(Some(kernel));
            }
            Ok(None)
        }
    }
}
