//! The protocol file that a file with subprotocols stands for.

ghost use Rattle.std.specs.Prelude.{◌≡◌, ◌≤◌, length, IfOk, IfErr, IfSome, IsErrOf};
ghost use Rattle.pb_text.specs.declared.limits.TheConstants.{MOST_TEXT_BYTES};
ghost use Rattle.pb_io.specs.Faults.{Rose};
ghost use Rattle.pb_io.specs.Files.{IsSureOf};
ghost use Rattle.pb_do_syntax.specs.Plain.{plain_file};
ghost use Rattle.pb_cli_file.specs.Files.{Answers};
ghost use Rattle.pb_cli_expand.specs.Expand.{IsExpanded, IsExpandReply, IsReplaced, IsUnexpanded, IsUnreplaced};

use crate::refusals::{call_refusal, text_refusal};
use pb_cli_file::{Answer, bytes_in};
use pb_cli_status::Refusal;
use pb_do::inline;
use pb_do_parse::read_calls;
use pb_do_syntax::CallTree;
use pb_io::Folder;
use pb_syntax::print_file;
use pb_text::NoMemory;
use std::alloc::Global;

/// The printed file in which each call is replaced, or why there is none.
#[tactic(auto, using(crate::proofs::Told::replaced, crate::proofs::Told::unprinted, crate::proofs::Told::unreplaced))]
fn replaced(alloc: Global, calls: &CallTree) -> Result<Vec<u8>, Refusal>
    ensures done { IfOk result (λ text. IsReplaced (plain_file calls.now) text.items) }
    ensures denied { IfErr result (IsUnreplaced (plain_file calls.now)) }
{
    match inline(alloc, calls) {
        Ok(file) => match print_file(alloc, &file) {
            Ok(text) => Ok(text),
            Err(NoMemory) => Err(Refusal::NoMemory),
        },
        Err(fault) => Err(call_refusal(fault)),
    }
}

/// The same of the bytes of a file.
#[tactic(auto, using(crate::proofs::Told::expanded, crate::proofs::Told::unread, crate::proofs::Told::unexpanded))]
fn expanded(alloc: Global, bytes: &[u8]) -> Result<Vec<u8>, Refusal>
    requires { length bytes.now ≤ MOST_TEXT_BYTES }
    ensures done { IfOk result (λ text. IsExpanded bytes.now text.items) }
    ensures denied { IfErr result (IsUnexpanded bytes.now) }
{
    match read_calls(alloc, bytes) {
        Ok(calls) => match replaced(alloc, &calls) {
            Ok(text) => Ok(text),
            Err(why) => Err(why),
        },
        Err(fault) => Err(text_refusal(fault)),
    }
}

/// Why the bytes of a file aren't expanded, at most 67,108,864, or None where they are.
pub fn refusal_in(alloc: Global, bytes: &[u8]) -> Option<Refusal>
    requires { length bytes.now ≤ MOST_TEXT_BYTES }
    ensures { IfSome result (IsUnexpanded bytes.now) }
{
    expanded(alloc, bytes).err()
}

/// The same of a file, or why there is none.
#[tactic(auto, using(crate::proofs::Told::done, crate::proofs::Told::told, crate::proofs::Told::denied))]
pub(crate) fn answer_in<F: Folder>(
    alloc: Global,
    folder: &mut F,
    file: &str,
) -> Result<Answer, Refusal>
    ensures reply { Answers result (IsExpandReply file.now (F.holds folder.old)) }
    ensures fault { IsErrOf result Refusal.ReadFault → Rose (F.faults folder.old) (F.faults folder.new) }
    ensures sure { IsErrOf result Refusal.ReadFault → IsSureOf (F.steady folder.old) (F.holds folder.old) file.now → ⊥ }
{
    let bytes = match bytes_in(alloc, folder, file) {
        Ok(bytes) => bytes,
        Err(why) => return Err(why),
    };
    match expanded(alloc, &bytes) {
        Ok(text) => Ok(Answer::Text(text)),
        Err(why) => Err(why),
    }
}
