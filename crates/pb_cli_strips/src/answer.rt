//! The protocol file that a file with strips stands for.

ghost use Rattle.std.specs.Prelude.{◌≡◌, ◌≤◌, length, IfOk, IfErr, IfSome, IsErrOf};
ghost use Rattle.pb_text.specs.declared.limits.TheConstants.{MOST_TEXT_BYTES};
ghost use Rattle.pb_io.specs.Faults.{Rose};
ghost use Rattle.pb_io.specs.Files.{IsSureOf};
ghost use Rattle.pb_strips_syntax.specs.Plain.{plain_file};
ghost use Rattle.pb_cli_file.specs.Files.{Answers};
ghost use Rattle.pb_cli_strips.specs.Strips.{IsFlattened, IsStripsReply, IsPrinted, IsUnflattened, IsUnprinted};

use crate::refusals::{strip_refusal, text_refusal};
use pb_cli_file::{Answer, bytes_in};
use pb_cli_status::Refusal;
use pb_io::Folder;
use pb_strips::flatten;
use pb_strips_parse::read_strips;
use pb_strips_syntax::StripTree;
use pb_syntax::print_file;
use pb_text::NoMemory;
use std::alloc::Global;

/// The printed file in which each column of a strip is a role of its own, or why there is none.
#[tactic(auto, using(crate::proofs::Told::printed_file, crate::proofs::Told::unheld, crate::proofs::Told::unprinted))]
fn printed(alloc: Global, strips: &StripTree) -> Result<Vec<u8>, Refusal>
    ensures done { IfOk result (λ text. IsPrinted (plain_file strips.now) text.items) }
    ensures denied { IfErr result (IsUnprinted (plain_file strips.now)) }
{
    match flatten(alloc, strips) {
        Ok(file) => match print_file(alloc, &file) {
            Ok(text) => Ok(text),
            Err(NoMemory) => Err(Refusal::NoMemory),
        },
        Err(fault) => Err(strip_refusal(fault)),
    }
}

/// The same of the bytes of a file.
#[tactic(auto, using(crate::proofs::Told::flattened, crate::proofs::Told::unread, crate::proofs::Told::unflattened))]
fn flattened(alloc: Global, bytes: &[u8]) -> Result<Vec<u8>, Refusal>
    requires { length bytes.now ≤ MOST_TEXT_BYTES }
    ensures done { IfOk result (λ text. IsFlattened bytes.now text.items) }
    ensures denied { IfErr result (IsUnflattened bytes.now) }
{
    match read_strips(alloc, bytes) {
        Ok(strips) => match printed(alloc, &strips) {
            Ok(text) => Ok(text),
            Err(why) => Err(why),
        },
        Err(fault) => Err(text_refusal(fault)),
    }
}

/// Why the bytes of a file aren't flattened, at most 67,108,864, or None where they are.
pub fn refusal_in(alloc: Global, bytes: &[u8]) -> Option<Refusal>
    requires { length bytes.now ≤ MOST_TEXT_BYTES }
    ensures { IfSome result (IsUnflattened bytes.now) }
{
    flattened(alloc, bytes).err()
}

/// The same of a file, or why there is none.
#[tactic(auto, using(crate::proofs::Told::done, crate::proofs::Told::told, crate::proofs::Told::denied))]
pub(crate) fn answer_in<F: Folder>(
    alloc: Global,
    folder: &mut F,
    file: &str,
) -> Result<Answer, Refusal>
    ensures reply { Answers result (IsStripsReply file.now (F.holds folder.old)) }
    ensures fault { IsErrOf result Refusal.ReadFault → Rose (F.faults folder.old) (F.faults folder.new) }
    ensures sure { IsErrOf result Refusal.ReadFault → IsSureOf (F.steady folder.old) (F.holds folder.old) file.now → ⊥ }
{
    let bytes = match bytes_in(alloc, folder, file) {
        Ok(bytes) => bytes,
        Err(why) => return Err(why),
    };
    match flattened(alloc, &bytes) {
        Ok(text) => Ok(Answer::Text(text)),
        Err(why) => Err(why),
    }
}
