//! The bytes of a protocol file, and what is wanted of it.

ghost use Rattle.std.specs.Prelude.{◌≡◌, ◌≤◌, length, IfOk, IfErr, IsErrOf};
ghost use Rattle.pb_io.specs.Faults.{Rose};
ghost use Rattle.pb_io.specs.Files.{IsContent, IsSureOf};
ghost use Rattle.pb_cli_status.specs.Lines.{line_of, status_of};
ghost use Rattle.pb_compile.specs.Verdict.{IsVerdict};
ghost use Rattle.pb_cli_file.specs.Files.{Answers, IsFileRefusal, IsFileReply, IsUnread, Makes, bytes_of, most_bytes};

use crate::answer::{Answer, Wanted};
use pb_cli_status::Refusal;
use pb_cli_verdict::refusal_of;
use pb_compile::{Verdict, accept, generate, lay_out};
use pb_io::{Folder, InFault, read_all};
use std::alloc::Global;

/// The greatest number of bytes of a protocol file and of a kernel file.
const MOST_BYTES: u32 = 1_048_576;

/// The bytes of a protocol file or a kernel file, or why there are none.
pub fn bytes_in<F: Folder>(alloc: Global, folder: &mut F, file: &str) -> Result<Vec<u8>, Refusal>
    ensures whole { IfOk result (λ bytes. IsContent (F.holds folder.old) file.now bytes.items) }
    ensures short { IfOk result (λ bytes. length bytes.items ≤ most_bytes) }
    ensures denied { IfErr result (λ why. IsFileRefusal file.now (F.holds folder.old) (status_of why) (line_of why)) }
    ensures unread { IfErr result (IsUnread file.now (F.holds folder.old)) }
    ensures fault { IsErrOf result Refusal.ReadFault → Rose (F.faults folder.old) (F.faults folder.new) }
    ensures sure { IsErrOf result Refusal.ReadFault → IsSureOf (F.steady folder.old) (F.holds folder.old) file.now → ⊥ }
    ensures later { F.faults folder.old ≤ F.faults folder.new }
    ensures holds { F.holds folder.new ≡ F.holds folder.old }
    ensures steady { F.steady folder.new ≡ F.steady folder.old }
{
    match read_all(alloc, folder, file, MOST_BYTES) {
        Ok(bytes) => Ok(bytes),
        Err(InFault::ReadFault) => Err(Refusal::ReadFault),
        Err(InFault::TooLong) => Err(Refusal::FileBytes),
        Err(InFault::NoMemory) => Err(Refusal::NoMemory),
    }
}

/// What is wanted of the protocol in a file, or why there is none.
#[tactic(auto, using(crate::proofs::Answered::done, crate::proofs::Answered::told, crate::proofs::Answered::unread))]
pub fn file_answer<F: Folder>(
    alloc: Global,
    folder: &mut F,
    file: &str,
    wanted: Wanted,
) -> Result<Answer, Refusal>
    ensures reply { Answers result (IsFileReply (Makes wanted) file.now (F.holds folder.old)) }
    ensures fault { IsErrOf result Refusal.ReadFault → Rose (F.faults folder.old) (F.faults folder.new) }
    ensures sure { IsErrOf result Refusal.ReadFault → IsSureOf (F.steady folder.old) (F.holds folder.old) file.now → ⊥ }
{
    let bytes = match bytes_in(alloc, folder, file) {
        Ok(bytes) => bytes,
        Err(why) => return Err(why),
    };
    match text_answer(alloc, &bytes, wanted) {
        Ok(answer) => Ok(answer),
        Err(verdict) => Err(refusal_of(verdict)),
    }
}

/// What is wanted of the protocol with these bytes, or the verdict on them.
fn text_answer(alloc: Global, bytes: &[u8], wanted: Wanted) -> Result<Answer, Verdict>
    requires { length bytes.now ≤ most_bytes }
    ensures answer { IfOk result (λ answer. Makes wanted bytes.now (bytes_of answer)) }
    ensures verdict { IfErr result (IsVerdict bytes.now) }
{
    match wanted {
        Wanted::Verdict => accepted(alloc, bytes),
        Wanted::Text => match generate(alloc, bytes) {
            Ok(text) => Ok(Answer::Text(text)),
            Err(verdict) => Err(verdict),
        },
        Wanted::Layout => match lay_out(alloc, bytes) {
            Ok(text) => Ok(Answer::Text(text)),
            Err(verdict) => Err(verdict),
        },
    }
}

/// The line of an accepted file.
#[tactic(auto, using(crate::proofs::Answered::checked))]
fn accepted(alloc: Global, bytes: &[u8]) -> Result<Answer, Verdict>
    requires { length bytes.now ≤ most_bytes }
    ensures answer { IfOk result (λ answer. Makes Wanted.Verdict bytes.now (bytes_of answer)) }
    ensures verdict { IfErr result (IsVerdict bytes.now) }
{
    let _core = accept(alloc, bytes)?;
    Ok(Answer::Accepted)
}
