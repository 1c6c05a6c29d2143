//! The core of a protocol file.

ghost use Rattle.std.specs.Prelude.{◌≡◌, ◌≤◌, IfOk, IfErr, IsErrOf};
ghost use Rattle.pb_io.specs.Faults.{Rose};
ghost use Rattle.pb_io.specs.Files.{IsSureOf};
ghost use Rattle.pb_core_language.specs.Plain.{plain};
ghost use Rattle.pb_cli_status.specs.Lines.{line_of, status_of};
ghost use Rattle.pb_cli_file.specs.Files.{IsFileRefusal, IsMeaningOf};

use crate::file::bytes_in;
use pb_cli_status::Refusal;
use pb_cli_verdict::refusal_of;
use pb_compile::{Core, accept};
use pb_io::Folder;
use std::alloc::Global;

/// The core of the protocol in a file, or why there is none.
#[tactic(auto, using(crate::proofs::Answered::meaning, crate::proofs::Answered::refused))]
pub fn core_in<F: Folder>(alloc: Global, folder: &mut F, file: &str) -> Result<Core, Refusal>
    ensures core { IfOk result (λ core. IsMeaningOf file.now (F.holds folder.old) (plain core)) }
    ensures denied { IfErr result (λ why. IsFileRefusal file.now (F.holds folder.old) (status_of why) (line_of why)) }
    ensures fault { IsErrOf result Refusal.ReadFault → Rose (F.faults folder.old) (F.faults folder.new) }
    ensures sure { IsErrOf result Refusal.ReadFault → IsSureOf (F.steady folder.old) (F.holds folder.old) file.now → ⊥ }
    ensures later { F.faults folder.old ≤ F.faults folder.new }
    ensures holds { F.holds folder.new ≡ F.holds folder.old }
    ensures steady { F.steady folder.new ≡ F.steady folder.old }
{
    let bytes = match bytes_in(alloc, folder, file) {
        Ok(bytes) => bytes,
        Err(why) => return Err(why),
    };
    match accept(alloc, &bytes) {
        Ok(core) => Ok(core),
        Err(verdict) => Err(refusal_of(verdict)),
    }
}
