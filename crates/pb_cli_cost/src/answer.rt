//! What is told of a protocol file.

ghost use Rattle.std.specs.Prelude.{◌≡◌, IfOk, IfErr, IsErrOf};
ghost use Rattle.pb_io.specs.Faults.{Rose};
ghost use Rattle.pb_io.specs.Files.{IsSureOf};
ghost use Rattle.pb_io.specs.Unread.{IsUnread};
ghost use Rattle.pb_core_language.specs.Plain.{plain};
ghost use Rattle.pb_cost.specs.Costs.{IsCountable};
ghost use Rattle.pb_cli_status.specs.Lines.{line_of, status_of};
ghost use Rattle.pb_cli_status.specs.declared.status.Status.TheVariants as S;
ghost use Rattle.pb_cli_cost.specs.Cost.{IsCostAnswer, IsCostReply};

use crate::lines::lines;
use pb_cli_file::core_in;
use pb_cli_status::Refusal;
use pb_cost::{Core, CostFault, cost_of};
use pb_io::Folder;
use pb_text::NoMemory;
use std::alloc::Global;

/// The lines of an accepted protocol, or why there are none.
#[tactic(auto, using(crate::proofs::Told::done, crate::proofs::Told::looped, crate::proofs::Told::crowded))]
fn lines_of(alloc: Global, core: &Core) -> Result<Vec<u8>, Refusal>
    requires { IsCountable (plain core.now) }
    ensures done { IfOk result (λ text. IsCostAnswer (plain core.now) S.Done text.items) }
    ensures denied { IfErr result (λ why. IsCostAnswer (plain core.now) (status_of why) (line_of why)) }
{
    match cost_of(alloc, core) {
        Ok(cost) => match lines(alloc, &cost) {
            Ok(text) => Ok(text),
            Err(NoMemory) => Err(Refusal::NoMemory),
        },
        Err(CostFault::HasLoop(place)) => Err(Refusal::CostLoop(place)),
        Err(CostFault::TooManyPieces) => Err(Refusal::Pieces),
        Err(CostFault::NoMemory) => Err(Refusal::NoMemory),
    }
}

/// The lines of the protocol in a file, or why there are none.
#[tactic(auto, using(crate::proofs::Told::countable, crate::proofs::Told::told, crate::proofs::Told::denied))]
pub fn lines_in<F: Folder>(alloc: Global, folder: &mut F, file: &str) -> Result<Vec<u8>, Refusal>
    ensures done { IfOk result (λ text. IsCostReply (IsUnread (F.steady folder.old) (F.holds folder.old) (F.faults folder.old) (F.faults folder.new)) file.now (F.holds folder.old) S.Done text.items) }
    ensures denied { IfErr result (λ why. IsCostReply (IsUnread (F.steady folder.old) (F.holds folder.old) (F.faults folder.old) (F.faults folder.new)) file.now (F.holds folder.old) (status_of why) (line_of why)) }
    ensures fault { IsErrOf result Refusal.ReadFault → Rose (F.faults folder.old) (F.faults folder.new) }
    ensures sure { IsErrOf result Refusal.ReadFault → IsSureOf (F.steady folder.old) (F.holds folder.old) file.now → ⊥ }
{
    match core_in(alloc, folder, file) {
        Ok(core) => match lines_of(alloc, &core) {
            Ok(text) => Ok(text),
            Err(why) => Err(why),
        },
        Err(why) => Err(why),
    }
}
