//! What is to become of OUT and OUT.left.

ghost use Rattle.std.specs.Prelude.{◌≡◌, ◌≤◌, false, IfErr, IfOk, IfSome};
ghost use Rattle.std.specs.Option.{option_map};
ghost use Rattle.std.specs.String.{string_bytes};
ghost use Rattle.pb_io.specs.Files.{content_of};
ghost use Rattle.pb_ctree.specs.Trees.{IsTree};
ghost use Rattle.pb_renew.specs.Places.{Agrees};
ghost use Rattle.pb_renew.specs.Plans.{IsFor, IsPlan, IsPutTogether, WasTold};
ghost use Rattle.pb_renew.specs.Reasons.{IsRead, IsReasonWith};
ghost use Rattle.pb_renew_put.specs.Jobs.{behind_of, task_of};

use crate::content::{bytes_in, content};
use crate::leaving::leaving_of;
use crate::losing::Losing;
use crate::made::{Made, made_of};
use crate::place::Place;
use crate::unrenewed::Unrenewed;
use crate::{NoMemory, Wanted};
use pb_io::Folder;
use pb_kernels::{KName, KernelFile};
use pb_renew_lines::CText;
use pb_renew_put::{Job, Leaving};
use std::alloc::Global;

/// What is to become of OUT and OUT.left, and what a person is told of it.
#[derive(Drop)]
pub struct Plan {
    pub job: Job,
    /// The bodies of the old OUT.
    pub old: KernelFile,
    /// The bodies of the text that OUT gets.
    pub kept: KernelFile,
    /// The names of the old bodies that this text lacks, in their order.
    pub gone: Vec<KName>,
    /// What the old OUT is, where the compiler spells it so.
    pub before: Option<CText>,
}

/// Plans the renewing of OUT for the protocol FILE, which has these bytes: it gets the text that is wanted, with each body that it
/// has and that still has a function whose parameters allow it, and default bodies for the others. The bodies that this text lacks go
/// to OUT.left, behind what is there; it isn't read where none goes there. A missing OUT is one without a body.
///
/// Where lines are refused that would be lost, `Indented` names the first line of OUT that looks like a marker that is indented,
/// and `Outside` the first one outside of bodies that isn't the compiler's (or blank). An OUT that is no kernel file, or has bytes and no
/// body, is `Out`. Of OUT.left `LeftIndented` and `Left` say the same, and `Left` comes also where it has another body with the name of
/// one that is gone. Both files have at most 67,108,864 bytes.
pub fn plan_for<F: Folder>(
    alloc: Global,
    folder: &mut F,
    wanted: &Wanted,
    file: &str,
    source: Vec<u8>,
    place: Place,
    losing: Losing,
) -> Result<Plan, Unrenewed>
    requires { IsTree wanted.now.tree }
    ensures plan { IfOk result (IsPlan wanted.now) }
    ensures job { IfOk result (λ plan. IsFor file.now source.items place plan.job) }
    ensures told { IfOk result (λ plan. IfSome (F.holds folder.old) (λ files. Agrees place files → WasTold (task_of plan.job) place files)) }
    ensures spared { IfOk result (λ plan. losing ≡ Losing.Refused → plan.job.keeps_old ≡ false) }
    ensures refused { IfErr result (λ why. IfSome (F.holds folder.old) (λ files. Agrees place files
        → IsReasonWith losing (content_of files (string_bytes place.out)) (content_of files (string_bytes place.left)) wanted.now why)) }
    ensures read { IfErr result (λ why. IsRead why (F.faults folder.old) (F.faults folder.new)) }
    ensures holds { F.holds folder.new ≡ F.holds folder.old }
    ensures later { F.faults folder.old ≤ F.faults folder.new }
{
    let old = match content(alloc, folder, &place.out, place.is_out) {
        Ok(old) => old,
        Err(why) => return Err(why),
    };
    let made = match made_of(alloc, wanted, bytes_in(&old), losing) {
        Ok(made) => made,
        Err(why) => return Err(why),
    };
    let leaving = match leaving_of(alloc, folder, &place, &made.renewed, losing) {
        Ok(leaving) => leaving,
        Err(why) => return Err(why),
    };
    match planned(alloc, file, source, place, old, made, leaving) {
        Ok(plan) => Ok(plan),
        Err(NoMemory) => Err(Unrenewed::NoMemory),
    }
}

fn planned(
    alloc: Global,
    file: &str,
    source: Vec<u8>,
    place: Place,
    old: Option<Vec<u8>>,
    made: Made,
    leaving: Option<Leaving>,
) -> Result<Plan, NoMemory>
    ensures job { IfOk result (λ plan. IsFor file.now source.items place plan.job) }
    ensures parts { IfOk result (IsPutTogether (option_map (λ bytes. bytes.items) old) made (option_map behind_of leaving)) }
{
    let Place { out, .. } = place;
    let Made {
        renewed,
        before,
        is_losing,
    } = made;
    let job = Job {
        file: String::from_str(alloc, file)?,
        source,
        out,
        old,
        text: renewed.text,
        leaving,
        keeps_old: is_losing,
    };
    Ok(Plan {
        job,
        old: renewed.old,
        kept: renewed.kept,
        gone: renewed.gone,
        before,
    })
}
