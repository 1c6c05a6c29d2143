ghost use Rattle.std.specs.Prelude.{◌≡◌, true, IfOk, OnOk, IfErr};
ghost use Rattle.pb_core_language.specs.Plain.{plain};
ghost use Rattle.pb_core_language.specs.Sound.{is_sound};
ghost use Rattle.pb_core_language.specs.Verdict.{KeepsAll};
ghost use Rattle.pb_rules.specs.Verdict.{KeepsIndex, HasFewCases};
ghost use Rattle.pb_choice.specs.Verdict.{IsFlowFault, IsAnswer};

use crate::found::Found;
use crate::setting::Setting;
use crate::walk::block_kept;
use pb_core_language::Core;
use pb_part_takers::areas_of_roles;
use pb_rules::RuleFault;
use pb_text::NoMemory;
use std::alloc::Global;

/// Whether the protocol, which keeps the rules 6 to 8, keeps the rules 9 to 12 at every N of its range: a loop that comes
/// round has a rank that takes part, and each rank that is told of a choice finds first only receives, from one rank, with
/// labels of their branch alone. `Broken` at the first breach; never `TooManyCases`.
pub fn check_flow(alloc: Global, core: &Core) -> Result<(), RuleFault>
    requires sound { is_sound (plain core.now) ≡ true }
    requires index { KeepsIndex (plain core.now) }
    requires few { HasFewCases (plain core.now) }
    ensures keeps { OnOk result (KeepsAll (plain core.now)) }
    ensures faults { IfErr result (λ e. IsFlowFault (plain core.now) e) }
{
    match first_flow(alloc, core) {
        Err(_) => Err(RuleFault::NoMemory),
        Ok(None) => Ok(()),
        Ok(Some(found)) => Err(broken(found)),
    }
}

fn broken(found: Found) -> RuleFault
    ensures { result ≡ RuleFault.Broken found.rule found.mark.place found.n found.at }
{
    RuleFault::Broken {
        rule: found.rule,
        place: found.mark.place,
        n: found.n,
        at: found.at,
    }
}

// The first breach.
fn first_flow(alloc: Global, core: &Core) -> Result<Option<Found>, NoMemory>
    requires sound { is_sound (plain core.now) ≡ true }
    requires index { KeepsIndex (plain core.now) }
    ensures { IfOk result (λ best. IsAnswer (plain core.now) best) }
{
    let whole = areas_of_roles(alloc, &core.roles, core.range)?;
    let setting = Setting {
        range: core.range,
        whole: &whole,
    };
    let held = Vec::new(alloc);
    let best = block_kept(&core.body, alloc, &setting, &held, None)?;
    Ok(best)
}
