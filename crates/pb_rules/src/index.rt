ghost use Rattle.std.specs.Prelude.{◌≡◌, true, OnOk, IfErr};
ghost use Rattle.pb_core_language.specs.Plain.{plain};
ghost use Rattle.pb_core_language.specs.Sound.{is_sound};
ghost use Rattle.pb_rules.specs.Sites.{best_of};
ghost use Rattle.pb_rules.specs.Verdict.{KeepsIndex, HasFewCases, IsFault, fault_of};

use crate::cuts::cuts_of;
use crate::ends::Setting;
use crate::fault::RuleFault;
use crate::found::Found;
use crate::walk::{block_kept, roles_kept};
use pb_cases::{CaseFault, Cases};
use pb_core_language::Core;
use std::alloc::Global;

/// Whether the protocol keeps the rules 6 to 8 at every N of its range: each role has an index, each index lies in its
/// role's range, and the sender and the receiver of each message differ. `TooManyCases` exactly where the cuts have more
/// than 4,096 breakpoints, whether or not a rule is broken; `Broken` at the least breach. Takes time in proportion to the
/// statements, and to the product of the cuts, each counted once, for the breakpoints.
pub fn check_index(alloc: Global, core: &Core) -> Result<(), RuleFault>
    requires { is_sound (plain core.now) ≡ true }
    ensures keeps { OnOk result (KeepsIndex (plain core.now)) }
    ensures few { OnOk result (HasFewCases (plain core.now)) }
    ensures faults { IfErr result (λ e. IsFault (plain core.now) e) }
{
    match check_cases(alloc, core) {
        Err(fault) => Err(fault),
        Ok(()) => check_ends(core),
    }
}

#[tactic(auto, using(crate::proofs::CutsSound::has_first_n))]
fn check_cases(alloc: Global, core: &Core) -> Result<(), RuleFault>
    requires { is_sound (plain core.now) ≡ true }
    ensures few { OnOk result (HasFewCases (plain core.now)) }
    ensures faults { IfErr result (λ e. IsFault (plain core.now) e) }
{
    let Ok(cuts) = cuts_of(alloc, core) else {
        return Err(RuleFault::NoMemory);
    };
    match Cases::of(alloc, core.range, &cuts) {
        Ok(_) => Ok(()),
        Err(fault) => Err(fault_of(fault)),
    }
}

fn fault_of(fault: CaseFault) -> RuleFault
    ensures { result ≡ fault_of fault }
{
    match fault {
        CaseFault::TooManyCases => RuleFault::TooManyCases,
        CaseFault::NoMemory => RuleFault::NoMemory,
    }
}

fn check_ends(core: &Core) -> Result<(), RuleFault>
    requires sound { is_sound (plain core.now) ≡ true }
    requires few { HasFewCases (plain core.now) }
    ensures keeps { OnOk result (KeepsIndex (plain core.now)) }
    ensures faults { IfErr result (λ e. IsFault (plain core.now) e) }
{
    match first_found(core) {
        None => Ok(()),
        Some(found) => Err(broken(found)),
    }
}

fn broken(found: Found) -> RuleFault
    ensures { result ≡ RuleFault.Broken found.rule found.place found.n found.at }
{
    RuleFault::Broken {
        rule: found.rule,
        place: found.place,
        n: found.n,
        at: found.at,
    }
}

/// The first breach of the rules 6 to 8.
pub fn first_found(core: &Core) -> Option<Found>
    ensures { result ≡ best_of (plain core.now) }
{
    let setting = Setting {
        range: core.range,
        roles: &core.roles,
    };
    let best = roles_kept(core.range, &core.roles, None);
    block_kept(&core.body, &setting, None, best)
}
