//! Whether a protocol can be run at an N.

ghost use Rattle.std.specs.Prelude.{◌≡◌, ◌↔◌, pos, true, IsTrue, OnOk, IfErr};
ghost use Rattle.pb_core_language.specs.Plain.{plain};
ghost use Rattle.pb_core_language.specs.Sound.{is_sound};
ghost use Rattle.pb_core_language.specs.Verdict.{IsIn};
ghost use Rattle.pb_cli_file.specs.Files.{MayRun};
ghost use Rattle.pb_cli_judge.specs.Judge.{IsNoStart};

use pb_affine::NRange;
use pb_cli_status::Refusal;
use pb_judge::{Core, has_few_ranks};

/// Whether N is a number of the range.
fn is_in(range: NRange, n: u32) -> bool
    ensures { IsTrue result ↔ IsIn range (pos n) }
{
    if n < range.low {
        return false;
    }
    match range.high {
        None => true,
        Some(high) => n <= high,
    }
}

/// Refuses an N outside the protocol's range, and then one at which there are more than 1,024 ranks.
#[tactic(auto, using(crate::proofs::Starts::may_run, crate::proofs::Starts::outside, crate::proofs::Starts::many))]
pub fn start(core: &Core, n: u32) -> Result<(), Refusal>
    requires { is_sound (plain core.now) ≡ true }
    ensures runs { OnOk result (MayRun (plain core.now) n) }
    ensures denied { IfErr result (IsNoStart (plain core.now) n) }
{
    if !is_in(core.range, n) {
        return Err(Refusal::OutOfRange {
            n,
            range: core.range,
        });
    }
    if has_few_ranks(core, i64::from(n)) {
        Ok(())
    } else {
        Err(Refusal::Ranks)
    }
}
