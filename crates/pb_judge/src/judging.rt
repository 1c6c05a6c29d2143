ghost use Rattle.std.specs.Prelude.{◌≡◌, ◌≤◌, ℕ, List, true, cond, IfOk};
ghost use Rattle.pb_text.specs.declared.action.Action as A;
ghost use Rattle.pb_affine.specs.Values.{IsNear};
ghost use Rattle.pb_core_language.specs.Collectives.{setting_of};
ghost use Rattle.pb_core_language.specs.Flat as F;
ghost use Rattle.pb_core_language.specs.FlatOf.{flat};
ghost use Rattle.pb_core_language.specs.Plain.{plain};
ghost use Rattle.pb_core_language.specs.Ranks.{total};
ghost use Rattle.pb_core_language.specs.Run as R;
ghost use Rattle.pb_core_language.specs.Sound.{is_sound};
ghost use Rattle.pb_judge_ruling.specs.Laws.{HasRanks, Means};
ghost use Rattle.pb_judge_ruling.specs.Ruling.{IsRuling};
ghost use Rattle.pb_judge_ruling.specs.declared.ruling.Ruling.TheVariants as V;
ghost use Rattle.pb_judge_follow.specs.Follow.{IsLeastLeft, IsUsedUp};
ghost use Rattle.pb_judge_lists.specs.Places.{left_of};
ghost use Rattle.pb_judge_walks.specs.Laws.{IsRuledBy, Rulings};

use pb_core_language::Core;
use pb_judge_blocks::{Site, block};
use pb_judge_joint::Setting;
use pb_judge_log::{Log, total};
use pb_judge_ruling::Ruling;
use pb_judge_steps::Lists;
use pb_judge_walks::Flow;
use pb_text::NoMemory;
use std::alloc::Global;

/// The ruling on a log of a sound protocol at N = n, within 2^40 of zero, with at most 1,024 ranks. Each entry is of one of
/// these ranks.
///
/// It takes time linear in the log and in the statements that the run passes, up to the first difference or to the end of a
/// round of a loop that uses no entry.
pub fn judge(alloc: Global, core: &Core, n: i64, log: &Log) -> Result<Ruling, NoMemory>
    requires sound { is_sound (plain core.now) ≡ true }
    requires near { IsNear n }
    requires few { total core.now.roles.items n ≤ 1024 }
    requires ranks { HasRanks (total core.now.roles.items n) log.now }
    ensures ruling { IfOk result (λ ruling. IsRuling (setting_of (plain core.now) n) (flat core.now.roles.items n (plain core.now).body.block) log.now ruling) }
    ensures means { IfOk result (λ ruling. Means (setting_of (plain core.now) n) (flat core.now.roles.items n (plain core.now).body.block) log.now ruling) }
{
    let setting = Setting {
        total: total(&core.roles, n),
        labels: &core.labels,
    };
    let site = Site {
        roles: &core.roles,
        n,
        setting,
    };
    let mut lists = Lists::of(alloc, log.entries(), setting.total)?;
    let flow = block(&core.body, alloc, &site, &0, &mut lists)?;
    Ok(ruling(flow, &lists))
}

/// The ruling where the walk over the whole protocol ended so.
fn ruling(flow: Flow, lists: &Lists) -> Ruling
    ensures { (s : R.Setting) (protocol : F.Block) (log : List (ℕ × A.Action)) → IsRuledBy s protocol log flow (left_of lists.now) → IsRuling s protocol log result }
{
    match flow {
        Flow::Differs { rank, line } => Ruling::Differs { rank, line },
        Flow::Endless => left_over(lists, Ruling::Covered),
        Flow::Passed => at_end(lists),
        Flow::Back(_) => at_end(lists),
    }
}

/// The ruling where the run is over.
fn at_end(lists: &Lists) -> Ruling
    ensures { (s : R.Setting) (protocol : F.Block) (log : List (ℕ × A.Action)) → Rulings s protocol log (left_of lists.now) → IsRuling s protocol log result }
{
    left_over(lists, over(lists.owes()))
}

/// The ruling where the run is over and nothing is left.
fn over(owes: bool) -> Ruling
    ensures { result ≡ cond owes V.Covered V.Whole }
{
    if owes { Ruling::Covered } else { Ruling::Whole }
}

/// Beyond where a rank has entries left, else the other ruling.
fn left_over(lists: &Lists, otherwise: Ruling) -> Ruling
    ensures { (s : R.Setting) (protocol : F.Block) (log : List (ℕ × A.Action)) → ((r line : ℕ) → IsLeastLeft (left_of lists.now) r line → IsRuling s protocol log (V.Beyond r line)) → (IsUsedUp (left_of lists.now) → IsRuling s protocol log otherwise) → IsRuling s protocol log result }
{
    match lists.least_left() {
        Some((rank, line)) => Ruling::Beyond { rank, line },
        None => otherwise,
    }
}
