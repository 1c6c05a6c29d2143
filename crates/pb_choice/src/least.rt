ghost use Rattle.std.specs.Prelude.{◌≡◌, ℕ, ℤ, Bool, List, Some, IfOk};
ghost use Rattle.pb_core_language.specs.declared.protocol.CoreRole.{CoreRole};
ghost use Rattle.pb_part_firsts.specs.Takers.{IsWhole};
ghost use Rattle.pb_choice.specs.Flaws.{IsFlaw, flaw_at, number_of};
ghost use Rattle.pb_choice.specs.Found.{Improves, mark_of};
ghost use Rattle.pb_choice.specs.Scenes.{Are};

use crate::found::{Found, Mark, earlier};
use crate::rule::ChoiceRule;
use crate::setting::Setting;
use pb_cases::Bad;
use pb_part_areas::{Area, common};
use pb_part_first::first_of;
use pb_rules::At;
use pb_text::NoMemory;
use std::alloc::Global;

// A breach by this rank.
fn told_at(rule: ChoiceRule, mark: Mark, bad: Bad) -> Found
    ensures { result ≡ record { rule = number_of rule; mark = mark; n = bad.n; at = Some (record { role = bad.role; index = bad.index }) } }
{
    Found {
        rule: rule.number(),
        mark,
        n: bad.n,
        at: Some(At {
            role: bad.role,
            index: bad.index,
        }),
    }
}

/// The earlier of the best so far and the first breach of the rule at the place, by the ranks that the areas hold of.
pub fn told_kept(
    alloc: Global,
    setting: &Setting,
    rule: ChoiceRule,
    mark: Mark,
    areas: &[Area],
    best: Option<Found>,
) -> Result<Option<Found>, NoMemory>
    ensures { IfOk result (λ new. (roles : List CoreRole) (bad : ℤ → ℕ → ℤ → Bool) → IsWhole setting.now.range roles setting.now.whole.now →
        Are setting.now.range roles areas.now bad → Improves (IsFlaw setting.now.range roles (flaw_at rule (mark_of mark) bad)) best new) }
{
    let ranks = common(alloc, areas, setting.whole)?;
    match first_of(&ranks, setting.range) {
        None => Ok(best),
        Some(bad) => Ok(earlier(best, told_at(rule, mark, bad))),
    }
}
