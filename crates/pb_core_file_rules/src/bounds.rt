ghost use Rattle.std.specs.Prelude.{◌≡◌, ◌<◌, ◌^◌, ◌-ℤ◌, ◌≤◌, int_le, pos, length};
ghost use Rattle.pb_syntax.specs.Plain.{plain_file};
ghost use Rattle.pb_core_language.specs.FileRules.{growth, role_growth, total_growth, is_below, is_just, broken_5};
ghost use Rattle.pb_core_file_rules.specs.Lowering.{first};

use crate::scope::is_same;
use pb_syntax::{FileTree, High, LinText, RoleText};
use pb_text::{Name, Place};

fn growth(lin: &LinText, constant: &Name) -> u64
    ensures growth { pos result ≡ growth constant.now lin.now }
    ensures most { result ≤ 1 }
{
    match &lin.base {
        None => 0,
        Some(base) => { if is_same(&base.name, constant) { 1 } else { 0 } }
    }
}

// By how much the ends of the role's range grow where N is one more: the upper end, and the lower one.
fn end_growths(role: &RoleText, constant: &Name) -> (u64, u64)
    ensures growth { role_growth constant.now role.now ≡ pos result.0 -ℤ pos result.1 }
    ensures high { result.0 ≤ 1 }
    ensures low { result.1 ≤ 1 }
{
    match &role.range {
        None => (0, 0),
        Some(range) => (growth(&range.high, constant), growth(&range.low, constant)),
    }
}

// Whether the number of ranks grows with N.
#[tactic(auto, using(crate::proofs::Growth::one_more, crate::proofs::Growth::is_more))]
fn grows(roles: &[RoleText], constant: &Name) -> bool
    requires { length roles.now < 2 ^ 32 }
    ensures { result ≡ int_le (pos 1) (total_growth constant.now roles.now) }
{
    let mut high: u64 = 0;
    let mut low: u64 = 0;
    for role in roles {
        let (more_high, more_low) = end_growths(role, constant);
        high += more_high;
        low += more_low;
    }
    low < high
}

fn is_below(high: High, low: u32) -> bool
    ensures { result ≡ is_below high low }
{
    match high {
        High::Upto(high) => high < low,
        High::Max => false,
    }
}

fn is_just(high: High, low: u32) -> bool
    ensures { result ≡ is_just high low }
{
    match high {
        High::Upto(high) => high == low,
        High::Max => false,
    }
}

/// Where the range of the constant, or the number of ranks, isn't as it must be.
pub fn first_unbounded(file: &FileTree) -> Option<Place>
    requires { length file.now.roles.items < 2 ^ 32 }
    ensures { result ≡ first (broken_5 (plain_file file.now)) }
{
    if file.low < 1 {
        return Some(file.low_place);
    }
    if is_below(file.high, file.low) {
        return Some(file.high_place);
    }
    if grows(&file.roles, &file.constant.name) || is_just(file.high, file.low) {
        return None;
    }
    Some(file.protocol.place)
}
