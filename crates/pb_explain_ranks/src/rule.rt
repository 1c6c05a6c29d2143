use crate::ends::tell_end;
use crate::roles::tell_role;
use crate::rounds::tell_round;
use crate::same::tell_same;
use crate::setting::Setting;
use pb_explain_source::Page;
use pb_text::{Name, NoMemory, Place};
use std::alloc::Global;

/// Writes why the file breaks this rule, one from 6 to 9, at the place and at the N of the setting; the rules 7 and 8 at this
/// rank. Nothing is written for another rule, nor where the place isn't one at which the rule speaks.
pub fn tell_rank_rule(
    alloc: Global,
    page: &mut Page,
    setting: &Setting,
    rule: u8,
    place: Place,
    rank: Option<(Name, i64)>,
) -> Result<(), NoMemory> {
    match (rule, rank) {
        (6, _) => tell_role(page, setting, place),
        (7, Some((_, index))) => tell_end(alloc, page, setting, place, index),
        (8, Some((role, index))) => { tell_same(alloc, page, setting, place, &role, index) }
        (9, _) => tell_round(alloc, page, setting, place),
        _ => Ok(()),
    }
}
