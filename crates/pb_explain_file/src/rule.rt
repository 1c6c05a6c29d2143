use crate::bounds::tell_bounds;
use crate::continues::tell_continue;
use crate::endings::tell_ending;
use crate::labels::tell_label;
use crate::names::tell_name;
use pb_explain_source::Page;
use pb_syntax::FileTree;
use pb_text::{NoMemory, Place};
use std::alloc::Global;

/// Writes why the file breaks this rule, one from 1 to 5, at the place. Nothing is written for another rule, nor where the
/// place isn't one at which the rule speaks.
pub fn tell_file_rule(
    alloc: Global,
    page: &mut Page,
    file: &FileTree,
    rule: u8,
    place: Place,
) -> Result<(), NoMemory> {
    match rule {
        1 => tell_name(alloc, page, file, place),
        2 => tell_label(alloc, page, file, place),
        3 => tell_continue(alloc, page, file, place),
        4 => tell_ending(alloc, page, file, place),
        5 => tell_bounds(page, file, place),
        _ => Ok(()),
    }
}
