//! Bodies that others keep.

ghost use Rattle.std.specs.Prelude.{◌≡◌, ◌++◌, IfOk, OnOk};
ghost use Rattle.pb_renew_merge.specs.Lost.{first_lost, first_misplaced, is_kept, keeps, lost_names, lost_of};

use pb_kernels::{KName, KernelFile, NoMemory};
use std::alloc::Global;

/// True where the file has a body with this name and these bytes.
pub fn keeps(name: &KName, body: &[u8], file: &KernelFile) -> bool
    ensures { result ≡ keeps name.now body.now file.now }
{
    file.has(name) && file.bytes_of(name) == body
}

/// The names of the old bodies that the other file doesn't keep, in their order.
pub fn lost_names(
    alloc: Global,
    old: &KernelFile,
    other: &KernelFile,
) -> Result<Vec<KName>, NoMemory>
    ensures { IfOk result (λ list. list.items ≡ lost_names old.now other.now) }
{
    let mut list = Vec::new(alloc);
    for place in 0..old.len() {
        let name = old.name_at(place);
        // The check learns here of which type a name's word is.
        let _word = &name.name;
        push_lost(&mut list, &name, old, other)?;
    }
    Ok(list)
}

/// Appends the name, where the other file doesn't keep its old body.
fn push_lost(
    list: &mut Vec<KName>,
    name: &KName,
    old: &KernelFile,
    other: &KernelFile,
) -> Result<(), NoMemory>
    ensures { OnOk result (list.new.items ≡ list.old.items ++ lost_of name.now old.now other.now) }
{
    if !keeps(name, old.bytes_of(name), other) {
        list.push(KName {
            kind: name.kind,
            name: name.name,
        })?;
    }
    Ok(())
}

/// The name of the first old body that neither of two others keeps.
pub fn first_lost(old: &KernelFile, text: &KernelFile, left: &KernelFile) -> Option<KName>
    ensures { result ≡ first_lost old.now text.now left.now }
{
    for place in 0..old.len() {
        let name = old.name_at(place);
        if !is_kept(&name, old, text, left) {
            return Some(name);
        }
    }
    None
}

/// The name of the first body that isn't where it should be, where a file was made of another one and old bodies.
///
/// It is an old one that neither the new text nor the file keeps, one that the other file had and this one doesn't keep, or one
/// of this file that neither that one nor the old text had.
pub fn first_misplaced(
    old: &KernelFile,
    text: &KernelFile,
    before: &KernelFile,
    made: &KernelFile,
) -> Option<KName>
    ensures { result ≡ first_misplaced old.now text.now before.now made.now }
{
    match first_lost(old, text, made) {
        Some(name) => Some(name),
        None => match first_lost(before, made, made) {
            Some(name) => Some(name),
            None => first_lost(made, before, old),
        },
    }
}

/// True where one of the two others keeps the old body with this name.
fn is_kept(name: &KName, old: &KernelFile, text: &KernelFile, left: &KernelFile) -> bool
    ensures { result ≡ is_kept name.now old.now text.now left.now }
{
    let body = old.bytes_of(name);
    keeps(name, body, text) || keeps(name, body, left)
}
