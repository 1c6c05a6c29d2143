//! A kernel file with more bodies behind its own.

ghost use Rattle.std.specs.Prelude.{◌≡◌, ◌⊎◌, ◌++◌, ℕ, List, [], IfErr, IfOk, OnOk};
ghost use Rattle.std.specs.List.{flat_map};
ghost use Rattle.pb_renew_text.specs.declared.wanted.Wanted.{Wanted};
ghost use Rattle.pb_kernels.specs.declared.fault.KernelFault.TheVariants as faults;
ghost use Rattle.pb_renew_merge.specs.Left.{first_twice, left_text, line_end, text_for};
ghost use Rattle.pb_renew_merge.specs.Lost.{NothingLost};
ghost use Rattle.pb_renew_merge.specs.Renewed.{HasAnother, IsLeft, IsLeftFault, IsRenewal};

use crate::lost::{first_misplaced, keeps};
use crate::marker::push_body;
use crate::reading::read_text;
use crate::renewed::Renewed;
use pb_kernels::{KName, KernelFault, KernelFile, NoMemory};
use std::alloc::Global;

/// The bytes of a kernel file with those bodies behind them that the new text lacks.
///
/// A body that the file has already, with its name and byte for byte, isn't put there again. `BadMarker` and `Twice` say
/// why the bytes are no kernel file; `Twice` also names the first body of which the file has another with its name.
/// What was made is read again: `Missing` names a body that isn't found there, or that neither the file nor the old text had, and
/// a line at fault would be one there. `NoMemory` may come in place of each.
#[tactic(auto, using(crate::proofs::Losses::is_left, crate::proofs::Losses::nothing_lost, crate::proofs::Losses::all_kept, crate::proofs::Losses::none_added, crate::proofs::Faults::no_left, crate::proofs::Faults::another, crate::proofs::Faults::not_made, crate::proofs::Faults::not_found))]
pub fn left_for(alloc: Global, renewed: &Renewed, before: &[u8]) -> Result<Vec<u8>, KernelFault>
    ensures bytes { IfOk result (λ left. IsLeft renewed.now before.now left.items) }
    ensures kept { IfOk result (λ left. (out : List ℕ) → (wanted : Wanted) → IsRenewal out wanted renewed.now → NothingLost out renewed.now.text.items left.items) }
    ensures keeps { IfOk result (λ left. NothingLost before.now left.items []) }
    ensures adds { IfOk result (λ left. (out : List ℕ) → (wanted : Wanted) → IsRenewal out wanted renewed.now → NothingLost left.items before.now out) }
    ensures fault { IfErr result (λ fault. (fault ≡ faults.NoMemory) ⊎ IsLeftFault renewed.now before.now fault) }
{
    let left = match read_text(alloc, before) {
        Ok(left) => left,
        Err(fault) => return Err(fault),
    };
    let bytes = match with_bodies(alloc, before, &left, &renewed.old, &renewed.gone) {
        Ok(bytes) => bytes,
        Err(fault) => return Err(fault),
    };
    let again = match read_text(alloc, &bytes) {
        Ok(again) => again,
        Err(fault) => return Err(fault),
    };
    match first_misplaced(&renewed.old, &renewed.kept, &left, &again) {
        Some(name) => Err(KernelFault::Missing(name)),
        None => Ok(bytes),
    }
}

/// The bodies of these names behind the bytes of a kernel file.
fn with_bodies(
    alloc: Global,
    before: &[u8],
    left: &KernelFile,
    old: &KernelFile,
    names: &[KName],
) -> Result<Vec<u8>, KernelFault>
    ensures bytes { IfOk result (λ bytes. bytes.items ≡ left_text before.now left.now old.now names.now) }
    ensures fault { IfErr result (λ fault. (fault ≡ faults.NoMemory) ⊎ HasAnother left.now old.now names.now fault) }
{
    if let Some(name) = first_twice(left, old, names) {
        return Err(KernelFault::Twice(name));
    }
    Ok(joined(alloc, before, left, old, names)?)
}

/// The bytes, and the bodies behind them.
fn joined(
    alloc: Global,
    before: &[u8],
    left: &KernelFile,
    old: &KernelFile,
    names: &[KName],
) -> Result<Vec<u8>, NoMemory>
    ensures { IfOk result (λ bytes. bytes.items ≡ left_text before.now left.now old.now names.now) }
{
    let mut bytes = Vec::new(alloc);
    bytes.extend_from_slice(before)?;
    bytes.extend_from_slice(line_end(before))?;
    push_bodies(&mut bytes, left, old, names)?;
    Ok(bytes)
}

fn push_bodies(
    out: &mut Vec<u8>,
    left: &KernelFile,
    old: &KernelFile,
    names: &[KName],
) -> Result<(), NoMemory>
    ensures { OnOk result (out.new.items ≡ out.old.items ++ flat_map (λ name. text_for left.now old.now name) names.now) }
{
    for name in names {
        push_missing(out, left, old, name)?;
    }
    Ok(())
}

/// Appends the old body with this name, where the file lacks it.
fn push_missing(
    out: &mut Vec<u8>,
    left: &KernelFile,
    old: &KernelFile,
    name: &KName,
) -> Result<(), NoMemory>
    ensures { OnOk result (out.new.items ≡ out.old.items ++ text_for left.now old.now name.now) }
{
    if left.has(name) {
        Ok(())
    } else {
        push_body(out, name, old.bytes_of(name))
    }
}

/// The line feed that the last line lacks.
fn line_end(bytes: &[u8]) -> &'static [u8]
    ensures { result.now ≡ line_end bytes.now }
{
    if bytes.is_empty() || bytes.ends_with(b"\n") {
        b""
    } else {
        b"\n"
    }
}

/// The first of these names of which the file has another body.
fn first_twice(left: &KernelFile, old: &KernelFile, names: &[KName]) -> Option<KName>
    ensures { result ≡ first_twice left.now old.now names.now }
{
    for name in names {
        if left.has(name) && !keeps(name, old.bytes_of(name), left) {
            return Some(*name);
        }
    }
    None
}
