//! Lists of files in memory. Of two files with one name the first counts.

ghost use Rattle.std.specs.Prelude.{◌≡◌, ◌∷◌, [], true, false, None, IfSome, IsSome, if◌then◌else◌};
ghost use Rattle.std.specs.Option.{option_map};
ghost use Rattle.pb_io.specs.Entries.{entries};
ghost use Rattle.pb_io.specs.Files.{file_of};
ghost use Rattle.pb_renew_store.specs.Changes.{Renames};
ghost use Rattle.pb_renew_store.specs.Deeds.{Does, made, wrote, renamed, removed, same_content};
ghost use Rattle.pb_renew_store.specs.MemStore.{IsGrown, others_than};
ghost use Rattle.pb_renew_store.specs.Recorded.{deed_of};

use crate::{Deed, MemFile};
use std::alloc::Global;

/// The bytes of the first file with this name.
pub fn bytes_of<'a>(files: &'a [MemFile], name: &str) -> Option<&'a [u8]>
    ensures { option_map (λ bytes. bytes.now) result ≡ file_of (entries files.now) name.now }
{
    for file in files {
        if file.name.as_str() == name {
            return Some(&file.bytes);
        }
    }
    None
}

/// True where a file has the name.
pub fn has(files: &[MemFile], name: &str) -> bool
    ensures there { result ≡ true → IsSome (file_of (entries files.now) name.now) }
    ensures missing { result ≡ false → file_of (entries files.now) name.now ≡ None }
{
    bytes_of(files, name).is_some()
}

/// True where both are the same bytes, or both missing.
pub fn is_same_content(found: Option<&[u8]>, bytes: &Option<Vec<u8>>) -> bool
    ensures { result ≡ same_content (option_map (λ b. b.now) found.entry) (option_map (λ b. b.items) bytes.now) }
{
    match (found, bytes) {
        (None, None) => true,
        (None, Some(_)) => false,
        (Some(_), None) => false,
        (Some(found), Some(bytes)) => found == bytes.as_slice(),
    }
}

/// The bytes of the first file with this name, and the piece behind them. None where no file has the name, or memory ran
/// out.
fn grown(alloc: Global, files: &[MemFile], name: &str, piece: &[u8]) -> Option<Vec<u8>>
    ensures { IfSome result (λ grown. IsGrown (entries files.now) name.now piece.now grown.items) }
{
    let bytes = bytes_of(files, name)?;
    let mut grown = Vec::new(alloc);
    grown.extend_from_slice(bytes).ok()?;
    grown.extend_from_slice(piece).ok()?;
    Some(grown)
}

/// Puts a file in front of the others. False where memory ran out, and then the files are as before.
fn put_first(alloc: Global, files: &mut Vec<MemFile>, name: &str, bytes: Vec<u8>) -> bool
    ensures { entries files.new.items ≡ (if result then record { name = name.now; bytes = bytes.items } ∷ entries files.old.items else entries files.old.items) }
{
    match String::from_str(alloc, name) {
        Ok(name) => files.insert(0, MemFile { name, bytes }).is_ok(),
        Err(_) => false,
    }
}

/// Takes away each file with this name.
fn take_away(files: &mut Vec<MemFile>, name: &str)
    ensures { files.new.items ≡ others_than name.now files.old.items }
{
    files.retain(|file| file.name.as_str() != name);
}

/// Makes an empty file. False where a file has the name, or memory ran out, and then the files are as before.
fn make(alloc: Global, files: &mut Vec<MemFile>, name: &str) -> bool
    ensures done { result ≡ true → Does (made name.now) (entries files.old.items) (entries files.new.items) }
    ensures kept { result ≡ false → entries files.new.items ≡ entries files.old.items }
{
    if has(files, name) {
        return false;
    }
    put_first(alloc, files, name, Vec::new(alloc))
}

/// Writes bytes behind those of a file. False where no file has the name, or memory ran out, and then the files are as
/// before.
fn write(alloc: Global, files: &mut Vec<MemFile>, name: &str, bytes: &[u8]) -> bool
    ensures done { result ≡ true → Does (wrote name.now bytes.now) (entries files.old.items) (entries files.new.items) }
    ensures kept { result ≡ false → entries files.new.items ≡ entries files.old.items }
{
    match grown(alloc, files, name, bytes) {
        Some(grown) => put_first(alloc, files, name, grown),
        None => false,
    }
}

/// Gives a file another name, in place of the file that had it. False where no file has the name, or memory ran out, and
/// then the files are as before.
fn rename(alloc: Global, files: &mut Vec<MemFile>, from: &str, to: &str) -> bool
    ensures done { result ≡ true → Does (renamed from.now to.now) (entries files.old.items) (entries files.new.items) }
    ensures kept { result ≡ false → entries files.new.items ≡ entries files.old.items }
{
    let Some(bytes) = grown(alloc, files, from, b"") else {
        return false;
    };
    if !put_first(alloc, files, to, bytes) {
        return false;
    }
    if from != to {
        take_away(files, from);
    }
    true
}

/// Takes a file away. False where no file has the name, and then the files are as before.
fn remove(files: &mut Vec<MemFile>, name: &str) -> bool
    ensures done { result ≡ true → Does (removed name.now) (entries files.old.items) (entries files.new.items) }
    ensures kept { result ≡ false → entries files.new.items ≡ entries files.old.items }
{
    let is_there = has(files, name);
    if is_there {
        take_away(files, name);
    }
    is_there
}

/// Does a deed to the files. False where it can't be done, would have come out otherwise, or memory ran out, and then the
/// files are as before.
pub fn play(alloc: Global, files: &mut Vec<MemFile>, deed: &Deed) -> bool
    ensures done { result ≡ true → Does (deed_of deed.now) (entries files.old.items) (entries files.new.items) }
    ensures kept { result ≡ false → entries files.new.items ≡ entries files.old.items }
{
    match deed {
        Deed::Made { name } => make(alloc, files, name.as_str()),
        Deed::Met { name } => has(files, name.as_str()),
        Deed::Wrote { name, bytes } => write(alloc, files, name.as_str(), bytes),
        Deed::Spoiled { name: _ } => true,
        Deed::Compared { name, bytes, same } => {
            is_same_content(bytes_of(files, name.as_str()), bytes) == *same
        }
        Deed::Synced { name: _ } => true,
        Deed::Settled { name: _ } => true,
        Deed::Renamed { from, to } => rename(alloc, files, from.as_str(), to.as_str()),
        Deed::Removed { name } => remove(files, name.as_str()),
    }
}
