//! The bytes of a file that may be missing.

ghost use Rattle.std.specs.Prelude.{◌≡◌, ◌≤◌, [], IfErr, IfOk, IfSome, unwrap_or};
ghost use Rattle.std.specs.Option.{option_map};
ghost use Rattle.pb_io.specs.Files.{file_of};
ghost use Rattle.pb_renew.specs.Places.{IsThere};
ghost use Rattle.pb_renew.specs.Reasons.{IsNoContent};

use crate::unrenewed::Unrenewed;
use pb_io::{Folder, InFault, read_all};
use std::alloc::Global;

/// The greatest number of bytes of OUT and of OUT.left.
pub const MOST_BYTES: u32 = 67_108_864;

/// The bytes of the file with this name; none where it is missing.
#[tactic(auto, using(crate::proofs::Contents::content_there, crate::proofs::Contents::content_missing))]
pub fn content<F: Folder>(
    alloc: Global,
    folder: &mut F,
    name: &str,
    is_there: bool,
) -> Result<Option<Vec<u8>>, Unrenewed>
    ensures bytes { IfOk result (λ content. IfSome (F.holds folder.old) (λ files. IsThere name.now is_there files → option_map (λ bytes. bytes.items) content ≡ file_of files name.now)) }
    ensures fault { IfErr result (λ why. IsNoContent why name.now (F.holds folder.old) (F.faults folder.old) (F.faults folder.new)) }
    ensures holds { F.holds folder.new ≡ F.holds folder.old }
    ensures later { F.faults folder.old ≤ F.faults folder.new }
{
    if !is_there {
        return Ok(None);
    }
    match read_all(alloc, folder, name, MOST_BYTES) {
        Ok(bytes) => Ok(Some(bytes)),
        Err(InFault::ReadFault) => Err(Unrenewed::ReadFault),
        Err(InFault::TooLong) => Err(Unrenewed::TooLong),
        Err(InFault::NoMemory) => Err(Unrenewed::NoMemory),
    }
}

/// Its bytes; none where it is missing.
pub fn bytes_in(content: &Option<Vec<u8>>) -> &[u8]
    ensures { result.now ≡ unwrap_or (option_map (λ bytes. bytes.items) content.now) [] }
{
    match content {
        Some(bytes) => bytes,
        None => b"",
    }
}
