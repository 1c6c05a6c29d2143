ghost use Rattle.std.specs.Prelude.{◌≡◌, ◌+◌, ◌<◌, ◌≤◌, IfOk, IfErr, IfSome, OnOk, IsErrOf, length, vec_len};
ghost use Rattle.std.specs.Io.KnownBytes.{IsAtEnd};
ghost use Rattle.pb_io.specs.Faults.{Rose};
ghost use Rattle.pb_io.specs.Files.{IsContent, IsSureOf, content_of};
ghost use Rattle.pb_io.specs.Passed.{count_after, StopsAt};
ghost use Rattle.pb_io.specs.Refusals.{Stands};

use crate::{Folder, InFault};
use std::alloc::Global;

/// How many bytes are read at a time.
const PIECE: usize = 4096;

/// Reads the file with this name, of at most `limit` bytes, to its end. There are at most `limit + 2` reads.
///
/// `ReadFault` comes only where the folder's count of faults rose in this call, and never where a steady folder holds
/// the name. `TooLong` comes exactly where `limit + 1` bytes were read. After a refusal the folder's open file stands
/// where the reading stopped, and as before where it was not opened.
pub fn read_all<F: Folder>(
    alloc: Global,
    folder: &mut F,
    name: &str,
    limit: u32,
) -> Result<Vec<u8>, InFault>
    ensures whole { IfOk result (λ bytes. IsContent (F.holds folder.old) name.now bytes.items) }
    ensures size { IfOk result (λ bytes. vec_len bytes ≤ limit) }
    ensures end { OnOk result (IsAtEnd (F.left folder.new)) }
    ensures too_long { IsErrOf result InFault.TooLong
        → IfSome (F.holds folder.old) (λ files. limit < length (content_of files name.now)) }
    ensures stands { IfErr result (λ fault.
        Stands fault limit (F.holds folder.old) name.now (F.left folder.old) (F.left folder.new)) }
    ensures fault { IsErrOf result InFault.ReadFault → Rose (F.faults folder.old) (F.faults folder.new) }
    ensures sure { IsErrOf result InFault.ReadFault → IsSureOf (F.steady folder.old) (F.holds folder.old) name.now → ⊥ }

    ensures later { F.faults folder.old ≤ F.faults folder.new }
    ensures holds { F.holds folder.new ≡ F.holds folder.old }
    ensures steady { F.steady folder.new ≡ F.steady folder.old }
    ensures counts { IfOk result (λ bytes. F.passed folder.new ≡ count_after (F.passed folder.old) (vec_len bytes)) }
    ensures stops { IfErr result (λ fault. StopsAt fault limit (F.passed folder.old) (F.passed folder.new)) }
    ensures reads { F.reads folder.new ≤ F.reads folder.old + (limit + 2) }
{
    folder.open_file(name)?;
    let most = limit as usize;
    let mut bytes = Vec::new(alloc);
    let mut piece = [0u8; PIECE];
    while bytes.len() <= most {
        let room = PIECE.min(most + 1 - bytes.len());
        let count = folder.read(&mut piece[..room])?;
        if count == 0 {
            return Ok(bytes);
        }
        bytes.extend_from_slice(&piece[..count])?;
    }
    Err(InFault::TooLong)
}
