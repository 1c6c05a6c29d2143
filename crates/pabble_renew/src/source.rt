//! The protocol in FILE, by one reading.

ghost use Rattle.std.specs.Prelude.{◌≡◌, ◌≤◌, IfOk, IfErr, IsErrOf};
ghost use Rattle.pb_io.specs.Faults.{Rose};
ghost use Rattle.pb_cli_status.specs.Lines.{line_of, status_of};
ghost use Rattle.pb_cli_file.specs.Files.{IsFileRefusal};
ghost use Rattle.pabble_renew.specs.Planned.{IsSource};

use pb_cli_file::bytes_in;
use pb_cli_status::Refusal;
use pb_cli_verdict::refusal_of;
use pb_compile::compile;
use pb_io::Folder;
use pb_renew::{Form, Wanted};
use std::alloc::Global;

/// What FILE has, and the text that is wanted of that protocol.
#[derive(Drop)]
pub struct Source {
    pub bytes: Vec<u8>,
    pub wanted: Wanted,
}

/// The protocol in FILE, or why it isn't accepted.
#[tactic(auto, using(pb_cli_file::proofs::Answered::made, pb_cli_file::proofs::Answered::refused))]
pub fn source_in<F: Folder>(alloc: Global, folder: &mut F, file: &str) -> Result<Source, Refusal>
    ensures source { IfOk result (IsSource file.now (F.holds folder.old)) }
    ensures denied { IfErr result (λ why. IsFileRefusal file.now (F.holds folder.old) (status_of why) (line_of why)) }
    ensures fault { IsErrOf result Refusal.ReadFault → Rose (F.faults folder.old) (F.faults folder.new) }
    ensures later { F.faults folder.old ≤ F.faults folder.new }
    ensures holds { F.holds folder.new ≡ F.holds folder.old }
{
    let bytes = match bytes_in(alloc, folder, file) {
        Ok(bytes) => bytes,
        Err(why) => return Err(why),
    };
    match compile(alloc, &bytes) {
        Ok(compiled) => Ok(Source {
            bytes,
            wanted: Wanted {
                tree: compiled.tree,
                form: Form::Plain,
            },
        }),
        Err(verdict) => Err(refusal_of(verdict)),
    }
}
