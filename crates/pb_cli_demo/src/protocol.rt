//! The C tree of the demo protocol.

ghost use Rattle.std.specs.Prelude.{◌≡◌, IfOk, IfErr};
ghost use Rattle.pb_cli_demo.specs.Demo.{IsDenied, IsTreeOf, bytes_of};

use pb_cli_status::Refusal;
use pb_cli_verdict::refusal_of;
use pb_compile::{CTree, compile};
use pb_demo_file::{NoMemory, demo_file};
use pb_syntax::print_file;
use std::alloc::Global;

/// The greatest number of bytes of a protocol file.
const MOST_BYTES: usize = 1_048_576;

/// The protocol of so many statements, as it is printed.
fn bytes_of(alloc: Global, count: u32) -> Result<Vec<u8>, NoMemory>
    ensures { IfOk result (λ bytes. bytes.items ≡ bytes_of count) }
{
    let file = demo_file(alloc, count)?;
    print_file(alloc, &file)
}

/// The tree of the C text of the protocol of so many statements, or why there is none.
#[tactic(auto, using(crate::proofs::Replies::no_room, crate::proofs::Replies::long, crate::proofs::Replies::told, crate::proofs::Replies::compiled))]
pub fn tree_of(alloc: Global, count: u32) -> Result<CTree, Refusal>
    ensures tree { IfOk result (IsTreeOf count) }
    ensures denied { IfErr result (IsDenied count) }
{
    let bytes = match bytes_of(alloc, count) {
        Ok(bytes) => bytes,
        Err(NoMemory) => return Err(Refusal::NoMemory),
    };
    if bytes.len() > MOST_BYTES {
        return Err(Refusal::FileBytes);
    }
    match compile(alloc, &bytes) {
        Ok(compiled) => Ok(compiled.tree),
        Err(verdict) => Err(refusal_of(verdict)),
    }
}
