//! The program `pabble-renew`: puts the C text of a changed protocol in the place of the old one, with the bodies that were filled in.
//!
//! `respond` is the whole program over any store, folders and sink: it reads FILE, OUT and OUT.left in the folder, writes OUT and
//! OUT.left in the store, and tells why it didn't, or what has changed, in the sink. A second folder has the same files, which are read
//! once more to be told of.
#![tactic(auto)]

ghost use Rattle.std.specs.Prelude.{◌≡◌};
ghost use Rattle.std.specs.Process.{exit_status};
ghost use Rattle.pabble_renew.specs.Endings.{code_of};

mod apart;
mod bodies;
mod call;
mod carrying;
mod doing;
mod ending;
mod fault;
mod help;
mod line;
mod naming;
mod place;
mod renewing;
mod request;
mod source;

use call::respond;
use ending::Ending;
use pb_explain_again::RegularFolder;
use pb_io::HostSink;
use pb_renew_store::HostStore;
use pb_text::NoMemory;
use std::process::ExitCode;
use std::{env, io};

/// The words after the program's name; none where some aren't UTF-8.
fn words(rt: &HostRuntime) -> Result<Vec<String>, NoMemory> {
    match env::args(rt) {
        Ok(all) => Ok(all.skip(1).collect(rt.alloc())?),
        Err(error) if error.kind() == io::ErrorKind::OutOfMemory => Err(NoMemory),
        Err(_) => Ok(Vec::new(rt.alloc())),
    }
}

/// The program's exit status.
fn exit_code(ending: Ending) -> ExitCode
    ensures { exit_status result ≡ code_of ending }
{
    ExitCode::from(ending.code())
}

fn main(rt: HostRuntime) -> ExitCode {
    let mut store = HostStore::new(rt.alloc(), &rt);
    let mut folder = RegularFolder::new(&rt);
    let mut again = RegularFolder::new(&rt);
    let mut told = HostSink::new(rt.stderr());
    let words = words(&rt);
    exit_code(respond(
        rt.alloc(),
        words,
        &mut store,
        &mut folder,
        &mut again,
        &mut told,
    ))
}
