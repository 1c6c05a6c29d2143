//! The program `pabble`: a compiler from parametric Pabble protocols to MPI C programs.
//!
//! `pabble` is the whole program over any folder and sink. `main` hands it the words after the program's name, the
//! system's files and standard output, and ends with the code of its status.
#![tactic(auto)]

ghost use Rattle.std.specs.Prelude.{◌≡◌, OnErr};
ghost use Rattle.std.specs.Process.{exit_status};
ghost use Rattle.pb_cli_status.specs.Codes.{code_of};
ghost use Rattle.pb_cli_status.specs.Lines.{line_of};
ghost use Rattle.pb_cli_status.specs.Written.{Says};

mod call;
#[cfg(test)]
mod tests;

use call::pabble;
use pb_cli_answers::Generators;
use pb_cli_status::{Refusal, Status, refuse};
use pb_explain::{RegularFolder, explain};
use pb_io::{Folder, HostFolder, HostSink, Sink};
use pb_text::NoMemory;
use std::alloc::Global;
use std::process::ExitCode;
use std::{env, io};

/// The words after the program's name; none where some aren't UTF-8.
fn words(rt: &HostRuntime) -> Result<Vec<String>, NoMemory> {
    match env::args(rt) {
        Ok(all) => Ok(all.skip(1).collect(rt.alloc())?),
        Err(error) if error.kind() == io::ErrorKind::OutOfMemory => Err(NoMemory),
        Err(_) => Ok(Vec::new(rt.alloc())),
    }
}

/// Does what the words say, or tells that there was no memory for them.
fn respond<F: Folder, O: Sink>(
    alloc: Global,
    words: Result<Vec<String>, NoMemory>,
    folder: &mut F,
    out: &mut O,
) -> Status
    ensures wanting { OnErr words (Says Status.NoMemory (line_of Refusal.NoMemory) result (O.taken out.old) (O.taken out.new)) }
{
    match words {
        Ok(all) => {
            let generators = Generators::new();
            pabble(alloc, all.as_slice(), folder, out, |seed, rank, count| {
                generators.word(seed, rank, count)
            })
        }
        Err(NoMemory) => refuse(out, Refusal::NoMemory),
    }
}

/// Tells a person on standard error why a call with these words ended so.
fn tell(rt: &HostRuntime, words: Result<Vec<String>, NoMemory>, status: Status) {
    if let Ok(all) = words {
        let mut folder = RegularFolder::new(rt);
        let mut err = HostSink::new(rt.stderr());
        let generators = Generators::new();
        explain(
            rt.alloc(),
            all.as_slice(),
            status,
            &mut folder,
            &mut err,
            |seed, rank, count| generators.word(seed, rank, count),
        );
    }
}

/// The program's exit status.
fn exit_code(status: Status) -> ExitCode
    ensures { exit_status result ≡ code_of status }
{
    ExitCode::from(status.code())
}

fn main(rt: HostRuntime) -> ExitCode {
    let mut folder = HostFolder::new(&rt);
    let mut out = HostSink::new(io::writer(&rt));
    let status = respond(rt.alloc(), words(&rt), &mut folder, &mut out);
    tell(&rt, words(&rt), status);
    exit_code(status)
}
