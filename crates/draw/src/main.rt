//! The program `draw`: a picture of one log.
//!
//! `respond` is the whole program over any folder and sinks: the picture goes to standard output, and what is to be told besides
//! to standard error.
#![tactic(auto)]

mod call;
mod fault;
mod request;
mod status;

use call::respond;
use pb_io::{HostFolder, HostSink};
use pb_text::NoMemory;
use std::process::ExitCode;
use std::{env, io};

/// The words after the program's name; none where some aren't UTF-8.
fn words(rt: &HostRuntime) -> Result<Vec<String>, NoMemory> {
    match env::args(rt) {
        Ok(all) => Ok(all.skip(1).collect(rt.alloc())?),
        Err(error) if error.kind() == io::ErrorKind::OutOfMemory => Err(NoMemory),
        Err(_) => Ok(Vec::new(rt.alloc())),
    }
}

fn main(rt: HostRuntime) -> ExitCode {
    let mut folder = HostFolder::new(&rt);
    let mut out = HostSink::new(io::writer(&rt));
    let mut told = HostSink::new(rt.stderr());
    let status = respond(rt.alloc(), words(&rt), &mut folder, &mut out, &mut told);
    ExitCode::from(status.code())
}
