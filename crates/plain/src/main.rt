//! The program `plain`: what a protocol means at one N, computed by the slow programs that follow the definitions step by
//! step. It shows its reader the definitions at work, and fast code is tested against what it prints.
#![tactic(auto)]

mod action;
mod answers;
mod call;
mod fault;
mod parts;
mod ranks;
mod report;
mod request;
mod rules;
mod run;
mod sizes;
mod status;
mod text;
mod worked;

use call::show;
use pb_io::{HostFolder, HostSink};
use std::process::ExitCode;
use std::{env, io};

fn main(rt: HostRuntime) -> ExitCode {
    let mut words = Vec::new(rt.alloc());
    if let Ok(all) = env::args(&rt) {
        words = all
            .skip(1)
            .collect(rt.alloc())
            .unwrap_or(Vec::new(rt.alloc()));
    }
    let mut folder = HostFolder::new(&rt);
    let mut out = HostSink::new(io::writer(&rt));
    let status = show(rt.alloc(), words.as_slice(), &mut folder, &mut out);
    ExitCode::from(status.code())
}
